// Support for proofs: each function promises of every value what its type's range says, and does nothing.
ghost use Rattle.std.specs.Prelude.{◌≡◌, length};
ghost use Rattle.octets.specs.Strings.{Below};

use crate::{Eui64, Key};

// Every address is eight bytes, each below 256: the premises of the laws about addresses.
pub fn eui64_fits(address: Eui64)
    ensures { (length address.0 ≡ 8) × Below 256 address.0 }
{
    let _bytes = address.0;
}

// Every key is sixteen bytes, each below 256: the premises of the laws about keys.
pub fn key_fits(key: Key)
    ensures { (length key.0 ≡ 16) × Below 256 key.0 }
{
    let _bytes = key.0;
}
