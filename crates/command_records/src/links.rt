// Link statuses of four bytes each, an address, an incoming and an outgoing cost: as a record has them, and a lent list of neighbours.

ghost use Rattle.std.specs.Prelude.{◌≡◌, ℕ, ◌+◌, ◌*◌, ◌≤◌};
ghost use Rattle.octets.specs.Strings.{tab};
ghost use Rattle.commands.specs.Commands.{no_link};
ghost use Rattle.commands.specs.Reading.{places};
ghost use Rattle.command_records.specs.Lists.{link_record_at};

use commands::{NO_LINK, NwkLinkStatus};
use types::Nwk;

// The link status at place i.
pub fn link_at(bytes: &[u8], i: usize) -> NwkLinkStatus
    requires { i ≤ 100000 }
    ensures { result ≡ link_record_at bytes.now i }
{
    NwkLinkStatus {
        address: Nwk(octets::read_u16(bytes, i)),
        incoming_cost: octets::byte_at(bytes, i + 2),
        outgoing_cost: octets::byte_at(bytes, i + 3),
    }
}

// n link statuses from place i on.
pub fn read_links(bytes: &[u8], i: usize, n: usize) -> [NwkLinkStatus; 31]
    requires { (n ≤ 31) × (i ≤ 50000) }
    ensures { result ≡ places no_link 31 (tab (λ (k : ℕ). link_record_at bytes.now (i + k * 4)) n) }
{
    let mut links = [NO_LINK; 31];
    let mut k = 0;
    while k < n {
        links[k] = link_at(bytes, i + k * 4);
        k += 1;
    }
    links
}
