// Lent outputs that are filled before a call, to see what the call left.
ghost use Rattle.std.specs.Prelude.{◌≡◌};
ghost use Rattle.casefile.specs.Outputs.{all_filler, text_then_filler};

use crate::file;

// What the lent outputs hold before a call.
pub const FILLER: u8 = 0xA5;

// Whether every byte is the filler.
pub fn untouched(s: &[u8]) -> bool
    ensures { result ≡ all_filler s.now }
{
    for &byte in s {
        if byte != FILLER {
            return false;
        }
    }
    true
}

// Whether the front of the output is the text, and the rest as it was.
pub fn holds(out: &[u8], text: &[u8]) -> bool
    ensures { result ≡ text_then_filler text.now out.now }
{
    let n = file::within(text.len(), out);
    check::same(&out[..n], text) && untouched(&out[n..])
}
