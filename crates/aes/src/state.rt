// The state, four columns of four bytes (FIPS 197, 3.4).
#![tactic(auto, unfolding(crate::specs::State::four, crate::specs::State::state, crate::specs::State::state_of, crate::specs::State::block_of, octets::specs::Numbers::le, octets::specs::Numbers::bytes_of))]

ghost use Rattle.std.specs.Prelude.{◌≡◌};
ghost use Rattle.octets.specs.Numbers.{bytes_of};
ghost use Rattle.aes.specs.State.{state_of, block_of};

use crate::words;

pub type State = [[u8; 4]; 4];

// The state of sixteen bytes, column by column.
pub fn load(b: [u8; 16]) -> State
    ensures { result ≡ state_of b }
{
    [
        [b[0], b[1], b[2], b[3]],
        [b[4], b[5], b[6], b[7]],
        [b[8], b[9], b[10], b[11]],
        [b[12], b[13], b[14], b[15]],
    ]
}

// The state of a block that is held as four words.
pub fn load_words(w: [u32; 4]) -> State
    ensures { result ≡ state_of (bytes_of w) }
{
    [
        octets::bytes_of(w[0]),
        octets::bytes_of(w[1]),
        octets::bytes_of(w[2]),
        octets::bytes_of(w[3]),
    ]
}

// The block of a state, as four words.
pub fn store_words(s: State) -> [u32; 4]
    ensures { bytes_of result ≡ block_of s }
{
    s.map(words::number)
}
