// Words of four bytes, and the words of the key schedule (FIPS 197, 5.2).
#![tactic(auto, unfolding(crate::specs::State::four, crate::specs::Words::xor_word, crate::specs::Words::sub_word, crate::specs::Words::rot_word))]

ghost use Rattle.std.specs.Prelude.{◌≡◌, ◌+◌, ◌*◌, ◌≤◌, ◌<◌};
ghost use Rattle.octets.specs.Numbers.{le};
ghost use Rattle.aes.specs.State.{byte, four};
ghost use Rattle.aes.specs.Words.{xor_word, sub_word, rot_word, rcon};
ghost use Rattle.aes.specs.KeyExpansion.{next_word};

use crate::state::State;

// The exclusive or of two words.
pub fn xor_word(a: [u8; 4], b: [u8; 4]) -> [u8; 4]
    ensures { result ≡ xor_word a b }
{
    [a[0] ^ b[0], a[1] ^ b[1], a[2] ^ b[2], a[3] ^ b[3]]
}

// SubWord: the S-box at each byte of a word.
pub fn sub_word(w: [u8; 4]) -> [u8; 4]
    ensures { result ≡ sub_word w }
{
    w.map(field::substitute)
}

// RotWord: a word with its first byte put last.
pub fn rot_word(w: [u8; 4]) -> [u8; 4]
    ensures { result ≡ rot_word w }
{
    [w[1], w[2], w[3], w[0]]
}

// A word as one number, its first byte lowest.
pub fn number(w: [u8; 4]) -> u32
    ensures { le 4 result ≡ four (byte w) }
{
    octets::word_of(w[0], w[1], w[2], w[3])
}

// The powers of x with which Rcon[1] to Rcon[10] begin (FIPS 197, 5.2).
static POWERS_OF_X: [u8; 10] = [0x01, 0x02, 0x04, 0x08, 0x10, 0x20, 0x40, 0x80, 0x1b, 0x36];

// Rcon[i], a round constant (FIPS 197, 5.2).
fn round_constant(i: usize) -> [u8; 4]
    requires { (0 < i) × (i ≤ 10) }
    ensures { result ≡ rcon i }
{
    [POWERS_OF_X[i - 1], 0, 0, 0]
}

// The body of KeyExpansion's loop for four words: the round key n + 1 of the round key n (FIPS 197, 5.2).
#[tactic(auto, using(crate::proofs::Schedule::next_four), unfolding(crate::proofs::Schedule::following))]
pub fn next_round_key(w: State, n: usize) -> State
    requires { n < 10 }
    ensures { result ≡ next_word (4 * n + 3) (next_word (4 * n + 2) (next_word (4 * n + 1) (next_word (4 * n) w))) }
{
    let temp = xor_word(sub_word(rot_word(w[3])), round_constant(n + 1));
    let w4 = xor_word(w[0], temp);
    let w5 = xor_word(w[1], w4);
    let w6 = xor_word(w[2], w5);
    let w7 = xor_word(w[3], w6);
    [w4, w5, w6, w7]
}
