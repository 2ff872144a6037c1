// A round of the cipher (FIPS 197, 5.1): what SubBytes and MixColumns make of a column is looked up in the table of the rounds.
#![tactic(auto, unfolding(crate::specs::State::four, crate::specs::State::state, crate::specs::Words::xor_word, crate::specs::Words::sub_word, crate::specs::Rounds::sub_bytes, crate::specs::Rounds::shift_rows, crate::specs::Rounds::mix_columns, crate::specs::Rounds::add_round_key))]

ghost use Rattle.std.specs.Prelude.{◌≡◌};
ghost use Rattle.aes.specs.Words.{xor_word, sub_word};
ghost use Rattle.aes.specs.Rounds.{sub_bytes, shift_rows, mix_column, mix_columns, add_round_key};

use crate::state::State;
use crate::words;

// SubBytes (FIPS 197, 5.1.1).
fn sub_bytes(s: State) -> State
    ensures { result ≡ sub_bytes s }
{
    [
        words::sub_word(s[0]),
        words::sub_word(s[1]),
        words::sub_word(s[2]),
        words::sub_word(s[3]),
    ]
}

// ShiftRows (FIPS 197, 5.1.2): row r comes from r columns further to the right.
fn shift_rows(s: State) -> State
    ensures { result ≡ shift_rows s }
{
    [
        [s[0][0], s[1][1], s[2][2], s[3][3]],
        [s[1][0], s[2][1], s[3][2], s[0][3]],
        [s[2][0], s[3][1], s[0][2], s[1][3]],
        [s[3][0], s[0][1], s[1][2], s[2][3]],
    ]
}

// The bytes of a column substituted, then mixed (FIPS 197, 5.1.3), with the round key's word added.
#[tactic(auto, unfolding(crate::specs::State::four, crate::specs::Words::sub_word), using(crate::proofs::Columns::le_xor_word, crate::proofs::Columns::mixed, crate::proofs::Columns::same_word, field::proofs::Bytes::sbox_byte))]
fn column(a: [u8; 4], k: [u8; 4]) -> [u8; 4]
    ensures { result ≡ xor_word (mix_column (sub_word a)) k }
{
    let behind = field::turned(a[2], 2) ^ field::turned(a[3], 1);
    let mixed = field::entry(a[0]) ^ (field::turned(a[1], 3) ^ behind);
    octets::bytes_of(mixed ^ words::number(k))
}

// AddRoundKey (FIPS 197, 5.1.4).
pub fn add_round_key(s: State, k: State) -> State
    ensures { result ≡ add_round_key s k }
{
    [
        words::xor_word(s[0], k[0]),
        words::xor_word(s[1], k[1]),
        words::xor_word(s[2], k[2]),
        words::xor_word(s[3], k[3]),
    ]
}

// A round but the last (FIPS 197, 5.1). The rows are shifted before their bytes are substituted, which gives the same.
pub fn round(s: State, k: State) -> State
    ensures { result ≡ add_round_key (mix_columns (shift_rows (sub_bytes s))) k }
{
    let rows = shift_rows(s);
    [
        column(rows[0], k[0]),
        column(rows[1], k[1]),
        column(rows[2], k[2]),
        column(rows[3], k[3]),
    ]
}

// The last round, which leaves the columns unmixed (FIPS 197, 5.1).
pub fn last_round(s: State, k: State) -> State
    ensures { result ≡ add_round_key (shift_rows (sub_bytes s)) k }
{
    add_round_key(shift_rows(sub_bytes(s)), k)
}
