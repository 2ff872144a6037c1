// AES-128, FIPS 197 section 5: the round keys of a key, and the cipher of a block under them.
#![tactic(auto)]

ghost use Rattle.std.specs.Prelude.{◌≡◌};
ghost use Rattle.octets.specs.Numbers.{bytes_of};
ghost use Rattle.aes.specs.KeyExpansion.{key_expansion};
ghost use Rattle.aes.specs.Cipher.{cipher, aes128};

mod rounds;
mod state;
mod words;

use state::State;

// The eleven round keys of a key, each four words of four bytes.
pub type RoundKeys = [State; 11];

// KeyExpansion (FIPS 197, 5.2).
#[tactic(auto, unfolding(crate::specs::KeyExpansion::words_from, crate::specs::KeyExpansion::round_keys, crate::specs::KeyExpansion::key_expansion), using(crate::proofs::Schedule::words_next, crate::proofs::Schedule::round_keys_more))]
pub fn key_expansion(key: [u8; 16]) -> RoundKeys
    ensures { result ≡ key_expansion key }
{
    let mut w = state::load(key);
    let mut keys = [w; 11];
    for n in 0..10 {
        // The prover does not cover a call's result that goes straight into an array.
        let next = words::next_round_key(w, n);
        w = next;
        keys[n + 1] = w;
    }
    keys
}

// Cipher (FIPS 197, 5.1): a block under the round keys. The block goes in as its four words, the first byte of each lowest, and comes
// out so. The rounds are written out: in a loop the compiler would carry the state byte by byte.
#[tactic(auto, unfolding(crate::specs::Cipher::rounds, crate::specs::Cipher::last_round, crate::specs::Cipher::cipher))]
pub fn cipher(keys: &RoundKeys, block: [u32; 4]) -> [u32; 4]
    ensures { bytes_of result ≡ cipher keys.now (bytes_of block) }
{
    let s0 = rounds::add_round_key(state::load_words(block), keys[0]);
    let s1 = rounds::round(s0, keys[1]);
    let s2 = rounds::round(s1, keys[2]);
    let s3 = rounds::round(s2, keys[3]);
    let s4 = rounds::round(s3, keys[4]);
    let s5 = rounds::round(s4, keys[5]);
    let s6 = rounds::round(s5, keys[6]);
    let s7 = rounds::round(s6, keys[7]);
    let s8 = rounds::round(s7, keys[8]);
    let s9 = rounds::round(s8, keys[9]);
    let s10 = rounds::last_round(s9, keys[10]);
    state::store_words(s10)
}

// AES-128: a block under a key.
#[tactic(auto, unfolding(crate::specs::Cipher::aes128))]
pub fn encrypt_block(key: [u8; 16], block: [u8; 16]) -> [u8; 16]
    ensures { result ≡ aes128 key block }
{
    let keys = key_expansion(key);
    octets::block_bytes(cipher(&keys, octets::block_words(block)))
}
