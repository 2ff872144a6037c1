// SP 800-38C, 6.1, steps 1 to 4: the CBC-MAC, and the tag that it gives or checks.

ghost use Rattle.std.specs.Prelude.{◌≡◌, ◌+◌, ◌*◌, ◌≤◌, ◌<◌, length, take};
ghost use Rattle.octets.specs.Strings.{xored};
ghost use Rattle.octets.specs.Numbers.{bytes_of};
ghost use Rattle.aes.specs.Cipher.{cipher};
ghost use Rattle.ccm.specs.Formatting.{block_at};
ghost use Rattle.ccm.specs.Mac.{chain, mac_chain};
ghost use Rattle.ccm.specs.Generation.{encrypted_tag};
ghost use Rattle.ccm.specs.Verification.{same_bytes, tag_valid};
ghost use Rattle.ccm.specs.Operations.{in_places};

use crate::counter;
use crate::formatting::{InputData, block_at};
use aes::RoundKeys;

// Y_i of B_i and Y_(i - 1): the cipher of their exclusive or.
#[tactic(auto, using(crate::proofs::Streams::xored_words))]
fn chained(keys: &RoundKeys, b: [u32; 4], y: [u32; 4]) -> [u32; 4]
    ensures { bytes_of result ≡ cipher keys.now (xored 16 (bytes_of b) (bytes_of y)) }
{
    aes::cipher(keys, [b[0] ^ y[0], b[1] ^ y[1], b[2] ^ y[2], b[3] ^ y[3]])
}

// Y_last: the chain over the blocks of the input, from the first to the one whose number is given.
#[tactic(auto, unfolding(crate::specs::Mac::chain), using(crate::proofs::Chains::chain_next))]
fn chain_over(keys: &RoundKeys, formatted: &[u8], last: usize) -> [u32; 4]
    requires { (last < 65535) × (last * 16 + 16 ≤ length formatted.now) }
    ensures { bytes_of result ≡ (chain (cipher keys.now) (block_at formatted.now) last).block }
{
    let mut y = aes::cipher(keys, block_at(formatted, 0));
    for i in 0..last {
        // The prover does not cover a call's result that goes straight into an array.
        let next = chained(keys, block_at(formatted, i + 1), y);
        y = next;
    }
    y
}

// Y_r: the chain over the whole formatted input.
#[tactic(auto, unfolding(crate::specs::Mac::mac_chain), using(crate::proofs::Chains::chain_same))]
pub fn cbc_mac(keys: &RoundKeys, input: &InputData) -> [u32; 4]
    ensures { bytes_of result ≡ (mac_chain input.now.t (cipher keys.now) input.now.nonce input.now.auth.now input.now.payload.now).block }
{
    chain_over(keys, &input.formatted_input(), input.last_block())
}

// The tag of the payload, t bytes masked by S_0, at the front of 16 places; the rest are 0.
#[tactic(auto, unfolding(crate::specs::Mac::mac, crate::specs::Generation::encrypted_tag, crate::specs::Operations::in_places))]
pub fn encrypted_tag(keys: &RoundKeys, input: &InputData) -> [u8; 16]
    ensures { result ≡ in_places (encrypted_tag input.now.t (cipher keys.now) input.now.nonce input.now.auth.now input.now.payload.now) }
{
    let y = octets::block_bytes(cbc_mac(keys, input));
    let s = counter::key_block(keys, input.nonce, 0);
    let mut tag = [0u8; 16];
    counter::mask(&y[..input.t], &s, &mut tag);
    tag
}

// Whether the first n bytes are the same. Every byte is read, and there is no branch on one.
#[tactic(auto, unfolding(crate::specs::Verification::same_bytes), using(crate::proofs::Tags::same_next))]
fn same_bytes(u: &[u8], v: &[u8], n: usize) -> bool
    ensures { result ≡ same_bytes n u.now v.now }
{
    let mut same = true;
    for i in 0..n {
        same &= octets::byte_at(u, i) == octets::byte_at(v, i);
    }
    same
}

// Whether the MIC is the tag of the payload in its first t places. The other places are not read.
#[tactic(auto, unfolding(crate::specs::Generation::encrypted_tag, crate::specs::Verification::tag_valid), using(crate::proofs::Opening::same_masked, crate::proofs::Tags::same_places, octets::proofs::Xor::length_xored))]
pub fn tag_valid(keys: &RoundKeys, input: &InputData, mic: [u8; 16]) -> bool
    ensures { result ≡ tag_valid input.now.t (cipher keys.now) input.now.nonce input.now.auth.now input.now.payload.now (take input.now.t mic) }
{
    let tag = encrypted_tag(keys, input);
    same_bytes(&tag, &mic, input.t)
}
