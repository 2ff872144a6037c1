// SP 800-38C, A.3 and 6.1, steps 5 to 8: counter blocks, key stream and counter mode.
#![tactic(auto, unfolding(crate::specs::Counters::counter_block, crate::specs::Counters::key_block))]

ghost use Rattle.std.specs.Prelude.{◌≡◌, ◌*◌, ◌≤◌, length, take};
ghost use Rattle.octets.specs.Strings.{over, xored};
ghost use Rattle.octets.specs.Numbers.{bytes_of};
ghost use Rattle.aes.specs.Cipher.{cipher};
ghost use Rattle.ccm.specs.Counters.{counter_block, key_block, key_stream, counter_mode};

use crate::formatting;
use aes::RoundKeys;

// A.3: Ctr_i.
fn counter_block(nonce: [u8; 13], i: usize) -> [u32; 4]
    ensures { bytes_of result ≡ counter_block nonce i }
{
    formatting::with_nonce(1, nonce, i)
}

// S_i, the cipher of Ctr_i.
pub fn key_block(keys: &RoundKeys, nonce: [u8; 13], i: usize) -> [u8; 16]
    ensures { result ≡ key_block (cipher keys.now) nonce i }
{
    octets::block_bytes(aes::cipher(keys, counter_block(nonce, i)))
}

// S_1 to S_m, one behind the other.
#[tactic(auto, unfolding(crate::specs::Counters::key_stream), using(crate::proofs::Streams::stream_more, crate::proofs::Streams::stream_taken, aes::proofs::Block::length_cipher, octets::proofs::Strings::over_nil))]
fn key_stream(keys: &RoundKeys, nonce: [u8; 13], m: usize) -> [u8; 128]
    requires { m ≤ 8 }
    ensures { take (m * 16) result ≡ (key_stream (cipher keys.now) nonce m).bytes }
{
    let mut stream = [0u8; 128];
    for i in 0..m {
        let block = key_block(keys, nonce, i + 1);
        octets::copy_at(&mut stream, i * 16, &block);
    }
    stream
}

// The bytes d, each exclusive or the byte of s at its place, at the front of the output.
#[tactic(auto, unfolding(octets::specs::Strings::tab, octets::specs::Strings::xored), using(crate::proofs::Streams::mask_more, crate::proofs::Streams::masked_all))]
pub fn mask(d: &[u8], s: &[u8], out: &mut [u8])
    requires { (length d.now ≤ length s.now) × (length d.now ≤ length out.old) }
    ensures { out.new ≡ over out.old 0 (xored (length d.now) d.now s.now) }
{
    for i in 0..d.len() {
        out[i] = d[i] ^ s[i];
    }
}

// The bytes d, exclusive or as many of the key stream, at the front of the output.
#[tactic(auto, using(crate::proofs::Streams::mode_by, aes::proofs::Block::length_cipher))]
pub fn counter_mode(keys: &RoundKeys, nonce: [u8; 13], d: &[u8], out: &mut [u8])
    requires { (length d.now ≤ 127) × (length d.now ≤ length out.old) }
    ensures { out.new ≡ over out.old 0 (counter_mode (cipher keys.now) nonce d.now) }
{
    let stream = key_stream(keys, nonce, formatting::blocks_of(d.len()));
    mask(d, &stream, out);
}
