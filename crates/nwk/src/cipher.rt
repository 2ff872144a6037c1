// CCM called alone, at the level of a number, and one block of AES. Inputs and outputs of fixed length are arrays, so that no other
// length can be given.
ghost use Rattle.std.specs.Prelude.{◌≡◌};
ghost use Rattle.octets.specs.Refusals.{unless};
ghost use Rattle.types.specs.Keys.{key_bytes};
ghost use Rattle.aes.specs.Cipher.{aes128};
ghost use Rattle.types.specs.Levels.{network_level, tag_length};
ghost use Rattle.ccm.specs.Operations.{encrypt_ccm, decrypt_ccm, split_mic};
ghost use Rattle.nwk.specs.Answer.{answer, answer_by};

use crate::answer::answer;
use types::Key;
use types::level::Level;

// Seal a payload: the ciphertext goes to the front of the output, and the MIC to its own 16 places;
// refusals 29, 1 and 18.
#[tactic(auto, unfolding(octets::specs::Refusals::unless))]
pub fn nwk_encrypt_ccm(
    level: u64,
    key_first: u64,
    key_second: u64,
    nonce: &[u8; 13],
    auth: &[u8],
    payload: &[u8],
    out: &mut [u8],
    mic: &mut [u8; 16],
) -> u64
    ensures answer { result ≡ answer (encrypt_ccm (network_level level) (key_bytes key_first key_second) nonce.now auth.now payload.now out.old).answer.refusal (encrypt_ccm (network_level level) (key_bytes key_first key_second) nonce.now auth.now payload.now out.old).answer.length }
    ensures out { out.new ≡ (encrypt_ccm (network_level level) (key_bytes key_first key_second) nonce.now auth.now payload.now out.old).out }
    ensures mic { mic.new ≡ unless (encrypt_ccm (network_level level) (key_bytes key_first key_second) nonce.now auth.now payload.now out.old).answer.refusal (encrypt_ccm (network_level level) (key_bytes key_first key_second) nonce.now auth.now payload.now out.old).answer.mic mic.old }
{
    let key = Key::from_halves(key_first, key_second);
    match ccm::encrypt_ccm(Level::from(level), key.0, *nonce, auth, payload, out) {
        Ok(sealed) => {
            let tag = sealed.1;
            *mic = tag;
            answer(Ok(sealed.0))
        }
        Err(refusal) => answer(Err(refusal)),
    }
}

// Open a ciphertext with its MIC: the payload goes to the front of the output. Places past the tag are not read; refusals 29,
// 1, 18 and 19.
pub fn nwk_decrypt_ccm(
    level: u64,
    key_first: u64,
    key_second: u64,
    nonce: &[u8; 13],
    auth: &[u8],
    ciphertext: &[u8],
    mic: &[u8; 16],
    out: &mut [u8],
) -> u64
    ensures answer { result ≡ answer (decrypt_ccm (network_level level) (key_bytes key_first key_second) nonce.now auth.now ciphertext.now mic.now out.old).answer.refusal (decrypt_ccm (network_level level) (key_bytes key_first key_second) nonce.now auth.now ciphertext.now mic.now out.old).answer.length }
    ensures out { out.new ≡ (decrypt_ccm (network_level level) (key_bytes key_first key_second) nonce.now auth.now ciphertext.now mic.now out.old).out }
{
    let key = Key::from_halves(key_first, key_second);
    answer(ccm::decrypt_ccm(
        Level::from(level),
        key.0,
        *nonce,
        auth,
        ciphertext,
        *mic,
        out,
    ))
}

// Split the MIC from the end of a received ciphertext, of any length: the MIC goes to its own 16 places, the length of the
// ciphertext in front of it to a number, and the answer's length is the MIC's; refusals 29 and 16.
#[tactic(auto, unfolding(octets::specs::Refusals::unless))]
pub fn nwk_split_mic(level: u64, bytes: &[u8], mic: &mut [u8; 16], front: &mut u64) -> u64
    ensures answer { result ≡ answer_by (split_mic (network_level level) bytes.now).refusal (tag_length (network_level level)) }
    ensures mic { mic.new ≡ unless (split_mic (network_level level) bytes.now).refusal (split_mic (network_level level) bytes.now).mic mic.old }
    ensures front { front.new ≡ unless (split_mic (network_level level) bytes.now).refusal (split_mic (network_level level) bytes.now).length front.old }
{
    let network = Level::from(level);
    match ccm::split_mic(network, bytes) {
        Ok(split) => {
            let tag = split.1;
            *mic = tag;
            *front = split.0 as u64;
            answer(Ok(network.tag_length()))
        }
        Err(refusal) => answer(Err(refusal)),
    }
}

// One block of AES-128; nothing is refused.
pub fn nwk_encrypt_block(
    key_first: u64,
    key_second: u64,
    block: &[u8; 16],
    out: &mut [u8; 16],
) -> u64
    ensures answer { result ≡ answer 0 16 }
    ensures out { out.new ≡ aes128 (key_bytes key_first key_second) block.now }
{
    let key = Key::from_halves(key_first, key_second);
    let encrypted = aes::encrypt_block(key.0, *block);
    *out = encrypted;
    answer(Ok(16))
}
