// CCM (SP 800-38C) with AES-128, a 13-byte nonce and the tag of the network's level: sealing, opening, and the splitting of a MIC
// from its ciphertext. The port of crypto.rs.
#![tactic(auto)]

ghost use Rattle.std.specs.Prelude.{◌≡◌, ◌≤◌, length, take, drop};
ghost use Rattle.octets.specs.Strings.{over};
ghost use Rattle.octets.specs.Refusals.{refused};
ghost use Rattle.octets.specs.Writing.{told};
ghost use Rattle.types.specs.Levels.{tag_length};
ghost use Rattle.ccm.specs.Operations.{in_places, sealed_by, opened_under, expanded, seal_refusal, told_sealed, encrypt_ccm, given_if, decrypt_ccm, split_refusal, told_split, split_mic};

use formatting::InputData;
use octets::refusals::Refusal;
use types::level::Level;

mod counter;
mod formatting;
mod mac;

pub use aes::RoundKeys;

// The most bytes of authenticated data, and of payload, that a call takes.
pub const MAX_LENGTH: usize = 127;

// The refusals of a call with a bytes of authenticated data and n of payload or ciphertext.
#[tactic(auto, unfolding(crate::specs::Operations::seal_refusal, octets::specs::Refusals::first_of))]
fn check(level: Level, a: usize, n: usize, room: usize) -> Result<(), Refusal>
    ensures { refused result ≡ seal_refusal level a n room }
{
    let too_long = MAX_LENGTH < a || MAX_LENGTH < n;
    if level.is_other() {
        return Err(Refusal::Level);
    }
    if too_long {
        return Err(Refusal::TooLong);
    }
    if room < n {
        return Err(Refusal::NoRoom);
    }
    Ok(())
}

// The round keys of a key, for a caller that opens more than once under it.
#[tactic(auto, unfolding(crate::specs::Operations::expanded))]
pub fn expand(key: [u8; 16]) -> RoundKeys
    ensures { result ≡ expanded key }
{
    aes::key_expansion(key)
}

// Generation-encryption (SP 800-38C, 6.1), for a caller that has checked level and lengths: the ciphertext goes to the front of
// the output, the MIC is given in 16 places.
#[tactic(auto, unfolding(crate::specs::Generation::generation_encryption), using(crate::proofs::RoundKeys::cipher_is))]
pub fn seal(
    level: Level,
    key: [u8; 16],
    nonce: [u8; 13],
    auth: &[u8],
    payload: &[u8],
    out: &mut [u8],
) -> [u8; 16]
    requires { (2 ≤ tag_length level) × (length auth.now ≤ 127) × (length payload.now ≤ 127) × (length payload.now ≤ length out.old) }
    ensures mic { result ≡ in_places (sealed_by (tag_length level) key nonce auth.now payload.now).tag }
    ensures buffer { out.new ≡ over out.old 0 (sealed_by (tag_length level) key nonce auth.now payload.now).ciphertext }
{
    let keys = expand(key);
    counter::counter_mode(&keys, nonce, payload, out);
    let input = InputData {
        t: level.tag_length(),
        nonce,
        auth,
        payload,
    };
    mac::encrypted_tag(&keys, &input)
}

// Decryption-verification (SP 800-38C, 6.2) under any round keys, for a caller that has checked level and lengths: whether the
// MIC is the one computed; only then the payload goes to the front of the output.
#[tactic(auto, unfolding(crate::specs::Verification::decryption_verification, crate::specs::Operations::given_if), using(crate::proofs::Streams::mode_taken))]
pub fn open_under(
    level: Level,
    keys: &RoundKeys,
    nonce: [u8; 13],
    auth: &[u8],
    ciphertext: &[u8],
    mic: [u8; 16],
    out: &mut [u8],
) -> bool
    requires { (2 ≤ tag_length level) × (length auth.now ≤ 127) × (length ciphertext.now ≤ 127) × (length ciphertext.now ≤ length out.old) }
    ensures valid { result ≡ (opened_under (tag_length level) keys.now nonce auth.now ciphertext.now (take (tag_length level) mic)).valid }
    ensures buffer { out.new ≡ given_if result (opened_under (tag_length level) keys.now nonce auth.now ciphertext.now (take (tag_length level) mic)) out.old }
{
    let n = ciphertext.len();
    let mut payload = [0u8; MAX_LENGTH];
    counter::counter_mode(keys, nonce, ciphertext, &mut payload);
    let input = InputData {
        t: level.tag_length(),
        nonce,
        auth,
        payload: &payload[..n],
    };
    let valid = mac::tag_valid(keys, &input, mic);
    if valid {
        octets::copy_at(out, 0, &payload[..n]);
    }
    valid
}

// Seals a payload: refusals 29, 1 and 18, else the ciphertext in the output, given by its length, and the MIC, at the front of 16 places
// of which the rest are 0.
#[tactic(auto, unfolding(crate::specs::Operations::encrypt_ccm, octets::specs::Refusals::unless), using(crate::proofs::Runs::within, crate::proofs::Opening::length_ciphertext))]
pub fn encrypt_ccm(
    level: Level,
    key: [u8; 16],
    nonce: [u8; 13],
    auth: &[u8],
    payload: &[u8],
    out: &mut [u8],
) -> Result<(usize, [u8; 16]), Refusal>
    ensures answer { told_sealed result ≡ (encrypt_ccm level key nonce auth.now payload.now out.old).answer }
    ensures buffer { out.new ≡ (encrypt_ccm level key nonce auth.now payload.now out.old).out }
{
    check(level, auth.len(), payload.len(), out.len())?;
    let mic = seal(level, key, nonce, auth, payload, out);
    Ok((payload.len(), mic))
}

// Opens a ciphertext with its MIC: refusals 29, 1, 18 and 19, else the payload in the output, given by its length.
#[tactic(auto, unfolding(crate::specs::Operations::decrypt_ccm, crate::specs::Operations::open_refusal, crate::specs::Operations::given_if, octets::specs::Writing::written, octets::specs::Refusals::first_of, octets::specs::Refusals::unless), using(crate::proofs::Runs::within, crate::proofs::RoundKeys::opened_under_lem, crate::proofs::Opening::length_payload))]
pub fn decrypt_ccm(
    level: Level,
    key: [u8; 16],
    nonce: [u8; 13],
    auth: &[u8],
    ciphertext: &[u8],
    mic: [u8; 16],
    out: &mut [u8],
) -> Result<usize, Refusal>
    ensures answer { told result ≡ (decrypt_ccm level key nonce auth.now ciphertext.now mic out.old).answer }
    ensures buffer { out.new ≡ (decrypt_ccm level key nonce auth.now ciphertext.now mic out.old).out }
{
    check(level, auth.len(), ciphertext.len(), out.len())?;
    let keys = expand(key);
    if !open_under(level, &keys, nonce, auth, ciphertext, mic, out) {
        return Err(Refusal::WrongMic);
    }
    Ok(ciphertext.len())
}

// The refusals of splitting n bytes.
#[tactic(auto, unfolding(crate::specs::Operations::split_refusal, octets::specs::Refusals::first_of))]
fn check_split(level: Level, n: usize) -> Result<(), Refusal>
    ensures { refused result ≡ split_refusal level n }
{
    if level.is_other() {
        return Err(Refusal::Level);
    }
    if n < level.tag_length() {
        return Err(Refusal::NoMic);
    }
    Ok(())
}

// The bytes from place n on, at the front of 16 places; the rest are 0.
#[tactic(auto, unfolding(crate::specs::Operations::in_places))]
fn places_from(s: &[u8], n: usize) -> [u8; 16]
    requires { (n ≤ length s.now) × (length (drop n s.now) ≤ 16) }
    ensures { result ≡ in_places (drop n s.now) }
{
    let mut places = [0u8; 16];
    octets::copy_at(&mut places, 0, &s[n..]);
    places
}

// Splits a received ciphertext into the encrypted payload, given by its length, and the MIC that ends it, in 16 places likewise: refusals 29,
// and 16 where there are fewer bytes than the tag.
#[tactic(auto, unfolding(crate::specs::Operations::split_mic, octets::specs::Refusals::unless), using(crate::proofs::Runs::split_tagged))]
pub fn split_mic(level: Level, s: &[u8]) -> Result<(usize, [u8; 16]), Refusal>
    ensures { told_split result ≡ split_mic level s.now }
{
    check_split(level, s.len())?;
    let n = s.len() - level.tag_length();
    Ok((n, places_from(s, n)))
}
