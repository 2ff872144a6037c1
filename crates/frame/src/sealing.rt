// Sealing a frame (Zigbee Specification 4.3.1.1).
ghost use Rattle.std.specs.Prelude.{◌≡◌, false, ◌++◌, ◌+◌, ◌≤◌, length, IfOk, Some};
ghost use Rattle.octets.specs.Strings.{over};
ghost use Rattle.octets.specs.Refusals.{refused};
ghost use Rattle.header.specs.Writing.{bad_header};
ghost use Rattle.types.specs.Levels.{tag_length};
ghost use Rattle.ccm.specs.Operations.{sealed_by};
ghost use Rattle.frame.specs.Sealing.{sealed_length, sealed_bytes, headers_refusal, told_sealed, seal_frame};

use crate::security::Headers;
use crate::{security, whole_length};
use header::auxiliary::{NwkAuxHeader, NwkSecurityLevel};
use header::nwk::NwkHeader;
use octets::refusals::Refusal;
use types::Key;
use types::level::Level;

// The two headers; refusals 13, 28, 14, 28 and 15. The first 28 is for the header's bits, bit 9 among them, the second for the extended
// nonce bit.
#[tactic(auto, unfolding(crate::specs::Sealing::headers_refusal, octets::specs::Refusals::first_of, octets::specs::Refusals::unless))]
fn check_headers(h: NwkHeader, aux: Option<NwkAuxHeader>) -> Result<Headers, Refusal>
    ensures number { refused result ≡ headers_refusal h aux }
    ensures headers { IfOk result (λ (r : Headers). (r.header ≡ h) × (aux ≡ Some r.aux) × (bad_header h ≡ false)) }
{
    h.check_fields()?;
    if !h.frame_control.security {
        return Err(Refusal::PresenceBits);
    }
    let aux = aux.ok_or(Refusal::NoAuxiliary)?;
    if !aux.agrees() {
        return Err(Refusal::PresenceBits);
    }
    let headers = Headers { header: h, aux };
    if headers.nonce_ieee().is_none() {
        return Err(Refusal::NoIeee);
    }
    Ok(headers)
}

// Write ciphertext and MIC at the place start.
fn put_sealed(
    level: Level,
    key: [u8; 16],
    nonce: [u8; 13],
    auth: &[u8],
    payload: &[u8],
    out: &mut [u8],
    start: usize,
)
    requires { (2 ≤ tag_length level) × (length auth.now ≤ 127) × (length payload.now ≤ 127) × (start + length payload.now + tag_length level ≤ length out.old) }
    ensures { out.new ≡ over out.old start ((sealed_by (tag_length level) key nonce auth.now payload.now).ciphertext ++ (sealed_by (tag_length level) key nonce auth.now payload.now).tag) }
{
    let mic = ccm::seal(level, key, nonce, auth, payload, &mut out[start..]);
    octets::copy_at(out, start + payload.len(), &mic[..level.tag_length()]);
}

// Seal a frame that meets no refusal.
#[tactic(auto, unfolding(crate::specs::Sealing::sealed_length, crate::specs::Sealing::sealed_bytes, crate::specs::Sealing::generated), using(crate::proofs::Levels::level_length, crate::proofs::Levels::auth_length, octets::proofs::Strings::over_over, octets::proofs::Strings::take_over))]
fn seal_frame(level: Level, key: Key, headers: Headers, payload: &[u8], out: &mut [u8])
    requires { (2 ≤ tag_length level) × (bad_header headers.header ≡ false) × (length payload.now ≤ 108) × (sealed_length level headers.header headers.aux (length payload.now) ≤ 118) × (sealed_length level headers.header headers.aux (length payload.now) ≤ length out.old) }
    ensures { out.new ≡ over out.old 0 (sealed_bytes level key.0 headers.header headers.aux payload.now) }
{
    let header = headers.header.size();
    headers.header.put(out);
    let auth = headers.authenticated(level, &out[..header]);
    security::at_level(headers.aux, NwkSecurityLevel::NoSecurity).put(out, header);
    let start = headers.size();
    put_sealed(
        level,
        key.0,
        headers.nonce(level),
        &auth[..start],
        payload,
        out,
        start,
    );
}

// Seal a frame (`NwkFrame::serialize` with a key), and give its length; refusals 29, 13, 28, 14, 28, 15, 21, 17 and 18, which
// change nothing.
#[tactic(auto, unfolding(crate::specs::Sealing::seal_frame, crate::specs::Sealing::seal_by, crate::specs::Sealing::seal_refusal, crate::specs::Sealing::seal_refusals, crate::specs::Sealing::seal_refused, crate::specs::Sealing::sealed_length, octets::specs::Refusals::first_of, octets::specs::Refusals::unless), using(types::proofs::Levels::tag_least, crate::proofs::FirstHalf::sealed_length_lem))]
pub fn seal(
    level: Level,
    key: Key,
    h: NwkHeader,
    aux: Option<NwkAuxHeader>,
    payload: &[u8],
    out: &mut [u8],
) -> Result<usize, Refusal>
    ensures answer { told_sealed result ≡ (seal_frame level key.0 h aux payload.now out.old).answer }
    ensures buffer { out.new ≡ (seal_frame level key.0 h aux payload.now out.old).out }
{
    if level.is_other() {
        return Err(Refusal::Level);
    }
    let headers = check_headers(h, aux)?;
    if headers.aux.frame_counter == types::LAST_COUNTER {
        return Err(Refusal::LastCounter);
    }
    let front = headers.size() + level.tag_length();
    let length = whole_length(front, payload.len(), out.len())?;
    seal_frame(level, key, headers, payload, out);
    Ok(length)
}
