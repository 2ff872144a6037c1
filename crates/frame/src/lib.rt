// NWK frames: reading, writing without a key, sealing and opening (Zigbee Specification 3.3.1, 4.3.1). The port of
// frame.rs.
#![tactic(auto)]

ghost use Rattle.std.specs.Prelude.{◌≡◌, ◌+◌, ◌≤◌, ◌<◌, ℕ, not, length, IfOk};
ghost use Rattle.octets.specs.Strings.{over};
ghost use Rattle.octets.specs.Refusals.{first_of, refused};
ghost use Rattle.octets.specs.Writing.{told};
ghost use Rattle.frame.specs.Reading.{told_frame, read_frame, payload_of};
ghost use Rattle.frame.specs.Writing.{length_refusals, write_frame};
ghost use Rattle.frame.specs.Security.{is_absent};

use header::auxiliary::NwkAuxHeader;
use header::control::NwkFrameType;
use header::nwk::{MAX_MAC_PAYLOAD_SIZE, NwkHeader};
use octets::refusals::Refusal;
use types::MAX_NSDU_SIZE;

pub mod law;
pub mod opening;
pub mod ranges;
pub mod sealing;
mod security;

// What a payload is: bytes that the NWK layer does not interpret, or a NWK command.
#[derive(Clone, Copy, PartialEq, Eq)]
pub enum NwkPayload {
    Opaque,
    Command,
}

// A frame as read: its two headers and how many bytes they take. The payload or ciphertext is the rest of the frame.
#[derive(Clone, Copy)]
pub struct Frame {
    pub header: NwkHeader,
    pub aux: Option<NwkAuxHeader>,
    pub length: usize,
}

// The mark of an opened frame: clear, where nothing authenticates the payload; or sealed, where CCM does.
#[derive(Clone, Copy, PartialEq, Eq)]
pub enum Mark {
    Clear,
    Sealed,
}

// A frame that was opened: its mark, the payload's length, the long address that the nonce used (none of a clear frame) and the two
// headers as read. `opening::payload` gives the payload.
#[derive(Clone, Copy)]
pub struct OpenedFrame {
    pub mark: Mark,
    pub length: usize,
    pub nonce_ieee: Option<u64>,
    pub header: NwkHeader,
    pub aux: Option<NwkAuxHeader>,
}

impl NwkPayload {
    // A payload is a command if the frame type says so, else opaque.
    pub fn of(frame_type: NwkFrameType) -> NwkPayload
        ensures { result ≡ payload_of frame_type }
    {
        match frame_type {
            NwkFrameType::Command => NwkPayload::Command,
            NwkFrameType::Data | NwkFrameType::Interpan => NwkPayload::Opaque,
        }
    }
}

// Read a frame (`EncryptedNwkFrame::from_bytes`); refusals 1 to 12.
#[tactic(auto, unfolding(crate::specs::Reading::read_frame, crate::specs::Reading::frame_by, crate::specs::Reading::frame_number, crate::specs::Reading::frame_refusal, crate::specs::Reading::frame_refused, octets::specs::Refusals::first_of, octets::specs::Refusals::unless))]
pub fn read_frame(frame: &[u8]) -> Result<Frame, Refusal>
    ensures answer { told_frame result ≡ read_frame frame.now }
    ensures within { IfOk result (λ (r : Frame). r.length ≤ length frame.now) }
    ensures sealed { IfOk result (λ (r : Frame). r.header.frame_control.security ≡ not (is_absent r.aux)) }
{
    let (header, length) = NwkHeader::deserialize(frame)?;
    let rest = &frame[length..];
    if header.frame_control.security {
        let (aux, aux_length) = NwkAuxHeader::deserialize(rest)?;
        return Ok(Frame {
            header,
            aux: Some(aux),
            length: length + aux_length,
        });
    }
    if MAX_NSDU_SIZE < rest.len() {
        return Err(Refusal::Payload);
    }
    Ok(Frame {
        header,
        aux: None,
        length,
    })
}

// The length of a frame that has n bytes of payload behind a front of so many; refusals 17 and 18.
#[tactic(auto, unfolding(crate::specs::Writing::length_refusals, octets::specs::Refusals::first_of))]
fn whole_length(front: usize, n: usize, room: usize) -> Result<usize, Refusal>
    requires { front < 4096 }
    ensures number { refused result ≡ first_of (length_refusals n (front + n) room) }
    ensures whole { IfOk result (λ (whole : ℕ). (whole ≡ front + n) × (n ≤ 108) × (whole ≤ 118) × (whole ≤ room)) }
{
    if MAX_NSDU_SIZE < n || MAX_MAC_PAYLOAD_SIZE < front + n {
        return Err(Refusal::Length);
    }
    if room < front + n {
        return Err(Refusal::NoRoom);
    }
    Ok(front + n)
}

// Write a payload from place i on, byte by byte: the compiler does not know that two lent slices are apart, and makes a call of memmove
// of a copy from one to the other, which the archive is not to ask its host for.
#[tactic(auto, using(octets::proofs::Strings::over_nil, crate::proofs::Payloads::copied))]
fn put_payload(out: &mut [u8], i: usize, payload: &[u8])
    requires { i + length payload.now ≤ length out.old }
    ensures { out.new ≡ over out.old i payload.now }
{
    for k in 0..payload.len() {
        out[i + k] = payload[k];
    }
}

// Write a frame without a key: header and payload only, and give its length; refusals 13, 28, 17 and 18, which change nothing.
#[tactic(auto, unfolding(crate::specs::Writing::write_frame, crate::specs::Writing::frame_write_refusal, crate::specs::Writing::frame_bytes, octets::specs::Writing::written, octets::specs::Refusals::first_of, octets::specs::Refusals::unless), using(octets::proofs::Strings::over_over))]
pub fn write_frame(h: NwkHeader, payload: &[u8], out: &mut [u8]) -> Result<usize, Refusal>
    ensures answer { told result ≡ (write_frame h payload.now out.old).answer }
    ensures buffer { out.new ≡ (write_frame h payload.now out.old).out }
{
    h.check_fields()?;
    let start = h.size();
    let length = whole_length(start, payload.len(), out.len())?;
    h.put(out);
    put_payload(out, start, payload);
    Ok(length)
}
