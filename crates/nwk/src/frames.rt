// Reading, writing, sealing and opening frames, one or a burst of them, and what a payload is.
ghost use Rattle.std.specs.Prelude.{◌≡◌, ◌≤◌, length, IfOk, Ok, Some};
ghost use Rattle.octets.specs.Refusals.{refused};
ghost use Rattle.octets.specs.Writing.{told};
ghost use Rattle.types.specs.Keys.{key_bytes};
ghost use Rattle.types.specs.Levels.{network_level};
ghost use Rattle.frame.specs.Opening.{marked, told_opened, open_frame};
ghost use Rattle.frame.specs.Reading.{read_frame};
ghost use Rattle.frame.specs.Writing.{frame_bytes};
ghost use Rattle.records.specs.HeaderRecord.{header_of};
ghost use Rattle.burst.specs.Burst.{open_burst};
ghost use Rattle.nwk.specs.Answer.{answer, told_by, opened_answer};
ghost use Rattle.nwk.specs.Frames.{read_frame_refusal, write_frame_refusal, seal_records_refusal, sealed_records, open_record_refusal, read_frame_answer, read_frame_header, read_frame_auxiliary, write_frame_answer, write_frame_output, seal_answer, seal_output, open_answer, open_record, open_output, payload_kind_answer, place_of, payload_place};

use crate::answer::answer;
use frame::{Mark, NwkPayload, OpenedFrame};
use header::control::NwkFrameType;
use header::nwk::MAX_MAC_PAYLOAD_SIZE;
use octets::refusals::Refusal;
use records::{auxiliary_record, header_record, opened_record};
use types::Key;
use types::level::Level;

// Read a frame into a header record and an auxiliary record, and give how many bytes the two headers take.
#[tactic(auto, unfolding(octets::specs::Refusals::unless, octets::specs::Refusals::first_of, crate::specs::Frames::read_frame_refusal, frame::specs::Reading::frame_refused))]
fn read_frame(bytes: &[u8], header: &mut [u8], auxiliary: &mut [u8]) -> Result<usize, Refusal>
    ensures answer { told result ≡ told_by (read_frame_refusal bytes.now (length header.old) (length auxiliary.old)) (read_frame bytes.now).length }
    ensures header { header.new ≡ read_frame_header bytes.now header.old auxiliary.old }
    ensures auxiliary { auxiliary.new ≡ read_frame_auxiliary bytes.now header.old auxiliary.old }
{
    let frame = frame::read_frame(bytes)?;
    if header.len() < header_record::HEADER_RECORD_SIZE
        || auxiliary.len() < auxiliary_record::AUX_RECORD_SIZE
    {
        return Err(Refusal::NoRoom);
    }
    header_record::put_header(header, frame.header);
    opened_record::put_option(auxiliary, frame.aux);
    Ok(frame.length)
}

// Read a frame into a header record and an auxiliary record, and give how many bytes the two headers take; the payload
// or ciphertext is the rest of the frame. Refusals 1 to 12 and 18.
#[tactic(auto, using(crate::proofs::Calls::told_answer))]
pub fn nwk_read_frame(bytes: &[u8], header: &mut [u8], auxiliary: &mut [u8]) -> u64
    ensures answer { result ≡ read_frame_answer bytes.now header.old auxiliary.old }
    ensures header { header.new ≡ read_frame_header bytes.now header.old auxiliary.old }
    ensures auxiliary { auxiliary.new ≡ read_frame_auxiliary bytes.now header.old auxiliary.old }
{
    answer(read_frame(bytes, header, auxiliary))
}

// Write a frame without a key, and give its length.
#[tactic(auto, unfolding(octets::specs::Refusals::unless, octets::specs::Refusals::first_of, octets::specs::Writing::written, crate::specs::Frames::write_frame_refusal, frame::specs::Writing::write_frame), using(records::proofs::RecordBack::header_tests))]
fn write_frame(header: &[u8], payload: &[u8], out: &mut [u8]) -> Result<usize, Refusal>
    ensures answer { told result ≡ told_by (write_frame_refusal header.now (length payload.now) (length out.old)) (length (frame_bytes (header_of header.now) payload.now)) }
    ensures out { out.new ≡ write_frame_output header.now payload.now out.old }
{
    if header_record::is_bad(header) {
        return Err(Refusal::Field);
    }
    frame::write_frame(header_record::header_of(header), payload, out)
}

// Write a frame without a key, the header of a record and the payload, to the front of the output; refusals 13, 28,
// 17 and 18.
#[tactic(auto, using(crate::proofs::Calls::told_answer))]
pub fn nwk_write_frame(header: &[u8], payload: &[u8], out: &mut [u8]) -> u64
    ensures answer { result ≡ write_frame_answer header.now payload.now out.old }
    ensures out { out.new ≡ write_frame_output header.now payload.now out.old }
{
    answer(write_frame(header, payload, out))
}

// Seal a frame from the headers of two records and the payload, and give its length.
#[tactic(auto, unfolding(octets::specs::Refusals::unless, octets::specs::Refusals::first_of, crate::specs::Frames::seal_records_refusal, crate::specs::Frames::sealed_records, frame::specs::Sealing::seal_by, frame::specs::Sealing::seal_refused, frame::specs::Sealing::seal_frame), using(records::proofs::RecordBack::header_tests))]
fn seal(
    level: Level,
    key: Key,
    header: &[u8],
    auxiliary: &[u8],
    payload: &[u8],
    out: &mut [u8],
) -> Result<usize, Refusal>
    ensures answer { told result ≡ told_by (seal_records_refusal level header.now auxiliary.now (length payload.now) (length out.old)) (length (sealed_records level key.0 header.now auxiliary.now payload.now)) }
    ensures out { out.new ≡ seal_output level key.0 header.now auxiliary.now payload.now out.old }
{
    if level.is_other() {
        return Err(Refusal::Level);
    }
    if header_record::is_bad(header) || auxiliary_record::is_bad(auxiliary) {
        return Err(Refusal::Field);
    }
    frame::sealing::seal(
        level,
        key,
        header_record::header_of(header),
        opened_record::option_of(auxiliary),
        payload,
        out,
    )
}

// Seal a frame from the headers of two records and the payload, to the front of the output; refusals 29, 13,
// 28, 14, 28, 15, 21, 17 and 18.
#[tactic(auto, using(crate::proofs::Calls::told_answer))]
pub fn nwk_seal(
    level: u64,
    key_first: u64,
    key_second: u64,
    header: &[u8],
    auxiliary: &[u8],
    payload: &[u8],
    out: &mut [u8],
) -> u64
    ensures answer { result ≡ seal_answer (network_level level) (key_bytes key_first key_second) header.now auxiliary.now payload.now out.old }
    ensures out { out.new ≡ seal_output (network_level level) (key_bytes key_first key_second) header.now auxiliary.now payload.now out.old }
{
    let key = Key::from_halves(key_first, key_second);
    answer(seal(Level::from(level), key, header, auxiliary, payload, out))
}

// Open a frame, and put the answer with both headers into the opened record.
fn open(
    level: Level,
    key: Key,
    bytes: &[u8],
    opened: &mut [u8],
    out: &mut [u8],
) -> Result<OpenedFrame, Refusal>
    ensures number { refused result ≡ open_record_refusal level key.0 bytes.now (length opened.old) (length out.old) }
    ensures answer { IfOk result (λ (r : OpenedFrame). told_opened (Ok r) ≡ (open_frame level key.0 bytes.now out.old).answer) }
    ensures opened { opened.new ≡ open_record level key.0 bytes.now opened.old out.old }
    ensures out { out.new ≡ open_output level key.0 bytes.now opened.old out.old }
{
    if opened.len() < opened_record::OPENED_RECORD_SIZE {
        frame::opening::check_open(level, bytes, out.len())?;
        return Err(Refusal::NoRoom);
    }
    let given = frame::opening::open(level, key, bytes, out)?;
    opened_record::put_opened(opened, Ok(given));
    Ok(given)
}

// Open a frame: the answer with both headers goes to the opened record. A sealed frame's payload goes to the front of the
// output; a clear one's stays in the frame, and the output is not touched. Refusals 29, 1 to 12, 18 for the record, and of a
// sealed frame 15, 16, 18 and 19.
#[tactic(auto, unfolding(octets::specs::Refusals::unless))]
pub fn nwk_open(
    level: u64,
    key_first: u64,
    key_second: u64,
    bytes: &[u8],
    opened: &mut [u8],
    out: &mut [u8],
) -> u64
    ensures answer { result ≡ open_answer (network_level level) (key_bytes key_first key_second) bytes.now opened.old out.old }
    ensures opened { opened.new ≡ open_record (network_level level) (key_bytes key_first key_second) bytes.now opened.old out.old }
    ensures out { out.new ≡ open_output (network_level level) (key_bytes key_first key_second) bytes.now opened.old out.old }
{
    let key = Key::from_halves(key_first, key_second);
    match open(Level::from(level), key, bytes, opened, out) {
        Ok(given) => opened_answer(given.mark, given.length),
        Err(refusal) => answer(Err(refusal)),
    }
}

// The answer of an opened frame: its payload's length, and bit 40 set if it was clear.
#[tactic(auto, unfolding(crate::specs::Answer::opened_answer))]
fn opened_answer(mark: Mark, length: usize) -> u64
    ensures { result ≡ opened_answer (marked (Some mark)) length }
{
    let clear = match mark {
        Mark::Clear => 0x100_0000_0000,
        Mark::Sealed => 0,
    };
    length as u64 % 0x1_0000_0000 + clear
}

// Open a burst: frames end to end, as long as the lengths say, at one level and under one key. Frame k goes to the 108 bytes of the
// output from 108 × k, and its answer to place k of the answers; the length is the number of frames. Refusal 20, and 29 as each
// frame's answer.
pub fn nwk_open_burst(
    level: u64,
    key_first: u64,
    key_second: u64,
    frames: &[u8],
    lengths: &[u16],
    answers: &mut [[u8; 182]],
    out: &mut [u8],
) -> u64
    ensures answer { result ≡ answer (open_burst (network_level level) (key_bytes key_first key_second) frames.now lengths.now out.old answers.old).answer.refusal (open_burst (network_level level) (key_bytes key_first key_second) frames.now lengths.now out.old answers.old).answer.frames }
    ensures answers { answers.new ≡ (open_burst (network_level level) (key_bytes key_first key_second) frames.now lengths.now out.old answers.old).answers }
    ensures out { out.new ≡ (open_burst (network_level level) (key_bytes key_first key_second) frames.now lengths.now out.old answers.old).out }
{
    let key = Key::from_halves(key_first, key_second);
    answer(burst::open_burst(Level::from(level), key, frames, lengths, out, answers))
}

// Where the payload is that opening spoke of, by the mark's code and the payload's length that it gave, and the frame's length: in the
// frame if clear (bit 40), its first byte's place in bits 48 to 55, else at the front of the output; refusals 1 and 13.
#[tactic(auto, unfolding(octets::specs::Refusals::unless, octets::specs::Refusals::first_of, crate::specs::Frames::payload_place, crate::specs::Frames::payload_place_refusal))]
pub fn nwk_payload_place(mark: u8, length: u64, frame_length: u64) -> u64
    ensures { result ≡ payload_place mark length frame_length }
{
    let limit = MAX_MAC_PAYLOAD_SIZE as u64;
    if limit < length || limit < frame_length {
        return answer(Err(Refusal::TooLong));
    }
    if 2 < mark {
        return answer(Err(Refusal::Field));
    }
    place(opened_record::mark_of(mark), length, frame_length)
}

// The place of a payload of a mark, none beside a refusal, in a frame of so many bytes.
fn place(mark: Option<Mark>, n: u64, frame: u64) -> u64
    requires { (n ≤ 118) × (frame ≤ 118) }
    ensures { result ≡ place_of (marked mark) n frame }
{
    match mark {
        None => 0,
        Some(Mark::Clear) => { n + 0x100_0000_0000 + frame.saturating_sub(n) * 0x1_0000_0000_0000 }
        Some(Mark::Sealed) => n,
    }
}

// Whether a frame type's payload is opaque, 0, or a command, 1, as the answer's length; refusal 13 for a code that no frame
// type has.
#[tactic(auto, unfolding(octets::specs::Refusals::unless, octets::specs::Refusals::first_of, crate::specs::Frames::payload_kind_refusal))]
pub fn nwk_payload_kind(frame_type: u8) -> u64
    ensures { result ≡ payload_kind_answer frame_type }
{
    let declared = NwkFrameType::from_code(u16::from(frame_type));
    if declared.code() != u16::from(frame_type) {
        return answer(Err(Refusal::Field));
    }
    answer(Ok(NwkPayload::of(declared) as usize))
}
