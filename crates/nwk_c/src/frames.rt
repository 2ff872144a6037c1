// Reading, writing, sealing and opening frames, one or a burst of them, and what a payload is.
ghost use Rattle.std.specs.Prelude.{◌≡◌};
ghost use Rattle.types.specs.Keys.{key_bytes};
ghost use Rattle.types.specs.Levels.{network_level};
ghost use Rattle.burst.specs.Burst.{open_burst};
ghost use Rattle.nwk.specs.Answer.{answer};
ghost use Rattle.nwk.specs.Frames.{read_frame_answer, read_frame_header, read_frame_auxiliary, write_frame_answer, write_frame_output, seal_answer, seal_output, open_answer, open_record, open_output, payload_kind_answer, payload_place};

// Read a frame into a header record and an auxiliary record, and give how many bytes the two headers take; the payload
// or ciphertext is the rest of the frame. Refusals 1 to 12 and 18.
#[unsafe(no_mangle)]
pub extern "C" fn nwk_read_frame(bytes: &[u8], header: &mut [u8], auxiliary: &mut [u8]) -> u64
    ensures answer { result ≡ read_frame_answer bytes.now header.old auxiliary.old }
    ensures header { header.new ≡ read_frame_header bytes.now header.old auxiliary.old }
    ensures auxiliary { auxiliary.new ≡ read_frame_auxiliary bytes.now header.old auxiliary.old }
{
    nwk::frames::nwk_read_frame(bytes, header, auxiliary)
}

// Write a frame without a key, the header of a record and the payload, to the front of the output; refusals 13, 28,
// 17 and 18.
#[unsafe(no_mangle)]
pub extern "C" fn nwk_write_frame(header: &[u8], payload: &[u8], out: &mut [u8]) -> u64
    ensures answer { result ≡ write_frame_answer header.now payload.now out.old }
    ensures out { out.new ≡ write_frame_output header.now payload.now out.old }
{
    nwk::frames::nwk_write_frame(header, payload, out)
}

// Seal a frame from the headers of two records and the payload, to the front of the output; refusals 29, 13,
// 28, 14, 28, 15, 21, 17 and 18.
#[unsafe(no_mangle)]
pub extern "C" fn nwk_seal(
    level: u64,
    key_first: u64,
    key_second: u64,
    header: &[u8],
    auxiliary: &[u8],
    payload: &[u8],
    out: &mut [u8],
) -> u64
    ensures answer { result ≡ seal_answer (network_level level) (key_bytes key_first key_second) header.now auxiliary.now payload.now out.old }
    ensures out { out.new ≡ seal_output (network_level level) (key_bytes key_first key_second) header.now auxiliary.now payload.now out.old }
{
    nwk::frames::nwk_seal(
        level, key_first, key_second, header, auxiliary, payload, out,
    )
}

// Open a frame: the answer with both headers goes to the opened record. A sealed frame's payload goes to the front of the
// output; a clear one's stays in the frame, and the output is not touched. Refusals 29, 1 to 12, 18 for the record, and of a
// sealed frame 15, 16, 18 and 19.
#[unsafe(no_mangle)]
pub extern "C" fn nwk_open(
    level: u64,
    key_first: u64,
    key_second: u64,
    bytes: &[u8],
    opened: &mut [u8],
    out: &mut [u8],
) -> u64
    ensures answer { result ≡ open_answer (network_level level) (key_bytes key_first key_second) bytes.now opened.old out.old }
    ensures opened { opened.new ≡ open_record (network_level level) (key_bytes key_first key_second) bytes.now opened.old out.old }
    ensures out { out.new ≡ open_output (network_level level) (key_bytes key_first key_second) bytes.now opened.old out.old }
{
    nwk::frames::nwk_open(level, key_first, key_second, bytes, opened, out)
}

// Open a burst: frames end to end, as long as the lengths say, at one level and under one key. Frame k goes to the 108 bytes of the
// output from 108 × k, and its answer to place k of the answers; the length is the number of frames. Refusal 20, and 29 as each
// frame's answer.
#[unsafe(no_mangle)]
pub extern "C" fn nwk_open_burst(
    level: u64,
    key_first: u64,
    key_second: u64,
    frames: &[u8],
    lengths: &[u16],
    answers: &mut [[u8; 182]],
    out: &mut [u8],
) -> u64
    ensures answer { result ≡ answer (open_burst (network_level level) (key_bytes key_first key_second) frames.now lengths.now out.old answers.old).answer.refusal (open_burst (network_level level) (key_bytes key_first key_second) frames.now lengths.now out.old answers.old).answer.frames }
    ensures answers { answers.new ≡ (open_burst (network_level level) (key_bytes key_first key_second) frames.now lengths.now out.old answers.old).answers }
    ensures out { out.new ≡ (open_burst (network_level level) (key_bytes key_first key_second) frames.now lengths.now out.old answers.old).out }
{
    nwk::frames::nwk_open_burst(level, key_first, key_second, frames, lengths, answers, out)
}

// Where the payload is that opening spoke of, by the mark's code and the payload's length that it gave, and the frame's length: in the
// frame if clear (bit 40), its first byte's place in bits 48 to 55, else at the front of the output; refusals 1 and 13.
#[unsafe(no_mangle)]
pub extern "C" fn nwk_payload_place(mark: u8, length: u64, frame_length: u64) -> u64
    ensures { result ≡ payload_place mark length frame_length }
{
    nwk::frames::nwk_payload_place(mark, length, frame_length)
}

// Whether a frame type's payload is opaque, 0, or a command, 1, as the answer's length; refusal 13 for a code that no frame
// type has.
#[unsafe(no_mangle)]
pub extern "C" fn nwk_payload_kind(frame_type: u8) -> u64
    ensures { result ≡ payload_kind_answer frame_type }
{
    nwk::frames::nwk_payload_kind(frame_type)
}
