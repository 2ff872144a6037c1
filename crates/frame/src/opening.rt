// Opening a frame (Zigbee Specification 4.3.1.2).
ghost use Rattle.std.specs.Prelude.{◌≡◌, ◌+◌, ◌≤◌, not, length, take, drop, IfOk};
ghost use Rattle.octets.specs.Refusals.{first_of, refused};
ghost use Rattle.header.specs.Auxiliary.{aux_bytes};
ghost use Rattle.header.specs.Writing.{header_bytes};
ghost use Rattle.types.specs.Levels.{tag_length};
ghost use Rattle.ccm.specs.Operations.{opened_under, given_if};
ghost use Rattle.frame.specs.Reading.{told_frame, read_frame};
ghost use Rattle.frame.specs.Security.{is_absent, nonce, authenticated};
ghost use Rattle.frame.specs.Opening.{last_of, open_refusals, marked, told_opened, open_frame, open_under, payload_by, payload_in};

use crate::security::Headers;
use crate::{Frame, Mark, OpenedFrame, read_frame};
use ccm::RoundKeys;
use octets::refusals::Refusal;
use types::Key;
use types::level::Level;

// The frame as read; the refusals that need no key: 29, 1 to 12, and of a sealed frame 15, 16 and 18, for an output of so much room.
// A `match`, since `?` would copy both headers once more.
#[tactic(auto, unfolding(crate::specs::Opening::open_refusals, crate::specs::Reading::frame_refused, octets::specs::Refusals::first_of, octets::specs::Refusals::unless))]
pub fn check_open(level: Level, bytes: &[u8], room: usize) -> Result<Frame, Refusal>
    ensures number { refused result ≡ first_of (open_refusals level (read_frame bytes.now).refusal (read_frame bytes.now).header (read_frame bytes.now).aux (length (drop (read_frame bytes.now).length bytes.now)) room) }
    ensures frame { IfOk result (λ (r : Frame). (told_frame (Ok r) ≡ read_frame bytes.now) × (r.length ≤ length bytes.now) × (r.header.frame_control.security ≡ not (is_absent r.aux))) }
{
    if level.is_other() {
        return Err(Refusal::Level);
    }
    match read_frame(bytes) {
        Err(refusal) => Err(refusal),
        Ok(frame) => {
            let Some(aux) = frame.aux else {
                return Ok(frame);
            };
            let headers = Headers {
                header: frame.header,
                aux,
            };
            if headers.nonce_ieee().is_none() {
                return Err(Refusal::NoIeee);
            }
            let part = bytes.len() - frame.length;
            let tag = level.tag_length();
            if part < tag {
                return Err(Refusal::NoMic);
            }
            if room < part - tag {
                return Err(Refusal::NoRoom);
            }
            Ok(frame)
        }
    }
}

// Open a sealed frame that meets no refusal but perhaps 19: whether the MIC is the one computed; only then the payload goes to the front
// of the output. The bytes that the header was read from are those that it is written as.
#[tactic(auto, unfolding(crate::specs::Security::authenticated), using(crate::proofs::Levels::level_length, octets::proofs::Strings::take_over))]
fn open_sealed(
    level: Level,
    keys: &RoundKeys,
    headers: Headers,
    front: &[u8],
    ciphertext: &[u8],
    mic: [u8; 16],
    out: &mut [u8],
) -> bool
    requires { (2 ≤ tag_length level) × (front.now ≡ header_bytes headers.header) × (length (header_bytes headers.header) + length (aux_bytes headers.aux) ≤ 118) × (length ciphertext.now ≤ 127) × (length ciphertext.now ≤ length out.old) }
    ensures valid { result ≡ (opened_under (tag_length level) keys.now (nonce level headers.header headers.aux) (authenticated level headers.header headers.aux) ciphertext.now (take (tag_length level) mic)).valid }
    ensures buffer { out.new ≡ given_if result (opened_under (tag_length level) keys.now (nonce level headers.header headers.aux) (authenticated level headers.header headers.aux) ciphertext.now (take (tag_length level) mic)) out.old }
{
    let auth = headers.authenticated(level, front);
    let auth = &auth[..headers.size()];
    ccm::open_under(
        level,
        keys,
        headers.nonce(level),
        auth,
        ciphertext,
        mic,
        out,
    )
}

// Open a frame under round keys, for a caller that opens more than one; the same refusals as `open`.
#[tactic(auto, unfolding(crate::specs::Opening::open_with, crate::specs::Opening::open_by, crate::specs::Opening::open_refusal, crate::specs::Opening::open_refused, crate::specs::Opening::behind, octets::specs::Refusals::first_of, octets::specs::Refusals::unless))]
pub fn open_under(
    level: Level,
    keys: &RoundKeys,
    bytes: &[u8],
    out: &mut [u8],
) -> Result<OpenedFrame, Refusal>
    ensures answer { told_opened result ≡ (open_under level keys.now bytes.now out.old).answer }
    ensures buffer { out.new ≡ (open_under level keys.now bytes.now out.old).out }
{
    let Frame {
        header,
        aux,
        length,
    } = check_open(level, bytes, out.len())?;
    let part = &bytes[length..];
    let Some(present) = aux else {
        return Ok(OpenedFrame {
            mark: Mark::Clear,
            length: part.len(),
            nonce_ieee: None,
            header,
            aux,
        });
    };
    let headers = Headers {
        header,
        aux: present,
    };
    let front = &bytes[..header.size()];
    let (n, mic) = ccm::split_mic(level, part)?;
    if !open_sealed(level, keys, headers, front, &part[..n], mic, out) {
        return Err(Refusal::WrongMic);
    }
    Ok(OpenedFrame {
        mark: Mark::Sealed,
        length: n,
        nonce_ieee: headers.nonce_ieee(),
        header,
        aux,
    })
}

// Open a frame (`EncryptedNwkFrame::from_bytes` and `decrypt`). One whose security bit is off is clear, and the output is not
// touched. Refusals 29, 1 to 12, and of a sealed frame 15, 16, 18 and 19, which change nothing: no plaintext is left after 19.
pub fn open(level: Level, key: Key, frame: &[u8], out: &mut [u8]) -> Result<OpenedFrame, Refusal>
    ensures answer { told_opened result ≡ (open_frame level key.0 frame.now out.old).answer }
    ensures buffer { out.new ≡ (open_frame level key.0 frame.now out.old).out }
{
    open_under(level, &ccm::expand(key.0), frame, out)
}

// ---- the payload

// The last n bytes, or all if there are fewer.
fn last<'a>(bytes: &'a [u8], n: usize) -> &'a [u8]
    ensures { result.now ≡ last_of n bytes.now }
{
    &bytes[bytes.len().saturating_sub(n)..]
}

// The first n bytes, or all if there are fewer.
fn first<'a>(bytes: &'a [u8], n: usize) -> &'a [u8]
    ensures { result.now ≡ take n bytes.now }
{
    &bytes[..n.min(bytes.len())]
}

// The payload of a frame with a mark and a length: its last bytes if it was clear, the first of the opened bytes if it was sealed, as many
// as the length says; none without a mark.
pub fn payload_by<'a>(
    mark: Option<Mark>,
    length: usize,
    frame: &'a [u8],
    opened: &'a [u8],
) -> &'a [u8]
    ensures { result.now ≡ payload_by (marked mark) length frame.now opened.now }
{
    match mark {
        None => &[],
        Some(Mark::Clear) => last(frame, length),
        Some(Mark::Sealed) => first(opened, length),
    }
}

// The payload that an answer of opening speaks of; none beside a refusal.
#[tactic(auto, unfolding(crate::specs::Opening::open_refused))]
pub fn payload<'a>(
    answer: Result<OpenedFrame, Refusal>,
    frame: &'a [u8],
    opened: &'a [u8],
) -> &'a [u8]
    ensures { result.now ≡ payload_in (told_opened answer) frame.now opened.now }
{
    match answer {
        Err(_) => payload_by(None, 0, frame, opened),
        Ok(given) => payload_by(Some(given.mark), given.length, frame, opened),
    }
}
