// The sealing law carried to the code: sealing and opening in turn, either way round.
ghost use Rattle.std.specs.Prelude.{◌≡◌, ◌≤◌, length};
ghost use Rattle.types.specs.Counters.{last_counter};
ghost use Rattle.frame.specs.Sealing.{counter_of, told_sealed, seal_frame};
ghost use Rattle.frame.specs.Opening.{Mark, told_opened, open_frame};
ghost use Rattle.frame.specs.SealingLaw.{seal_then_open, Reopened, PlainControl, open_then_seal, Resealed};

use crate::ranges::in_range;
use crate::{OpenedFrame, opening, sealing};
use header::auxiliary::NwkAuxHeader;
use header::nwk::NwkHeader;
use header::ranges;
use octets::refusals::Refusal;
use types::Key;
use types::level::Level;

// Seal a frame and open the bytes written, at one level. Where sealing accepts, the headers and the payload come back; where it refuses,
// nothing was written, and opening no bytes is refused by 2.
pub fn seal_then_open(
    level: Level,
    key: Key,
    h: NwkHeader,
    aux: Option<NwkAuxHeader>,
    payload: &[u8],
    frame: &mut [u8],
    out: &mut [u8],
) -> Result<OpenedFrame, Refusal>
    ensures answer { told_opened result ≡ (seal_then_open level key.0 h aux payload.now frame.old out.old).answer }
    ensures frame { frame.new ≡ (seal_frame level key.0 h aux payload.now frame.old).out }
    ensures out { out.new ≡ (seal_then_open level key.0 h aux payload.now frame.old out.old).out }
    ensures law { (seal_frame level key.0 h aux payload.now frame.old).answer.refusal ≡ 0 → length payload.now ≤ length out.old → Reopened h aux payload.now (record { answer = told_opened result; out = out.new }) }
{
    in_range(h, aux);
    let length = sealing::seal(level, key, h, aux, payload, frame).unwrap_or(0);
    opening::open(level, key, &frame[..length], out)
}

// Open a frame and seal afresh what it gave, at one level. Where opening accepts a sealed frame whose security control byte has level and
// bit 7 zero and whose counter is not the last one, and 118 bytes are lent, exactly the frame's bytes are written again. The
// last counter is refused by 21, and a clear frame by 28, its security bit being off.
pub fn open_then_seal(
    level: Level,
    key: Key,
    frame: &[u8],
    out: &mut [u8],
    again: &mut [u8],
) -> Result<usize, Refusal>
    ensures answer { told_sealed result ≡ (open_then_seal level key.0 frame.now out.old again.old).answer }
    ensures out { out.new ≡ (open_frame level key.0 frame.now out.old).out }
    ensures again { again.new ≡ (open_then_seal level key.0 frame.now out.old again.old).out }
    ensures law { (open_frame level key.0 frame.now out.old).answer.refusal ≡ 0 → (open_frame level key.0 frame.now out.old).answer.mark ≡ Mark.Sealed → PlainControl frame.now → (counter_of (open_frame level key.0 frame.now out.old).answer.aux ≡ last_counter → ⊥) → length again.old ≡ 118 → Resealed frame.now (record { answer = told_sealed result; out = again.new }) }
{
    ranges::bytes_fit(frame);
    let opened = opening::open(level, key, frame, out);
    let payload = opening::payload(opened, frame, out);
    let (header, aux) = match opened {
        Ok(given) => (given.header, given.aux),
        Err(_) => (NwkHeader::blank(), None),
    };
    sealing::seal(level, key, header, aux, payload, again)
}
