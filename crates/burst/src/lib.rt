// Opening a burst of frames in one call (document 02, 1).
#![tactic(auto)]

ghost use Rattle.std.specs.Prelude.{◌≡◌, ◌≤◌, length};
ghost use Rattle.octets.specs.Refusals.{refused};
ghost use Rattle.ccm.specs.Operations.{ciph_under};
ghost use Rattle.frame.specs.Opening.{open_under};
ghost use Rattle.records.specs.OpenedRecord.{opened_record};
ghost use Rattle.burst.specs.Burst.{total, burst_refusal, out_after, answers_after, told_burst, open_burst};

use ccm::RoundKeys;
use octets::refusals::Refusal;
use records::opened_record;
use types::level::Level;
use types::{Key, MAX_NSDU_SIZE};

// The most frames of a burst.
pub const MAX_FRAMES: usize = 16;

// The sum of the lengths.
fn total(lengths: &[u16]) -> usize
    requires { length lengths.now ≤ 16 }
    ensures { result ≡ total lengths.now }
{
    let mut sum = 0;
    for &length in lengths {
        sum += usize::from(length);
    }
    sum
}

// Refusal 20, for the bytes lent, the output's room and the places of the list for the answers.
#[tactic(auto, unfolding(crate::specs::Burst::burst_refusal, octets::specs::Refusals::first_of))]
fn check(lengths: &[u16], bytes: usize, room: usize, places: usize) -> Result<(), Refusal>
    ensures { refused result ≡ burst_refusal lengths.now bytes room places }
{
    let count = lengths.len();
    if MAX_FRAMES < count {
        return Err(Refusal::Burst);
    }
    if total(lengths) != bytes || room < MAX_NSDU_SIZE * count || places < count {
        return Err(Refusal::Burst);
    }
    Ok(())
}

// Open one frame under round keys into its part of the output, its answer to its place.
fn open_one(level: Level, keys: &RoundKeys, frame: &[u8], part: &mut [u8], place: &mut [u8; 182])
    ensures part { part.new ≡ (open_under level keys.now frame.now part.old).out }
    ensures place { place.new ≡ opened_record (open_under level keys.now frame.now part.old).answer }
{
    let opened = frame::opening::open_under(level, keys, frame, part);
    opened_record::put_opened(place, opened);
}

// Open each frame of a burst that is not refused, under round keys.
fn open_each(
    level: Level,
    keys: &RoundKeys,
    frames: &[u8],
    lengths: &[u16],
    out: &mut [u8],
    answers: &mut [[u8; 182]],
)
    requires { burst_refusal lengths.now (length frames.now) (length out.old) (length answers.old) ≡ 0 }
    ensures out { out.new ≡ out_after level (ciph_under keys.now) frames.now lengths.now out.old (length lengths.now) }
    ensures answers { answers.new ≡ answers_after level (ciph_under keys.now) frames.now lengths.now out.old answers.old (length lengths.now) }
{
    let mut at = 0;
    for k in 0..lengths.len() {
        let end = at + usize::from(lengths[k]);
        let part = MAX_NSDU_SIZE * k;
        open_one(
            level,
            keys,
            &frames[at..end],
            &mut out[part..part + MAX_NSDU_SIZE],
            &mut answers[k],
        );
        at = end;
    }
}

// Open a burst of frames that stand end to end, as long as the lengths say, and give their number. Frame k goes to the 108 bytes of the
// output from 108 × k, and its answer to place k of the list. 20 refuses the burst and changes nothing; a frame's own refusal, 29 among
// them, changes only its record.
#[tactic(auto, unfolding(crate::specs::Burst::open_burst, octets::specs::Refusals::unless), using(ccm::proofs::RoundKeys::cipher_is))]
pub fn open_burst(
    level: Level,
    key: Key,
    frames: &[u8],
    lengths: &[u16],
    out: &mut [u8],
    answers: &mut [[u8; 182]],
) -> Result<usize, Refusal>
    ensures answer { told_burst result ≡ (open_burst level key.0 frames.now lengths.now out.old answers.old).answer }
    ensures out { out.new ≡ (open_burst level key.0 frames.now lengths.now out.old answers.old).out }
    ensures answers { answers.new ≡ (open_burst level key.0 frames.now lengths.now out.old answers.old).answers }
{
    check(lengths, frames.len(), out.len(), answers.len())?;
    open_each(level, &ccm::expand(key.0), frames, lengths, out, answers);
    Ok(lengths.len())
}
