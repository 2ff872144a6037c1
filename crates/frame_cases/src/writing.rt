// The cases of writing.
//   write HEADER PAYLOAD ROOM REFUSAL FRAME             write a frame without a key
//   seal KEY HEADER AUX PAYLOAD ROOM REFUSAL FRAME      seal a frame
// HEADER and AUX are the records of include/nwk.h, the zeros at their end left out, so that a bit need not agree with its
// field. FRAME is what the output's front must be; the rest, and after a refusal the whole, must stay.
ghost use Rattle.std.specs.Prelude.{◌<◌};

use crate::answers::is_answer;
use casefile::fields::{exact, field};
use casefile::outputs::FILLER;
use casefile::{file, outputs, words};
use header::auxiliary::NwkAuxHeader;
use header::nwk::NwkHeader;
use octets::refusals::Refusal;
use records::auxiliary_record;
use records::header_record::header_of;
use types::Key;
use types::level::Level;

// The header of word k, a record.
fn header_at(line: &[u8], k: usize) -> Option<NwkHeader> {
    let mut record = [0u8; 147];
    field(line, k, &mut record).ok()?;
    Some(header_of(&record))
}

// The auxiliary header of word k, a record; none where its first byte is not 1.
fn aux_at(line: &[u8], k: usize) -> Option<Option<NwkAuxHeader>> {
    let mut record = [0u8; 19];
    field(line, k, &mut record).ok()?;
    Some(auxiliary_record::is_present(&record).then_some(auxiliary_record::aux_of(&record)))
}

// Whether a writer leaves what the words from word k on say: PAYLOAD ROOM REFUSAL FRAME, the last of the line.
fn written_case<W: FnOnce(&[u8], &mut [u8]) -> Result<usize, Refusal>>(
    line: &[u8],
    k: usize,
    write: W,
) -> Option<bool>
    requires { (k < 1000) × W.IsAlwaysCallable write }
{
    let mut payload = [0u8; 128];
    let mut expected = [0u8; 128];
    let n = field(line, k, &mut payload).ok()?;
    let room = words::number(line, k + 1)?;
    let refusal = words::number(line, k + 2)?;
    let m = field(line, k + 3, &mut expected).ok()?;
    if 128 < room || !words::is_last(line, k + 3) {
        return None;
    }
    let mut out = [FILLER; 128];
    let answer = write(&payload[..n], &mut out[..room]);
    Some(is_answer(answer, refusal, m) && outputs::holds(&out, &expected[..m]))
}

// A case of writing without a key.
pub fn write_case(line: &[u8]) -> Option<bool> {
    let header = header_at(line, 1)?;
    written_case(line, 2, |payload: &[u8], out: &mut [u8]| {
        frame::write_frame(header, payload, out)
    })
}

// A case of sealing.
pub fn seal_case(line: &[u8]) -> Option<bool> {
    let key = exact::<16>(line, 1)?;
    let header = header_at(line, 2)?;
    let aux = aux_at(line, 3)?;
    written_case(line, 4, |payload: &[u8], out: &mut [u8]| {
        frame::sealing::seal(Level::EncMic32, Key(key), header, aux, payload, out)
    })
}
