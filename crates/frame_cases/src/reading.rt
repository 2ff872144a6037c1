// The cases of reading. The writers are run beside the readers: what was read is written back.
//   header BYTES REFUSAL WRITTEN     read a header; WRITTEN is what it is written as, as long as what was read
//   aux BYTES REFUSAL WRITTEN        read an auxiliary header, likewise
//   fields BYTES RECORD              read a header; RECORD has each of its fields, so that a reader and a writer cannot be
//                                    wrong together
//   aux-fields BYTES RECORD          read an auxiliary header, likewise
//   frame BYTES REFUSAL LENGTH       read a frame; LENGTH is that of its headers
// A record is that of include/nwk.h, the zeros at its end left out.
use crate::answers::is_answer;
use casefile::fields::field;
use casefile::outputs::FILLER;
use casefile::{outputs, words};
use header::auxiliary::NwkAuxHeader;
use header::nwk::NwkHeader;
use octets::refusals::Refusal;
use records::auxiliary_record::put_aux;
use records::header_record::put_header;

// A case of a reader and the writer of what it read: whether reading gives the number and the length, and what was read is
// written as expected.
fn read_case<
    T: Copy,
    R: Fn(&[u8]) -> Result<(T, usize), Refusal>,
    W: Fn(T, &mut [u8]) -> Result<usize, Refusal>,
>(line: &[u8], read: R, write: W) -> Option<bool>
    requires { R.IsAlwaysCallable read × W.IsAlwaysCallable write }
{
    let mut bytes = [0u8; 160];
    let mut written = [0u8; 128];
    let n = field(line, 1, &mut bytes).ok()?;
    let refusal = words::number(line, 2)?;
    let m = field(line, 3, &mut written).ok()?;
    if !words::is_last(line, 3) {
        return None;
    }
    let answer = read(&bytes[..n]);
    let Ok((value, length)) = answer else {
        return Some(is_answer(answer.map(|_| 0), refusal, m));
    };
    let mut out = [FILLER; 128];
    Some(
        is_answer(Ok(length), refusal, m)
            && write(value, &mut out) == Ok(m)
            && outputs::holds(&out, &written[..m]),
    )
}

// A case of reading a header.
pub fn header_case(line: &[u8]) -> Option<bool> {
    read_case(
        line,
        |bytes: &[u8]| NwkHeader::deserialize(bytes),
        |header: NwkHeader, out: &mut [u8]| header.serialize(out),
    )
}

// A case of reading an auxiliary header.
pub fn aux_case(line: &[u8]) -> Option<bool> {
    read_case(
        line,
        |bytes: &[u8]| NwkAuxHeader::deserialize(bytes),
        |aux: NwkAuxHeader, out: &mut [u8]| aux.serialize(out),
    )
}

// A case of the fields of a header.
pub fn fields_case(line: &[u8]) -> Option<bool> {
    let mut bytes = [0u8; 128];
    let mut record = [0u8; 147];
    let n = field(line, 1, &mut bytes).ok()?;
    field(line, 2, &mut record).ok()?;
    if !words::is_last(line, 2) {
        return None;
    }
    let Ok((header, _)) = NwkHeader::deserialize(&bytes[..n]) else {
        return Some(false);
    };
    let mut made = [FILLER; 147];
    put_header(&mut made, header);
    Some(check::same(&made, &record))
}

// A case of the fields of an auxiliary header.
pub fn aux_fields_case(line: &[u8]) -> Option<bool> {
    let mut bytes = [0u8; 128];
    let mut record = [0u8; 19];
    let n = field(line, 1, &mut bytes).ok()?;
    field(line, 2, &mut record).ok()?;
    if !words::is_last(line, 2) {
        return None;
    }
    let Ok((aux, _)) = NwkAuxHeader::deserialize(&bytes[..n]) else {
        return Some(false);
    };
    let mut made = [FILLER; 19];
    put_aux(&mut made, true, aux);
    Some(check::same(&made, &record))
}

// A case of reading a frame.
pub fn frame_case(line: &[u8]) -> Option<bool> {
    let mut bytes = [0u8; 160];
    let n = field(line, 1, &mut bytes).ok()?;
    let refusal = words::number(line, 2)?;
    let length = words::number(line, 3)?;
    if !words::is_last(line, 3) {
        return None;
    }
    let answer = frame::read_frame(&bytes[..n]).map(|frame| frame.length);
    Some(is_answer(answer, refusal, length))
}
