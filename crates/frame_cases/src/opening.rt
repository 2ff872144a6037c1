// The cases of opening.
//   open KEY FRAME ROOM REFUSAL MARK PAYLOAD HEADERS NONCE_IEEE
//   split BYTES REFUSAL LENGTH MIC
// MARK is clear, sealed, or "-" beside a refusal. PAYLOAD is the payload handed back. Of a sealed frame it is what the output's
// front must be, the rest must stay; of a clear frame, whose last bytes it is, and after a refusal, the whole output must stay.
// HEADERS is what the headers that come back are written as, the level as received; of a clear frame the header alone.
// NONCE_IEEE is the long address that the nonce used, in wire order; "-" for a clear frame and beside a refusal. LENGTH is how
// many bytes stand before the MIC.
use crate::answers::{is_answer, number};
use casefile::fields::{exact, field};
use casefile::outputs::FILLER;
use casefile::{file, outputs, words};
use frame::{Mark, OpenedFrame};
use header::auxiliary::NwkAuxHeader;
use header::nwk::NwkHeader;
use types::Key;
use types::level::Level;

// The mark that word k of a line is, none for "-".
fn mark_at(line: &[u8], k: usize) -> Option<Option<Mark>> {
    match words::word(line, k) {
        b"-" => Some(None),
        b"clear" => Some(Some(Mark::Clear)),
        b"sealed" => Some(Some(Mark::Sealed)),
        _ => None,
    }
}

// What a case says that opening gives.
#[derive(Clone, Copy)]
struct Expected<'a> {
    mark: Option<Mark>,
    payload: &'a [u8],
    headers: &'a [u8],
    ieee: &'a [u8],
}

// Whether the header, and the auxiliary header if there is one, are written as expected.
fn written_as(header: NwkHeader, aux: Option<NwkAuxHeader>, expected: &[u8]) -> bool {
    let mut out = [FILLER; 128];
    let Ok(n) = header.serialize(&mut out) else {
        return false;
    };
    if let Some(aux) = aux {
        let at = file::within(n, &out);
        if aux.serialize(&mut out[at..]).is_err() {
            return false;
        }
    }
    outputs::holds(&out, expected)
}

// Whether an address is the eight bytes expected, in wire order, or there is none and none is expected.
fn is_address(ieee: Option<u64>, expected: &[u8]) -> bool {
    match ieee {
        None => expected.is_empty(),
        Some(x) => check::same(&x.to_le_bytes(), expected),
    }
}

// Whether an opened frame is as expected, the output aside.
fn is_opened(opened: OpenedFrame, expected: Expected<'_>) -> bool {
    Some(opened.mark) == expected.mark
        && opened.length == expected.payload.len()
        && is_address(opened.nonce_ieee, expected.ieee)
        && written_as(opened.header, opened.aux, expected.headers)
}

// Whether nothing is expected, as beside a refusal.
fn is_nothing(expected: Expected<'_>) -> bool {
    expected.mark.is_none()
        && expected.payload.is_empty()
        && expected.headers.is_empty()
        && expected.ieee.is_empty()
}

// Whether the output holds what opening leaves there beside this mark: the payload of a sealed frame, else nothing.
fn leaves(expected: Expected<'_>, out: &[u8]) -> bool {
    match expected.mark {
        Some(Mark::Sealed) => outputs::holds(out, expected.payload),
        _ => outputs::untouched(out),
    }
}

// Whether opening to an output of the room given leaves the number and what is expected.
fn opens(key: Key, bytes: &[u8], room: usize, refusal: usize, expected: Expected<'_>) -> bool {
    let mut out = [FILLER; 128];
    let n = file::within(room, &out);
    let answer = frame::opening::open(Level::EncMic32, key, bytes, &mut out[..n]);
    let as_expected = match answer {
        Ok(opened) => is_opened(opened, expected),
        Err(_) => is_nothing(expected),
    };
    number(answer) == refusal
        && as_expected
        && leaves(expected, &out)
        && check::same(
            frame::opening::payload(answer, bytes, &out),
            expected.payload,
        )
}

// A case of opening.
pub fn open_case(line: &[u8]) -> Option<bool> {
    let mut bytes = [0u8; 160];
    let mut payload = [0u8; 128];
    let mut headers = [0u8; 128];
    let mut ieee = [0u8; 8];
    let key = exact::<16>(line, 1)?;
    let n = field(line, 2, &mut bytes).ok()?;
    let room = words::number(line, 3)?;
    let refusal = words::number(line, 4)?;
    let mark = mark_at(line, 5)?;
    let p = field(line, 6, &mut payload).ok()?;
    let h = field(line, 7, &mut headers).ok()?;
    let i = field(line, 8, &mut ieee).ok()?;
    if 128 < room || (i != 0 && i != 8) || !words::is_last(line, 8) {
        return None;
    }
    let expected = Expected {
        mark,
        payload: &payload[..p],
        headers: &headers[..h],
        ieee: &ieee[..i],
    };
    Some(opens(Key(key), &bytes[..n], room, refusal, expected))
}

// A case of splitting a ciphertext and its MIC; beside a refusal the MIC is 0.
pub fn split_case(line: &[u8]) -> Option<bool> {
    let mut bytes = [0u8; 256];
    let n = field(line, 1, &mut bytes).ok()?;
    let refusal = words::number(line, 2)?;
    let length = words::number(line, 3)?;
    let tag = exact::<4>(line, 4)?;
    if !words::is_last(line, 4) {
        return None;
    }
    let split = ccm::split_mic(Level::EncMic32, &bytes[..n]);
    let (_, mic) = split.unwrap_or((0, [0u8; 16]));
    let mut expected = [0u8; 16];
    octets::copy_at(&mut expected, 0, &tag);
    Some(is_answer(split.map(|(n, _)| n), refusal, length) && check::same(&mic, &expected))
}
