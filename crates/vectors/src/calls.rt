// What the Rust's types.rs answers: lines of a call's letter, its input, its answer and how many bytes remain, in hexadecimal
// digits, "-" for nothing, and "- -" where it refuses.
use casefile::fields::field;
use casefile::words;
use types::{Eui64, Key, Nwk, PanId};

// The bytes of an answer, at most sixteen, and how many bytes of the input remain.
#[derive(Clone, Copy)]
struct Answer {
    bytes: [u8; 16],
    length: usize,
    remain: usize,
}

// An answer of so many bytes that leaves so many of the input.
fn answered<const N: usize>(bytes: [u8; N], remain: usize) -> Answer {
    let mut places = [0u8; 16];
    let n = N.min(16);
    octets::copy_at(&mut places, 0, &bytes[..n]);
    Answer {
        bytes: places,
        length: n,
        remain,
    }
}

// The whole input as an array, if it has the length of one.
fn whole<const N: usize>(input: &[u8]) -> Option<[u8; N]> {
    <[u8; N]>::try_from(input).ok()
}

// The answer of the call of a letter on an input: none where there is no such call or the input has another length, and none inside
// where the call refuses.
fn answer_of(call: u8, input: &[u8]) -> Option<Option<Answer>> {
    let n = input.len();
    let given = match call {
        b'N' => Nwk::deserialize(input).map(|(x, used)| answered(
            x.0.to_be_bytes(),
            n.saturating_sub(used),
        )),
        b'P' => PanId::deserialize(input).map(|(x, used)| answered(
            x.0.to_be_bytes(),
            n.saturating_sub(used),
        )),
        b'E' => Eui64::deserialize(input).map(|(x, used)| answered(
            x.to_bytes(),
            n.saturating_sub(used),
        )),
        b'K' => Key::from_bytes(input).map(|key| answered(key.to_bytes(), 0)),
        b'n' => Some(answered(Nwk(u16::from_be_bytes(whole(input)?)).to_bytes(), 0)),
        b'a' => Some(answered(
            Nwk(u16::from_be_bytes(whole(input)?))
                .as_u16()
                .to_be_bytes(),
            0,
        )),
        b'p' => Some(answered(PanId(u16::from_be_bytes(whole(input)?)).to_bytes(), 0)),
        b'e' => Some(answered(Eui64(whole(input)?).to_bytes(), 0)),
        b'd' => Some(answered(Eui64(whole(input)?).to_be_bytes(), 0)),
        b'w' => Some(answered(Eui64::from_be_bytes(whole(input)?).to_bytes(), 0)),
        b'k' => Some(answered(Key::from_string(whole(input)?).to_bytes(), 0)),
        b'b' => Some(answered(Key(whole(input)?).to_bytes(), 0)),
        _ => return None,
    };
    Some(given)
}

// Whether the call of a line answers so.
pub fn agrees(line: &[u8]) -> Option<bool> {
    let mut input = [0u8; 32];
    let mut bytes = [0u8; 16];
    let mut rest = [0u8; 1];
    let i = field(line, 1, &mut input).ok()?;
    let b = field(line, 2, &mut bytes).ok()?;
    let r = field(line, 3, &mut rest).ok()?;
    let given = answer_of(words::letter(line), &input[..i])?;
    if !words::is_last(line, 3) {
        return None;
    }
    let Some(given) = given else {
        return Some(b == 0 && r == 0);
    };
    let n = given.length.min(16);
    Some(
        r == 1
            && usize::from(rest[0]) == given.remain
            && check::same(&given.bytes[..n], &bytes[..b]),
    )
}
