// The CCM entries: lines of a key, a nonce, associated data, a payload, a ciphertext, a tag, in hexadecimal digits, "-" for
// nothing, and a verdict. The tag's length tells the level. An entry that passes is sealed and opened to the byte; one that fails is refused by 19 with the
// lent output unchanged, and its payload is "?". Where the verdict is a number, sealing and opening are refused by it.
use casefile::fields::{exact, field};
use casefile::outputs::FILLER;
use casefile::{file, outputs, words};
use octets::refusals::Refusal;
use types::level::Level;

// An entry but for its payload and its verdict.
#[derive(Clone, Copy)]
struct Entry<'a> {
    level: Level,
    key: [u8; 16],
    nonce: [u8; 13],
    auth: &'a [u8],
    ciphertext: &'a [u8],
    mic: [u8; 16],
}

// The level whose tag has n bytes.
fn level_of(n: usize) -> Option<Level> {
    match n {
        4 => Some(Level::EncMic32),
        8 => Some(Level::EncMic64),
        16 => Some(Level::EncMic128),
        _ => None,
    }
}

impl Entry<'_> {
    // Whether sealing to an output of the room given leaves ciphertext and MIC there, and the rest as it was.
    fn seals(self, payload: &[u8]) -> bool {
        let mut out = [FILLER; 160];
        let sealed = ccm::encrypt_ccm(
            self.level, self.key, self.nonce, self.auth, payload, &mut out,
        );
        let Ok(sealed) = sealed else {
            return false;
        };
        let mic = sealed.1;
        sealed.0 == self.ciphertext.len()
            && mic == self.mic
            && outputs::holds(&out, self.ciphertext)
    }

    // The same for opening, with the payload.
    fn opens(self, payload: &[u8]) -> bool {
        let mut out = [FILLER; 160];
        let opened = ccm::decrypt_ccm(
            self.level,
            self.key,
            self.nonce,
            self.auth,
            self.ciphertext,
            self.mic,
            &mut out,
        );
        opened == Ok(payload.len()) && outputs::holds(&out, payload)
    }

    // Whether sealing to an output of the room given is refused so, and nothing changed.
    fn sealing_refused(self, payload: &[u8], room: usize, refusal: Refusal) -> bool {
        let mut out = [FILLER; 160];
        let n = file::within(room, &out);
        let sealed = ccm::encrypt_ccm(
            self.level,
            self.key,
            self.nonce,
            self.auth,
            payload,
            &mut out[..n],
        );
        sealed.err() == Some(refusal) && outputs::untouched(&out)
    }

    // The same for opening.
    fn opening_refused(self, room: usize, refusal: Refusal) -> bool {
        let mut out = [FILLER; 160];
        let n = file::within(room, &out);
        let opened = ccm::decrypt_ccm(
            self.level,
            self.key,
            self.nonce,
            self.auth,
            self.ciphertext,
            self.mic,
            &mut out[..n],
        );
        opened == Err(refusal) && outputs::untouched(&out)
    }

    // The same for both.
    fn refused(self, payload: &[u8], room: usize, refusal: Refusal) -> bool {
        self.sealing_refused(payload, room, refusal) && self.opening_refused(room, refusal)
    }

    // Whether the entry is as its verdict says, the last word of the line: an entry at a limit is refused by 1 with any room, or by 18 with
    // one byte less than it takes.
    fn is_as_said(self, line: &[u8]) -> Option<bool> {
        let verdict = words::word(line, 6);
        if check::same(verdict, b"fail") {
            return words::is(line, 3, b"?").then_some(self.opening_refused(160, Refusal::WrongMic));
        }
        let mut payload = [0u8; 160];
        let n = field(line, 3, &mut payload).ok()?;
        let payload = &payload[..n];
        let short = n.saturating_sub(1);
        if check::same(verdict, b"pass") {
            return Some(self.seals(payload) && self.opens(payload));
        }
        match words::number(line, 6)? {
            1 => Some(
                self.refused(payload, short, Refusal::TooLong)
                    && self.refused(payload, 160, Refusal::TooLong),
            ),
            18 => Some(self.refused(payload, short, Refusal::NoRoom)),
            _ => None,
        }
    }
}

// Whether the entry of a line is as its last word says.
pub fn agrees(line: &[u8]) -> Option<bool> {
    let mut auth = [0u8; 160];
    let mut ciphertext = [0u8; 160];
    let mut mic = [0u8; 16];
    let key = exact::<16>(line, 0)?;
    let nonce = exact::<13>(line, 1)?;
    let a = field(line, 2, &mut auth).ok()?;
    let c = field(line, 4, &mut ciphertext).ok()?;
    let t = field(line, 5, &mut mic).ok()?;
    let level = level_of(t)?;
    if !words::is_last(line, 6) {
        return None;
    }
    let entry = Entry {
        level,
        key,
        nonce,
        auth: &auth[..a],
        ciphertext: &ciphertext[..c],
        mic,
    };
    entry.is_as_said(line)
}
