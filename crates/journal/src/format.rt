// A record of the journal: one kind byte and a body of the length that the kind fixes.
ghost use Rattle.std.specs.Prelude.{◌≡◌, ◌+◌, ◌≤◌, length, drop, MatchOption};
ghost use Rattle.octets.specs.Strings.{over};
ghost use Rattle.journal.specs.Format.{body_length, record_bytes};
ghost use Rattle.journal.specs.Writing.{record_of_kind};
ghost use Rattle.journal.specs.Scan.{kind_of, byte_of, kind_in, first_record};

use octets::refusals::Refusal;
use octets::{byte_at, put_u8, put_u32, put_u64, read_u32, read_u64};

// The kinds, by their bytes.
#[derive(Clone, Copy)]
pub enum Kind {
    Ceiling = 1,
    Sender = 2,
    KeyNumber = 3,
}

impl TryFrom<u8> for Kind {
    type Error = Refusal;

    ghost try_from_gives = { λ byte kind. kind ≡ kind_of byte };

    fn try_from(byte: u8) -> Result<Kind, Refusal> {
        match byte {
            1 => Ok(Kind::Ceiling),
            2 => Ok(Kind::Sender),
            3 => Ok(Kind::KeyNumber),
            _ => Err(Refusal::JournalKind),
        }
    }
}

impl Kind {
    // Its byte.
    pub fn byte(self) -> u8
        ensures { result ≡ byte_of self }
    {
        self as u8
    }

    // The length of the body that it fixes.
    #[tactic(auto, unfolding(crate::specs::Format::body_length))]
    pub fn body_length(self) -> usize
        ensures length { result ≡ body_length (byte_of self) }
        ensures bound { result ≤ 12 }
    {
        match self {
            Kind::Ceiling => 4,
            Kind::Sender => 12,
            Kind::KeyNumber => 1,
        }
    }

    // The length of a record, the kind byte counted.
    pub fn length(self) -> usize
        ensures length { result ≡ 1 + body_length (byte_of self) }
        ensures bound { result ≤ 13 }
    {
        1 + self.body_length()
    }

    // The record of a kind, by those of the values that it takes.
    #[tactic(auto, unfolding(crate::specs::Writing::record_of_kind))]
    pub fn record(self, sender: u64, counter: u32, key_number: u8) -> JournalRecord
        ensures { result ≡ record_of_kind (byte_of self) sender counter key_number }
    {
        match self {
            Kind::Ceiling => JournalRecord::Ceiling(counter),
            Kind::Sender => JournalRecord::Sender(sender, counter),
            Kind::KeyNumber => JournalRecord::KeyNumber(key_number),
        }
    }
}

// A ceiling; a sender, its first wire byte lowest, and its counter; an active key number.
#[derive(Clone, Copy)]
pub enum JournalRecord {
    Ceiling(u32),
    Sender(u64, u32),
    KeyNumber(u8),
}

impl JournalRecord {
    // Its kind.
    pub fn kind(self) -> Kind
        ensures { result ≡ kind_in self }
    {
        match self {
            JournalRecord::Ceiling(_) => Kind::Ceiling,
            JournalRecord::Sender(_, _) => Kind::Sender,
            JournalRecord::KeyNumber(_) => Kind::KeyNumber,
        }
    }

    // Its length.
    #[tactic(auto, unfolding(crate::specs::Format::record_bytes, crate::specs::Format::body_length, octets::specs::Numbers::le))]
    pub fn length(self) -> usize
        ensures length { result ≡ length (record_bytes self) }
        ensures bound { result ≤ 13 }
    {
        self.kind().length()
    }

    // The record at the front and the bytes behind it, if a complete one of a known kind stands there. A pass does nothing else in its
    // loop, so it is compiled into it.
    #[tactic(auto, unfolding(crate::specs::Scan::first_record, crate::specs::Format::record_at, crate::specs::Format::body_length, crate::specs::Format::record_bytes, octets::specs::Numbers::le))]
    #[inline(always)]
    pub fn read(bytes: &[u8]) -> Option<(JournalRecord, &[u8])>
        ensures { MatchOption result (first_record bytes.now ≡ None) (λ p. (first_record bytes.now ≡ Some p.0) × (p.1.now ≡ drop (length (record_bytes p.0)) bytes.now)) }
    {
        let kind = Kind::try_from(*bytes.first()?).ok()?;
        let behind = bytes.get(kind.length()..)?;
        let record = match kind {
            Kind::Ceiling => JournalRecord::Ceiling(read_u32(bytes, 1)),
            Kind::Sender => JournalRecord::Sender(read_u64(bytes, 1), read_u32(bytes, 9)),
            Kind::KeyNumber => JournalRecord::KeyNumber(byte_at(bytes, 1)),
        };
        Some((record, behind))
    }

    // Write it at place i, and give the place behind it.
    #[tactic(auto, unfolding(crate::specs::Format::record_bytes, octets::specs::Numbers::le))]
    pub fn put(self, out: &mut [u8], i: usize) -> usize
        requires { i + length (record_bytes self) ≤ length out.old }
        ensures place { result ≡ i + length (record_bytes self) }
        ensures out { out.new ≡ over out.old i (record_bytes self) }
    {
        put_u8(out, i, self.kind().byte());
        match self {
            JournalRecord::Ceiling(ceiling) => put_u32(out, i + 1, ceiling),
            JournalRecord::Sender(sender, counter) => {
                put_u64(out, i + 1, sender);
                put_u32(out, i + 9, counter);
            }
            JournalRecord::KeyNumber(key_number) => put_u8(out, i + 1, key_number),
        }
        i + self.length()
    }
}
