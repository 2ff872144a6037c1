// The shrunk journal, from what a pass gathered and the sorted senders.
ghost use Rattle.std.specs.Prelude.{◌≡◌, ◌+◌, ◌≤◌, length};
ghost use Rattle.std.specs.Option.{option_to_list};
ghost use Rattle.octets.specs.Strings.{over};
ghost use Rattle.journal.specs.Format.{bytes_of};
ghost use Rattle.journal.specs.Shrinking.{key_number_records, ceiling_records};
ghost use Rattle.journal.specs.Scan.{shrunk_of};

use crate::Recovery;
use crate::format::{JournalRecord, Kind};
use senders::SenderRecord;

// The key number's record, if there is one.
#[tactic(auto, unfolding(crate::specs::Shrinking::key_number_records))]
fn key_number_record(found: Recovery) -> Option<JournalRecord>
    ensures { option_to_list result ≡ key_number_records found.key_number }
{
    found.key_number.map(JournalRecord::KeyNumber)
}

// The ceiling's record, if it is above 0.
#[tactic(auto, unfolding(crate::specs::Shrinking::ceiling_records))]
fn ceiling_record(found: Recovery) -> Option<JournalRecord>
    ensures { option_to_list result ≡ ceiling_records found.ceiling }
{
    (found.ceiling != 0).then_some(JournalRecord::Ceiling(found.ceiling))
}

// The length of a record, or 0 if there is none.
fn length_of(record: Option<JournalRecord>) -> usize
    ensures length { result ≡ length (bytes_of (option_to_list «record»)) }
    ensures bound { result ≤ 13 }
{
    record.map_or(0, |r| r.length())
}

// Write a record at place i, if there is one, and give the place behind it.
#[tactic(auto, using(octets::proofs::Strings::over_nil))]
fn put_some(record: Option<JournalRecord>, out: &mut [u8], i: usize) -> usize
    requires { i + length (bytes_of (option_to_list «record»)) ≤ length out.old }
    ensures place { result ≡ i + length (bytes_of (option_to_list «record»)) }
    ensures out { out.new ≡ over out.old i (bytes_of (option_to_list «record»)) }
{
    match record {
        Some(r) => r.put(out, i),
        None => i,
    }
}

// The length of the shrunk journal.
pub fn shrunk_length(found: Recovery, senders: &[SenderRecord]) -> usize
    requires { length senders.now ≤ 64 }
    ensures { result ≡ length (bytes_of (shrunk_of found senders.now)) }
{
    let front = length_of(key_number_record(found)) + length_of(ceiling_record(found));
    front + Kind::Sender.length() * senders.len()
}

// Write the shrunk journal to the front of the output, and give its length.
pub fn put_shrunk(found: Recovery, senders: &[SenderRecord], out: &mut [u8]) -> usize
    requires { length (bytes_of (shrunk_of found senders.now)) ≤ length out.old }
    ensures length { result ≡ length (bytes_of (shrunk_of found senders.now)) }
    ensures out { out.new ≡ over out.old 0 (bytes_of (shrunk_of found senders.now)) }
{
    let behind = put_some(key_number_record(found), out, 0);
    let mut at = put_some(ceiling_record(found), out, behind);
    for r in senders {
        at = JournalRecord::Sender(r.address, r.counter).put(out, at);
    }
    at
}
