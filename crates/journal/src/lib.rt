// The journal by which counters survive a power loss (document 02, 6 and 7): recovering from it, writing its next record, the next
// outgoing counter that it covers, and shrinking it. Journals of every length and content are taken.
#![tactic(auto)]

ghost use Rattle.std.specs.Prelude.{◌≡◌, ◌≤◌, length};
ghost use Rattle.senders.specs.Senders.{counted};
ghost use Rattle.octets.specs.Writing.{told};
ghost use Rattle.journal.specs.Recovery.{anew, told_recovered, recover_answer, recovered_list};
ghost use Rattle.journal.specs.Writing.{write_record, told_next, next_counter};
ghost use Rattle.journal.specs.Shrinking.{shrink};

use format::{JournalRecord, Kind};
use octets::refusals::Refusal;
use scan::scan;
use senders::{COUNTED, SenderRecord, counted};
use shrunk::{put_shrunk, shrunk_length};
use table::Table;
use types::LAST_COUNTER;

mod format;
pub mod ranges;
mod scan;
mod shrunk;
mod table;

// What recovery takes from a journal beside its senders: the largest ceiling (0 if none), the last key number or none, and the length
// of the complete records.
#[derive(Clone, Copy)]
pub struct Recovery {
    pub ceiling: u32,
    pub key_number: Option<u8>,
    pub complete: usize,
}

// Fill a list anew with senders, zeros behind them.
fn fill(list: &mut [SenderRecord], senders: &[SenderRecord])
    requires { length senders.now ≤ counted (length list.old) }
    ensures { list.new ≡ anew 64 senders.now list.old }
{
    let n = senders.len();
    let places = counted(list.len());
    list[..n].copy_from_slice(senders);
    list[n..places].fill(SenderRecord::FREE);
}

// Recover from a journal: the largest ceiling, the last key number and the length of the complete records, and the list filled anew
// with each sender by first appearance and its last counter, zeros behind them; refusals 25 and 24.
#[tactic(auto, using(crate::proofs::Gathered::recover_unread, crate::proofs::Gathered::list_unread, crate::proofs::Gathered::recover_full, crate::proofs::Gathered::list_full, crate::proofs::Gathered::senders_fit, crate::proofs::Gathered::recover_all, crate::proofs::Gathered::list_all))]
pub fn recover(journal: &[u8], list: &mut [SenderRecord]) -> Result<Recovery, Refusal>
    ensures answer { told_recovered result ≡ recover_answer journal.now (length list.old) }
    ensures list { list.new ≡ recovered_list journal.now list.old }
{
    let mut table = Table::<COUNTED>::new();
    let found = scan(journal, counted(list.len()), &mut table)?;
    let senders = table.senders()?;
    fill(list, senders);
    Ok(found)
}

// Write a journal's next record, of a kind and those of the values that it takes, alone to the front of the output, and give its length;
// the host shortens the journal to its complete records and appends it. Refusals 25, 24 and 18.
#[tactic(auto, using(crate::proofs::Passing::within_fits, crate::proofs::Gathered::write_unread, crate::proofs::Gathered::out_unread, crate::proofs::Gathered::write_unknown, crate::proofs::Gathered::out_unknown, crate::proofs::Gathered::write_full, crate::proofs::Gathered::out_full, crate::proofs::Gathered::write_short, crate::proofs::Gathered::out_short, crate::proofs::Gathered::write_given, crate::proofs::Gathered::out_given))]
pub fn write_record(
    journal: &[u8],
    kind: u8,
    sender: u64,
    counter: u32,
    key_number: u8,
    out: &mut [u8],
) -> Result<usize, Refusal>
    ensures answer { told result ≡ (write_record journal.now kind sender counter key_number out.old).answer }
    ensures out { out.new ≡ (write_record journal.now kind sender counter key_number out.old).out }
{
    let mut table = Table::<COUNTED>::new();
    scan(journal, COUNTED, &mut table)?;
    let record = Kind::try_from(kind)?.record(sender, counter, key_number);
    table.apply(record);
    table.senders()?;
    if out.len() < record.length() {
        return Err(Refusal::NoRoom);
    }
    Ok(record.put(out, 0))
}

// The next outgoing counter behind the last one, if a ceiling of the journal covers it; refusals 25, 26 and 27.
#[tactic(auto, using(crate::proofs::Gathered::next_unread, crate::proofs::Gathered::next_used_up, crate::proofs::Gathered::next_uncovered, crate::proofs::Gathered::next_covered))]
pub fn next_counter(journal: &[u8], last: u32) -> Result<u32, Refusal>
    ensures { told_next result ≡ next_counter journal.now last }
{
    let found = scan(journal, 0, &mut Table::<0>::new())?;
    if LAST_COUNTER - 1 <= last {
        return Err(Refusal::CountersUsedUp);
    }
    if found.ceiling <= last {
        return Err(Refusal::NoCeiling);
    }
    Ok(last + 1)
}

// Write the shortest journal that recovers to the same to the front of a second output, and give its length: the key number, if there
// is one, the ceiling, if it is above 0, and the senders by rising address bytes. Refusals 25, 24 and 18.
#[tactic(auto, using(crate::proofs::Shrinks::shrink_unread, crate::proofs::Shrinks::out_unread, crate::proofs::Shrinks::shrink_full, crate::proofs::Shrinks::out_full, crate::proofs::Shrinks::shrink_short, crate::proofs::Shrinks::out_short, crate::proofs::Shrinks::shrink_given, crate::proofs::Shrinks::out_given))]
pub fn shrink(journal: &[u8], out: &mut [u8]) -> Result<usize, Refusal>
    ensures answer { told result ≡ (shrink journal.now out.old).answer }
    ensures out { out.new ≡ (shrink journal.now out.old).out }
{
    let mut table = Table::<COUNTED>::new();
    let found = scan(journal, COUNTED, &mut table)?;
    table.sort();
    let senders = table.senders()?;
    if out.len() < shrunk_length(found, senders) {
        return Err(Refusal::NoRoom);
    }
    Ok(put_shrunk(found, senders, out))
}
