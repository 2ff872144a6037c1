// One pass over a journal, record by record.
ghost use Rattle.std.specs.Prelude.{◌≡◌, ◌≤◌, [], OnOk};
ghost use Rattle.journal.specs.Recovery.{state_of};
ghost use Rattle.journal.specs.Scan.{within, gathered};

use crate::Recovery;
use crate::format::{JournalRecord, Kind};
use crate::table::Table;
use octets::refusals::Refusal;

// The pass. It is compiled into both of its calls, so that in one of them the compiler knows how many places may be filled.
#[tactic(auto, using(crate::proofs::Passing::reached_none, crate::proofs::Whole::front_shorter, crate::proofs::Passing::reached_ceiling, crate::proofs::Passing::reached_sender, crate::proofs::Passing::reached_fits, crate::proofs::Passing::reached_key_number))]
#[inline(always)]
fn pass<const N: usize>(
    journal: &[u8],
    room: usize,
    table: &mut Table<N>,
) -> Result<Recovery, Refusal>
    requires { (table.old ≡ Some []) × (room ≤ N) }
    ensures answer { result ≡ gathered journal.now }
    ensures senders { OnOk result (table.new ≡ within room (state_of journal.now).senders) }
{
    let mut ceiling = 0u32;
    let mut key_number = None;
    let mut rest = journal;
    while let Some((record, behind)) = JournalRecord::read(rest) {
        match record {
            JournalRecord::Ceiling(c) => ceiling = ceiling.max(c),
            JournalRecord::Sender(sender, counter) => table.keep(room, sender, counter),
            JournalRecord::KeyNumber(k) => key_number = Some(k),
        }
        rest = behind;
    }
    if let [kind, ..] = rest {
        Kind::try_from(*kind)?;
    }
    Ok(Recovery {
        ceiling,
        key_number,
        complete: journal.len() - rest.len(),
    })
}

// Go over a journal, keeping its senders, up to so many, in a table that has none; refusal 25.
pub fn scan<const N: usize>(
    journal: &[u8],
    room: usize,
    table: &mut Table<N>,
) -> Result<Recovery, Refusal>
    requires { (table.old ≡ Some []) × (room ≤ N) }
    ensures answer { result ≡ gathered journal.now }
    ensures senders { OnOk result (table.new ≡ within room (state_of journal.now).senders) }
{
    if room < N {
        return pass(journal, room, table);
    }
    pass(journal, N, table)
}
