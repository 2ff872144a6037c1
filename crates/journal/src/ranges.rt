// Support for proofs: what every record has.
ghost use Rattle.journal.specs.Claims.{Fits};

use crate::format::JournalRecord;

// Every record is within its types' ranges: the premise of the claims about records.
pub fn record_fits(r: JournalRecord)
    ensures { Fits r }
{
    match r {
        JournalRecord::Ceiling(_ceiling) => {}
        JournalRecord::Sender(_sender, _counter) => {}
        JournalRecord::KeyNumber(_key_number) => {}
    }
}
