// Recovering from a journal, writing its next record, the next outgoing counter that it covers, and shrinking it.
ghost use Rattle.std.specs.Prelude.{◌≡◌, ◌<◌, ◌^◌, length};
ghost use Rattle.journal.specs.Recovery.{recover_answer, recovered_list};
ghost use Rattle.journal.specs.Writing.{write_record, next_counter};
ghost use Rattle.journal.specs.Shrinking.{shrink};
ghost use Rattle.nwk.specs.Recovery.{key_number_bits, recovered_answer, complete_left, written_answer, next_answer};

use crate::answer::answer;
use senders::SenderRecord;

// Bit 41 set and the key number in bits 48 to 55, or 0 if there is none.
fn key_number_bits(key_number: Option<u8>) -> u64
    ensures { (result ≡ key_number_bits key_number) × (result < 2 ^ 56) }
{
    match key_number {
        None => 0,
        Some(k) => 0x200_0000_0000 + u64::from(k) * 0x1_0000_0000_0000,
    }
}

// Recover from a journal: the ceiling and the key number in the answer, the list filled anew, and the length of the complete records;
// refusals 25 and 24.
#[tactic(auto, unfolding(crate::specs::Recovery::recovered_answer, crate::specs::Recovery::complete_left, octets::specs::Refusals::unless))]
pub fn nwk_recover_journal(journal: &[u8], list: &mut [SenderRecord], complete: &mut u64) -> u64
    ensures { (result ≡ recovered_answer (recover_answer journal.now (length list.old))) × ((list.new ≡ recovered_list journal.now list.old) × (complete.new ≡ complete_left (recover_answer journal.now (length list.old)) complete.old)) }
{
    match journal::recover(journal, list) {
        Ok(found) => {
            *complete = found.complete as u64;
            u64::from(found.ceiling) + key_number_bits(found.key_number)
        }
        Err(refusal) => answer(Err(refusal)),
    }
}

// Write a journal's next record, of a kind and those of the values that it takes, alone to the front of the output; refusals 25, 24
// and 18.
pub fn nwk_write_journal_record(
    journal: &[u8],
    kind: u8,
    sender: u64,
    counter: u32,
    key_number: u8,
    out: &mut [u8],
) -> u64
    ensures answer { result ≡ written_answer (write_record journal.now kind sender counter key_number out.old).answer }
    ensures out { out.new ≡ (write_record journal.now kind sender counter key_number out.old).out }
{
    answer(journal::write_record(journal, kind, sender, counter, key_number, out))
}

// The next outgoing counter behind the last one, in the length's place; refusals 25, 26 and 27.
pub fn nwk_next_counter(journal: &[u8], last: u32) -> u64
    ensures { result ≡ next_answer (next_counter journal.now last) }
{
    answer(journal::next_counter(journal, last).map(|next| next as usize))
}

// Shrink a journal into a second output, of which the front is then the shortest journal that recovers to the same; refusals 25, 24
// and 18.
pub fn nwk_shrink_journal(journal: &[u8], out: &mut [u8]) -> u64
    ensures answer { result ≡ written_answer (shrink journal.now out.old).answer }
    ensures out { out.new ≡ (shrink journal.now out.old).out }
{
    answer(journal::shrink(journal, out))
}
