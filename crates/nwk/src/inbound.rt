// Asking for the key of a frame, noting its counter, and forgetting a sender, over a list of senders that the host lends.
ghost use Rattle.std.specs.Prelude.{◌≡◌};
ghost use Rattle.senders.specs.Senders.{note, forget};
ghost use Rattle.nwk.specs.Answer.{answer};
ghost use Rattle.nwk.specs.Inbound.{asked, asked_answer, key_left, noted_answer};

use crate::answer::answer;
use senders::SenderRecord;
use types::Key;

// The active key for a frame of this sender, key sequence number and counter; refusals 22 and 23. The list is left as it was.
#[tactic(auto, unfolding(crate::specs::Inbound::asked_answer, crate::specs::Inbound::key_left, octets::specs::Refusals::unless, senders::specs::Senders::ask_refused))]
pub fn nwk_inbound_network_key(
    key_first: u64,
    key_second: u64,
    active: u8,
    list: &mut [SenderRecord],
    sender: u64,
    key_sequence_number: u8,
    frame_counter: u32,
    key: &mut [u8; 16],
) -> u64
    ensures { (result ≡ asked_answer (asked key_first key_second active list.old sender key_sequence_number frame_counter)) × ((key.new ≡ key_left (asked key_first key_second active list.old sender key_sequence_number frame_counter) key.old) × (list.new ≡ list.old)) }
{
    match senders::inbound_network_key(
        Key::from_halves(key_first, key_second),
        active,
        list,
        sender,
        key_sequence_number,
        frame_counter,
    ) {
        Ok(active_key) => {
            let bytes = active_key.0;
            *key = bytes;
            answer(Ok(16))
        }
        Err(refusal) => answer(Err(refusal)),
    }
}

// Note a sender's counter, over its first record or in the first free place; refusal 24. The earlier counter is in the length's place,
// with bit 41 set.
pub fn nwk_note_inbound_frame_counter(
    list: &mut [SenderRecord],
    sender: u64,
    frame_counter: u32,
) -> u64
    ensures { (result ≡ noted_answer (note sender frame_counter list.old).answer) × (list.new ≡ (note sender frame_counter list.old).list) }
{
    match senders::note(list, sender, frame_counter) {
        Ok(Some(earlier)) => u64::from(earlier) + 0x200_0000_0000,
        Ok(None) => answer(Ok(0)),
        Err(refusal) => answer(Err(refusal)),
    }
}

// Forget a sender: every counted place that names it is left free, all zeros. Nothing is refused.
pub fn nwk_forget_sender(list: &mut [SenderRecord], sender: u64) -> u64
    ensures { (result ≡ answer 0 0) × (list.new ≡ forget sender list.old) }
{
    senders::forget(list, sender);
    answer(Ok(0))
}
