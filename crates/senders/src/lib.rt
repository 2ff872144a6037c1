// The inbound frame counters of at most 64 senders, in a list of records that the host lends (document 02, 5): the port of
// `inbound_network_key` and `note_inbound_frame_counter`, and forgetting a sender. Over C the list is an array of these records, and
// not bytes.
#![tactic(auto)]

ghost use Rattle.std.specs.Prelude.{◌≡◌, ◌<◌, min, length, position, take, IfSome};
ghost use Rattle.senders.specs.Records.{is_free, names, record_of};
ghost use Rattle.senders.specs.Senders.{counted, found, told_asked, inbound_network_key, told_noted, note, forget};

use octets::refusals::Refusal;
use types::{Key, LAST_COUNTER};

// How many places of a list count. A place past them is never read or changed.
pub const COUNTED: usize = 64;

// A place of the list. Without the mark, which is any number but 0, it is free and names nobody.
#[repr(C)]
#[derive(Clone, Copy)]
pub struct SenderRecord {
    pub address: u64,
    pub counter: u32,
    pub used: u8,
}

impl SenderRecord {
    // A free place, all zeros.
    pub const FREE: SenderRecord = SenderRecord {
        address: 0,
        counter: 0,
        used: 0,
    };

    // The record of a sender and its counter.
    pub fn new(sender: u64, counter: u32) -> SenderRecord
        ensures { result ≡ record_of sender counter }
    {
        SenderRecord {
            address: sender,
            counter,
            used: 1,
        }
    }

    // Whether it is free.
    pub fn is_free(&self) -> bool
        ensures { result ≡ is_free self.now }
    {
        self.used == 0
    }

    // Whether it names a sender.
    pub fn names(&self, sender: u64) -> bool
        ensures { result ≡ names sender self.now }
    {
        !self.is_free() && self.address == sender
    }
}

// What a list says of a sender: the first counted place whose record names it, else the first free place, if there is one; and
// that record's counter.
#[derive(Clone, Copy)]
pub struct Found {
    pub place: Option<usize>,
    pub counter: Option<u32>,
}

// How many places of a list of n count.
#[tactic(auto, unfolding(crate::specs::Senders::counted))]
pub fn counted(n: usize) -> usize
    ensures counted { result ≡ counted n }
    ensures least { result ≡ min n COUNTED }
{
    n.min(COUNTED)
}

// The place of the first counted record that names a sender.
fn known_place(list: &[SenderRecord], sender: u64) -> Option<usize>
    ensures place { result ≡ position (names sender) (take COUNTED list.now) }
    ensures counted { IfSome result (λ i. i < min (length list.now) COUNTED) }
{
    list.iter().take(COUNTED).position(|r| r.names(sender))
}

// The first free place that counts.
fn free_place(list: &[SenderRecord]) -> Option<usize>
    ensures place { result ≡ position is_free (take COUNTED list.now) }
    ensures counted { IfSome result (λ i. i < min (length list.now) COUNTED) }
{
    list.iter().take(COUNTED).position(|r| r.is_free())
}

// What a list says of a sender.
#[tactic(auto, using(crate::proofs::Finding::found_known, crate::proofs::Finding::found_unknown))]
pub fn find(list: &[SenderRecord], sender: u64) -> Found
    ensures found { result ≡ found sender list.now }
    ensures counted { IfSome result.place (λ i. i < min (length list.now) COUNTED) }
{
    match known_place(list, sender) {
        Some(i) => Found {
            place: Some(i),
            counter: Some(list[i].counter),
        },
        None => Found {
            place: free_place(list),
            counter: None,
        },
    }
}

// The active key for a frame of this sender, key sequence number and counter (`inbound_network_key`); refusals 22 and 23.
#[tactic(auto, unfolding(crate::specs::Senders::inbound_network_key, crate::specs::Senders::asked_by, crate::specs::Senders::ask_refusal, crate::specs::Senders::found, octets::specs::Refusals::first_of, octets::specs::Refusals::unless))]
pub fn inbound_network_key(
    key: Key,
    active: u8,
    list: &[SenderRecord],
    sender: u64,
    key_sequence_number: u8,
    counter: u32,
) -> Result<Key, Refusal>
    ensures { told_asked result ≡ inbound_network_key key active list.now sender key_sequence_number counter }
{
    if key_sequence_number != active {
        return Err(Refusal::KeySequence);
    }
    let stored = find(list, sender).counter;
    if counter == LAST_COUNTER || stored.is_some_and(|x| counter <= x) {
        return Err(Refusal::FrameCounter);
    }
    Ok(key)
}

// Note a sender's counter (`note_inbound_frame_counter`), over its first record or else in the first free place, and give its earlier
// one; refusal 24.
#[tactic(auto, using(crate::proofs::Finding::noted_answer, crate::proofs::Finding::noted_list, crate::proofs::Finding::noted_nowhere))]
pub fn note(list: &mut [SenderRecord], sender: u64, counter: u32) -> Result<Option<u32>, Refusal>
    ensures answer { told_noted result ≡ (note sender counter list.old).answer }
    ensures list { list.new ≡ (note sender counter list.old).list }
{
    let found = find(list, sender);
    let Some(place) = found.place else {
        return Err(Refusal::NoPlace);
    };
    list[place] = SenderRecord::new(sender, counter);
    Ok(found.counter)
}

// Forget a sender: every counted place that names it is left free, all zeros.
#[tactic(auto, using(crate::proofs::Forgetting::forgotten_none, crate::proofs::Forgetting::forgotten_own, crate::proofs::Forgetting::forgotten_other, crate::proofs::Forgetting::forgotten_counted))]
pub fn forget(list: &mut [SenderRecord], sender: u64)
    ensures { list.new ≡ forget sender list.old }
{
    let n = counted(list.len());
    for r in list[..n].iter_mut() {
        if r.names(sender) {
            *r = SenderRecord::FREE;
        }
    }
}
