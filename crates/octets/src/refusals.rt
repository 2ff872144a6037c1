// The refusals, each with its number and its condition: the words of document 01's list and of document 02's.
ghost use Rattle.std.specs.Prelude.{◌≡◌, ◌<◌};
ghost use Rattle.octets.specs.Refusals.{number_of};

#[derive(Clone, Copy, PartialEq, Eq)]
pub enum Refusal {
    // a frame, or the bytes given to read a header or an auxiliary header, are more than 118; or authenticated data or a payload handed to CCM alone is more than 127
    TooLong = 1,
    // a header has fewer than 8 bytes
    ShortHeader = 2,
    // the frame type is 2
    FrameType = 3,
    // discovery is 3
    Discovery = 4,
    // fewer than 8 bytes remain for a destination IEEE
    DestinationIeee = 5,
    // fewer than 8 bytes remain for a source IEEE
    SourceIeee = 6,
    // no byte remains for multicast control
    Multicast = 7,
    // a source route has fewer than 2 + 2n bytes for its n relays, or fewer than 2
    SourceRoute = 8,
    // an auxiliary header has fewer than 6 bytes
    ShortAuxiliary = 9,
    // an auxiliary header with extended nonce has 6 to 12 bytes
    ShortExtended = 10,
    // an auxiliary header with extended nonce has exactly 13 bytes
    NoKeySequence = 11,
    // an unsecured payload, or a command to read, has more than 108 bytes
    Payload = 12,
    // a field to write exceeds its bits or has an undeclared code, or a list exceeds its places
    Field = 13,
    // sealing has no auxiliary header
    NoAuxiliary = 14,
    // sealing or opening has neither an auxiliary nor a header source IEEE
    NoIeee = 15,
    // ciphertext with MIC has fewer bytes than the tag
    NoMic = 16,
    // the bytes to write exceed 118 for a header or frame, or 108 for a payload, alone or in a frame
    Length = 17,
    // the lent output is shorter than what is to be written
    NoRoom = 18,
    // the MIC is not the one computed
    WrongMic = 19,
    // a burst has more than 16 lengths, they do not add up to the bytes lent, the output is shorter than 108 times their number, or the list for the answers is shorter than their number
    Burst = 20,
    // the counter to be sealed is FFFFFFFF
    LastCounter = 21,
    // the key sequence number is not the active one
    KeySequence = 22,
    // the frame counter is FFFFFFFF or not above the sender's stored one
    FrameCounter = 23,
    // the sender is new and no place is free, or a journal names more senders than 64 or than the list has places
    NoPlace = 24,
    // a record of a journal, or the one to be written, has a kind that is not 1 to 3
    JournalKind = 25,
    // the last counter is FFFFFFFE or above
    CountersUsedUp = 26,
    // no complete ceiling record of the journal covers the next counter
    NoCeiling = 27,
    // one of bits 8, 10, 11 and 12 of frame control disagrees with its field, or in sealing bit 9 is off or the extended nonce bit disagrees with the auxiliary IEEE
    PresenceBits = 28,
    // the network's level is not 5, 6 or 7
    Level = 29,
}

impl Refusal {
    // The number that an operation answers for it.
    pub fn number(self) -> u8
        ensures { (result ≡ number_of self) × (0 < result) }
    {
        self as u8
    }
}
