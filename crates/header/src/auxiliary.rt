// The auxiliary header (Zigbee Specification 4.5.1).
ghost use Rattle.std.specs.Prelude.{◌≡◌, ℕ, ◌+◌, ◌≤◌, ◌<◌, length, IfOk};
ghost use Rattle.octets.specs.Strings.{over};
ghost use Rattle.octets.specs.Refusals.{refused};
ghost use Rattle.octets.specs.Writing.{told};
ghost use Rattle.header.specs.AuxiliaryControl.{level_code, level_of, key_id_code, key_id_of, security_byte, security_of, with_level};
ghost use Rattle.header.specs.Auxiliary.{key_sequence_at, aux_refusal, aux_by, blank_aux, told_aux, read_aux, aux_bytes, write_aux};
ghost use Rattle.header.specs.Same.{aux_agrees};

use crate::nwk::MAX_MAC_PAYLOAD_SIZE;
use octets::bit_of;
use octets::refusals::Refusal;

// Which key secured the frame.
#[derive(Clone, Copy, PartialEq, Eq)]
pub enum NwkSecurityHeaderKeyId {
    DataKey = 0,
    NetworkKey = 1,
    KeyTransportKey = 2,
    KeyLoadKey = 3,
}

// The security level. A frame is sent with NoSecurity here and secured with the network's level.
#[derive(Clone, Copy, PartialEq, Eq)]
pub enum NwkSecurityLevel {
    NoSecurity = 0,
    Mic32 = 1,
    Mic64 = 2,
    Mic128 = 3,
    Enc = 4,
    EncMic32 = 5,
    EncMic64 = 6,
    EncMic128 = 7,
}

// The security control field, bits 0 to 6 in this order; bit 7 is not kept.
#[derive(Clone, Copy, PartialEq, Eq)]
pub struct NwkSecurityHeaderControlField {
    pub security_level: NwkSecurityLevel,
    pub key_id: NwkSecurityHeaderKeyId,
    pub extended_nonce: bool,
    pub require_verified_frame_counter: bool,
}

// An auxiliary header.
#[derive(Clone, Copy, PartialEq, Eq)]
pub struct NwkAuxHeader {
    pub security_control: NwkSecurityHeaderControlField,
    pub frame_counter: u32,
    pub extended_source: Option<u64>,
    pub key_sequence_number: u8,
}

impl NwkSecurityLevel {
    // The level's code.
    pub fn code(self) -> u8
        ensures { (result ≡ level_code self) × (result < 8) }
    {
        self as u8
    }

    // The level of a code below 8.
    pub fn from_code(code: u8) -> NwkSecurityLevel
        ensures { result ≡ level_of code }
    {
        match code {
            0 => NwkSecurityLevel::NoSecurity,
            1 => NwkSecurityLevel::Mic32,
            2 => NwkSecurityLevel::Mic64,
            3 => NwkSecurityLevel::Mic128,
            4 => NwkSecurityLevel::Enc,
            5 => NwkSecurityLevel::EncMic32,
            6 => NwkSecurityLevel::EncMic64,
            _ => NwkSecurityLevel::EncMic128,
        }
    }
}

impl NwkSecurityHeaderKeyId {
    // The key identifier's code.
    pub fn code(self) -> u8
        ensures { (result ≡ key_id_code self) × (result < 4) }
    {
        self as u8
    }

    // The key identifier of a code below 4.
    pub fn from_code(code: u8) -> NwkSecurityHeaderKeyId
        ensures { result ≡ key_id_of code }
    {
        match code {
            0 => NwkSecurityHeaderKeyId::DataKey,
            1 => NwkSecurityHeaderKeyId::NetworkKey,
            2 => NwkSecurityHeaderKeyId::KeyTransportKey,
            _ => NwkSecurityHeaderKeyId::KeyLoadKey,
        }
    }
}

impl NwkSecurityHeaderControlField {
    // The field of a byte; its bit 7 is skipped.
    #[tactic(auto, unfolding(crate::specs::AuxiliaryControl::security_of, octets::specs::Fields::fields))]
    pub fn from_byte(b: u8) -> NwkSecurityHeaderControlField
        ensures { result ≡ security_of b }
    {
        let key_id = b / 8;
        let extended_nonce = key_id / 4;
        let verified = extended_nonce / 2;
        NwkSecurityHeaderControlField {
            security_level: NwkSecurityLevel::from_code(b % 8),
            key_id: NwkSecurityHeaderKeyId::from_code(key_id % 4),
            extended_nonce: extended_nonce % 2 == 1,
            require_verified_frame_counter: verified % 2 == 1,
        }
    }

    // The field's byte; its bit 7 is 0.
    #[tactic(auto, unfolding(crate::specs::AuxiliaryControl::security_byte, octets::specs::Fields::packed))]
    pub fn to_byte(self) -> u8
        ensures { (result ≡ security_byte self) × (result < 128) }
    {
        let verified = bit_of(self.require_verified_frame_counter);
        let extended_nonce = bit_of(self.extended_nonce) + verified * 2;
        self.security_level.code() + (self.key_id.code() + extended_nonce * 4) * 8
    }

    // The same field with another level.
    #[tactic(auto, unfolding(crate::specs::AuxiliaryControl::with_level))]
    pub fn with_level(self, level: NwkSecurityLevel) -> NwkSecurityHeaderControlField
        ensures { result ≡ with_level self level }
    {
        NwkSecurityHeaderControlField {
            security_level: level,
            ..self
        }
    }

    // Where the key sequence number stands.
    #[tactic(auto, unfolding(crate::specs::Auxiliary::key_sequence_at))]
    fn key_sequence_at(self) -> usize
        ensures { (result ≡ key_sequence_at self) × (result ≤ 13) }
    {
        5 + 8 * usize::from(bit_of(self.extended_nonce))
    }
}

impl NwkAuxHeader {
    // The auxiliary header of zeros that stands beside a refusal.
    #[tactic(auto, unfolding(crate::specs::Auxiliary::blank_aux, crate::specs::Auxiliary::aux_by, crate::specs::Auxiliary::key_sequence_at, crate::specs::AuxiliaryControl::security_of, octets::specs::Fields::fields, octets::specs::Numbers::le_at))]
    pub fn blank() -> NwkAuxHeader
        ensures { result ≡ blank_aux }
    {
        NwkAuxHeader {
            security_control: NwkSecurityHeaderControlField::from_byte(0),
            frame_counter: 0,
            extended_source: None,
            key_sequence_number: 0,
        }
    }

    // The fields at their places.
    #[tactic(auto, unfolding(crate::specs::Auxiliary::aux_by))]
    fn fields(f: &[u8], c: NwkSecurityHeaderControlField) -> NwkAuxHeader
        ensures { result ≡ aux_by f.now c }
    {
        NwkAuxHeader {
            security_control: c,
            frame_counter: octets::read_u32(f, 1),
            extended_source: c.extended_nonce.then_some(octets::read_u64(f, 5)),
            key_sequence_number: octets::byte_at(f, c.key_sequence_at()),
        }
    }

    // Read an auxiliary header from the front of the bytes, and how many it takes; refusals 1, 9, 10 and 11.
    #[tactic(auto, unfolding(crate::specs::Auxiliary::read_aux, crate::specs::Auxiliary::aux_refusal, octets::specs::Refusals::first_of, octets::specs::Refusals::unless))]
    pub fn deserialize(bytes: &[u8]) -> Result<(NwkAuxHeader, usize), Refusal>
        ensures answer { told_aux result ≡ read_aux bytes.now }
        ensures within { IfOk result (λ (r : NwkAuxHeader × ℕ). r.1 ≤ length bytes.now) }
    {
        let n = bytes.len();
        if MAX_MAC_PAYLOAD_SIZE < n {
            return Err(Refusal::TooLong);
        }
        if n < 6 {
            return Err(Refusal::ShortAuxiliary);
        }
        let control = NwkSecurityHeaderControlField::from_byte(bytes[0]);
        let key_sequence_at = control.key_sequence_at();
        if n < key_sequence_at {
            return Err(Refusal::ShortExtended);
        }
        if n == key_sequence_at {
            return Err(Refusal::NoKeySequence);
        }
        Ok((NwkAuxHeader::fields(bytes, control), key_sequence_at + 1))
    }

    // Whether the extended nonce bit is set exactly when there is an IEEE. Writing does not look at it, sealing does.
    #[tactic(auto, unfolding(crate::specs::Same::aux_agrees))]
    pub fn agrees(self) -> bool
        ensures { result ≡ aux_agrees self }
    {
        self.security_control.extended_nonce == self.extended_source.is_some()
    }

    // How many bytes the auxiliary header takes.
    #[tactic(auto, using(crate::proofs::AuxiliaryLaws::aux_length, crate::proofs::OptionalFields::ieee_length))]
    pub fn size(self) -> usize
        ensures { (result ≡ length (aux_bytes self)) × (result ≤ 14) }
    {
        6 + types::ieee_size(self.extended_source)
    }

    // Write the auxiliary header at place i of an output that has room for it.
    #[tactic(auto, unfolding(crate::specs::Auxiliary::aux_bytes), using(crate::proofs::AuxiliaryLaws::aux_length, crate::proofs::OptionalFields::ieee_length, octets::proofs::Numbers::length_le, octets::proofs::Strings::over_over))]
    pub fn put(self, out: &mut [u8], i: usize)
        requires { i + length (aux_bytes self) ≤ length out.old }
        ensures { out.new ≡ over out.old i (aux_bytes self) }
    {
        octets::put_u8(out, i, self.security_control.to_byte());
        octets::put_u32(out, i + 1, self.frame_counter);
        let key_sequence = types::put_ieee(self.extended_source, out, i + 5);
        octets::put_u8(out, key_sequence, self.key_sequence_number);
    }

    // Write the auxiliary header to the front of the output, and give its length; of the refusals 13, 17 and 18 it can meet 18 alone,
    // which changes nothing.
    #[tactic(auto, unfolding(crate::specs::Auxiliary::write_aux, crate::specs::Auxiliary::aux_write_refusal, octets::specs::Writing::written, octets::specs::Refusals::first_of, octets::specs::Refusals::unless))]
    pub fn serialize(self, out: &mut [u8]) -> Result<usize, Refusal>
        ensures answer { told result ≡ (write_aux self out.old).answer }
        ensures buffer { out.new ≡ (write_aux self out.old).out }
    {
        let size = self.size();
        if out.len() < size {
            return Err(Refusal::NoRoom);
        }
        self.put(out, 0);
        Ok(size)
    }
}
