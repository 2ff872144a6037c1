// What sealing and opening share: nonce and authenticated bytes (Zigbee Specification 4.3.1.1, 4.5.2).
ghost use Rattle.std.specs.Prelude.{◌≡◌, ◌+◌, ◌≤◌, ◌<◌, length, take};
ghost use Rattle.header.specs.Auxiliary.{aux_bytes};
ghost use Rattle.header.specs.Writing.{header_bytes};
ghost use Rattle.frame.specs.Security.{field_level, at_level, nonce_ieee, nonce, authenticated};

use header::auxiliary::{NwkAuxHeader, NwkSecurityLevel};
use header::nwk::NwkHeader;
use types::level::Level;

// The network's level as the security control field has it.
pub fn field_level(level: Level) -> NwkSecurityLevel
    ensures { result ≡ field_level level }
{
    match level {
        Level::EncMic32 => NwkSecurityLevel::EncMic32,
        Level::EncMic64 => NwkSecurityLevel::EncMic64,
        Level::EncMic128 => NwkSecurityLevel::EncMic128,
        Level::Other => NwkSecurityLevel::NoSecurity,
    }
}

// The auxiliary header with another level.
#[tactic(auto, unfolding(crate::specs::Security::at_level))]
pub fn at_level(aux: NwkAuxHeader, level: NwkSecurityLevel) -> NwkAuxHeader
    ensures { result ≡ at_level level aux }
{
    NwkAuxHeader {
        security_control: aux.security_control.with_level(level),
        ..aux
    }
}

// The two headers of a sealed frame.
#[derive(Clone, Copy)]
pub struct Headers {
    pub header: NwkHeader,
    pub aux: NwkAuxHeader,
}

impl Headers {
    // The nonce's IEEE: the auxiliary one, else the header's source.
    pub fn nonce_ieee(self) -> Option<u64>
        ensures { result ≡ nonce_ieee self.aux.extended_source self.header.source_ieee }
    {
        self.aux.extended_source.or(self.header.source_ieee)
    }

    // The nonce, with the network's level: address, counter and control, one behind the other.
    pub fn nonce(self, level: Level) -> [u8; 13]
        ensures { result ≡ nonce level self.header self.aux }
    {
        let control = self.aux.security_control.with_level(field_level(level));
        let mut nonce = [0u8; 13];
        octets::put_u64(&mut nonce, 0, self.nonce_ieee().unwrap_or(0));
        octets::put_u32(&mut nonce, 8, self.aux.frame_counter);
        octets::put_u8(&mut nonce, 12, control.to_byte());
        nonce
    }

    // How many bytes the two headers take.
    pub fn size(self) -> usize
        ensures { (result ≡ length (header_bytes self.header) + length (aux_bytes self.aux)) × (result < 2048) }
    {
        self.header.size() + self.aux.size()
    }

    // The authenticated bytes, both headers with the network's level, at the front of a frame's places; the header's are given.
    #[tactic(auto, unfolding(crate::specs::Security::authenticated), using(crate::proofs::Levels::level_length, crate::proofs::Levels::front_taken, octets::proofs::Strings::over_over))]
    pub fn authenticated(self, level: Level, front: &[u8]) -> [u8; 118]
        requires { (front.now ≡ header_bytes self.header) × (length (header_bytes self.header) + length (aux_bytes self.aux) ≤ 118) }
        ensures { take (length (header_bytes self.header) + length (aux_bytes self.aux)) result ≡ authenticated level self.header self.aux }
    {
        let mut bytes = [0u8; 118];
        octets::copy_at(&mut bytes, 0, front);
        at_level(self.aux, field_level(level)).put(&mut bytes, front.len());
        bytes
    }
}
