// The auxiliary record, 19 bytes.
ghost use Rattle.std.specs.Prelude.{◌≡◌, ◌≤◌, length};
ghost use Rattle.octets.specs.Strings.{over};
ghost use Rattle.records.specs.AuxiliaryRecord.{security_record, counter_record, aux_record, security_at, aux_of, aux_present, bad_aux_record};

use crate::limits::exceeds;
use crate::optional::{ieee_in, put_ieee};
use header::auxiliary::{
    NwkAuxHeader, NwkSecurityHeaderControlField, NwkSecurityHeaderKeyId, NwkSecurityLevel,
};

pub const AUX_RECORD_SIZE: usize = 19;

// The greatest value of each byte from 0 to 9.
const AUX_LIMITS: [u8; 10] = [1, 7, 3, 1, 1, 255, 255, 255, 255, 1];

// Whether the record has another length or a byte that a field cannot take (refusal 13). Where the presence byte is 0 there
// is no field to take one.
#[tactic(auto, using(crate::proofs::Refused::aux_length, crate::proofs::Refused::aux_absent, crate::proofs::Refused::aux_rest))]
pub fn is_bad(bytes: &[u8]) -> bool
    ensures { result ≡ bad_aux_record bytes.now }
{
    if bytes.len() != AUX_RECORD_SIZE {
        return true;
    }
    if bytes[0] == 0 {
        return false;
    }
    exceeds(&AUX_LIMITS, bytes)
}

// Write the presence byte and the security control's four bytes at the front.
fn put_security(out: &mut [u8], present: bool, c: NwkSecurityHeaderControlField)
    requires { 5 ≤ length out.old }
    ensures { out.new ≡ over out.old 0 (security_record present c) }
{
    let values = [
        u8::from(present),
        c.security_level.code(),
        c.key_id.code(),
        u8::from(c.extended_nonce),
        u8::from(c.require_verified_frame_counter),
    ];
    octets::copy_at(out, 0, &values);
}

// Write the frame counter, the optional address and the key sequence number at their places.
fn put_counter(out: &mut [u8], a: NwkAuxHeader)
    requires { 19 ≤ length out.old }
    ensures { out.new ≡ over out.old 5 (counter_record a) }
{
    octets::put_u32(out, 5, a.frame_counter);
    put_ieee(out, 9, a.extended_source);
    octets::put_u8(out, 18, a.key_sequence_number);
}

// Write the record of an auxiliary header, present or not, to the front of an output that has room for it.
pub fn put_aux(out: &mut [u8], present: bool, a: NwkAuxHeader)
    requires { 19 ≤ length out.old }
    ensures { out.new ≡ over out.old 0 (aux_record present a) }
{
    put_security(out, present, a.security_control);
    put_counter(out, a);
}

// The security control that a record encodes.
#[tactic(auto, unfolding(crate::specs::AuxiliaryRecord::security_at))]
fn security_of(bytes: &[u8]) -> NwkSecurityHeaderControlField
    ensures { result ≡ security_at bytes.now }
{
    NwkSecurityHeaderControlField {
        security_level: NwkSecurityLevel::from_code(octets::byte_at(bytes, 1)),
        key_id: NwkSecurityHeaderKeyId::from_code(octets::byte_at(bytes, 2)),
        extended_nonce: octets::byte_at(bytes, 3) == 1,
        require_verified_frame_counter: octets::byte_at(bytes, 4) == 1,
    }
}

// Whether a record has an auxiliary header.
pub fn is_present(bytes: &[u8]) -> bool
    ensures { result ≡ aux_present bytes.now }
{
    octets::byte_at(bytes, 0) == 1
}

// The auxiliary header that a record encodes; bytes past its end count 0.
#[tactic(auto, unfolding(crate::specs::AuxiliaryRecord::aux_of))]
pub fn aux_of(bytes: &[u8]) -> NwkAuxHeader
    ensures { result ≡ aux_of bytes.now }
{
    NwkAuxHeader {
        security_control: security_of(bytes),
        frame_counter: octets::read_u32(bytes, 5),
        extended_source: ieee_in(bytes, 9),
        key_sequence_number: octets::byte_at(bytes, 18),
    }
}
