// The header record, 147 bytes.
ghost use Rattle.std.specs.Prelude.{◌≡◌, ◌++◌, ◌+◌, ◌≤◌, ◌<◌, length};
ghost use Rattle.octets.specs.Strings.{over};
ghost use Rattle.octets.specs.Numbers.{le_at};
ghost use Rattle.header.specs.Control.{control_values, control_from};
ghost use Rattle.header.specs.Optional.{relay_bytes};
ghost use Rattle.records.specs.Optional.{route_record};
ghost use Rattle.records.specs.HeaderRecord.{address_record, optional_record, header_record, relays_from, header_of, bad_header_record};

use crate::limits::exceeds;
use crate::optional::{ieee_in, multicast_in, put_ieee, put_multicast, put_route, route_in};
use header::control::{NwkFrameControl, NwkFrameType, NwkRouteDiscovery};
use header::nwk::NwkHeader;
use octets::bit_of;
use types::{NO_NWK, Nwk};

pub const HEADER_RECORD_SIZE: usize = 147;

// The greatest value of each byte from 0 to 36.
const HEADER_LIMITS: [u8; 37] = [
    3, 15, 2, 1, 1, 1, 1, 1, 1, 3, 255, 255, 255, 255, 255, 255, 1, 255, 255, 255, 255, 255, 255,
    255, 255, 1, 255, 255, 255, 255, 255, 255, 255, 255, 1, 255, 1,
];

// Whether the record has another length or a byte that a field cannot take (refusal 13).
#[tactic(auto, using(crate::proofs::Refused::header_length, crate::proofs::Refused::header_type, crate::proofs::Refused::header_rest))]
pub fn is_bad(bytes: &[u8]) -> bool
    ensures { result ≡ bad_header_record bytes.now }
{
    if bytes.len() != HEADER_RECORD_SIZE {
        return true;
    }
    bytes[0] == 2 || exceeds(&HEADER_LIMITS, bytes)
}

// ---- the record of a header

// Write the ten bytes of the frame control at the front.
fn put_control(out: &mut [u8], c: NwkFrameControl)
    requires { 10 ≤ length out.old }
    ensures { out.new ≡ over out.old 0 (control_values c) }
{
    let values = [
        c.frame_type.code() as u8,
        c.protocol_version,
        c.discover_route.code() as u8,
        bit_of(c.multicast),
        bit_of(c.security),
        bit_of(c.source_route),
        bit_of(c.destination),
        bit_of(c.extended_source),
        bit_of(c.end_device_initiator),
        c.reserved1,
    ];
    octets::copy_at(out, 0, &values);
}

// Write the addresses, the radius and the sequence number at their places.
fn put_addresses(out: &mut [u8], h: NwkHeader)
    requires { 16 ≤ length out.old }
    ensures { out.new ≡ over out.old 10 (address_record h.destination.0 h.source.0 h.radius h.sequence_number) }
{
    octets::put_u16(out, 10, h.destination.0);
    octets::put_u16(out, 12, h.source.0);
    octets::put_u8(out, 14, h.radius);
    octets::put_u8(out, 15, h.sequence_number);
}

// Write the optional addresses and the multicast control at their places.
fn put_optional(out: &mut [u8], h: NwkHeader)
    requires { 36 ≤ length out.old }
    ensures { out.new ≡ over out.old 16 (optional_record h) }
{
    put_ieee(out, 16, h.destination_ieee);
    put_ieee(out, 25, h.source_ieee);
    put_multicast(out, 34, h.multicast_control);
}

// Write the 54 relays at place 39.
fn put_relays(out: &mut [u8], relays: [Nwk; 54])
    requires { 147 ≤ length out.old }
    ensures { out.new ≡ over out.old 39 (relay_bytes 54 relays) }
{
    for (j, relay) in relays.iter().enumerate() {
        octets::put_u16(out, 39 + 2 * j, relay.0);
    }
}

// Write the record of a header to the front of an output that has room for it.
pub fn put_header(out: &mut [u8], h: NwkHeader)
    requires { 147 ≤ length out.old }
    ensures { out.new ≡ over out.old 0 (header_record h) }
{
    put_control(out, h.frame_control);
    put_addresses(out, h);
    put_optional(out, h);
    put_route(out, 36, h.source_route);
    put_relays(out, h.relays);
}

// ---- the header of a record

// The 16-bit number at place i, least significant byte first. The record has both places, so nothing is tested in the loop over its relays.
fn number_at(bytes: &[u8], i: usize) -> u16
    requires { i + 1 < length bytes.now }
    ensures { result ≡ le_at 2 bytes.now i }
{
    u16::from_le_bytes([bytes[i], bytes[i + 1]])
}

// The frame control that the first ten bytes encode.
#[tactic(auto, unfolding(header::specs::Control::control_from))]
fn control_of(bytes: &[u8]) -> NwkFrameControl
    requires { 10 ≤ length bytes.now }
    ensures { result ≡ control_from bytes.now }
{
    NwkFrameControl {
        frame_type: NwkFrameType::from_code(u16::from(bytes[0])),
        protocol_version: bytes[1],
        discover_route: NwkRouteDiscovery::from_code(u16::from(bytes[2])),
        multicast: bytes[3] == 1,
        security: bytes[4] == 1,
        source_route: bytes[5] == 1,
        destination: bytes[6] == 1,
        extended_source: bytes[7] == 1,
        end_device_initiator: bytes[8] == 1,
        reserved1: bytes[9],
    }
}

// The 54 relays from place 39.
fn relays_of(bytes: &[u8]) -> [Nwk; 54]
    requires { 147 ≤ length bytes.now }
    ensures { result ≡ relays_from bytes.now 39 }
{
    let mut relays = [NO_NWK; 54];
    for i in 0..54 {
        relays[i] = Nwk(number_at(bytes, 39 + 2 * i));
    }
    relays
}

// The header that a record of the right length encodes.
#[tactic(auto, unfolding(crate::specs::HeaderRecord::header_of))]
pub fn header_of(bytes: &[u8]) -> NwkHeader
    requires { length bytes.now ≡ 147 }
    ensures { result ≡ header_of bytes.now }
{
    NwkHeader {
        frame_control: control_of(bytes),
        destination: Nwk(number_at(bytes, 10)),
        source: Nwk(number_at(bytes, 12)),
        radius: bytes[14],
        sequence_number: bytes[15],
        destination_ieee: ieee_in(bytes, 16),
        source_ieee: ieee_in(bytes, 25),
        multicast_control: multicast_in(bytes, 34),
        source_route: route_in(bytes, 36),
        relays: relays_of(bytes),
    }
}
