// The NWK header (Zigbee Specification 3.3.1).
ghost use Rattle.std.specs.Prelude.{◌≡◌, false, ◌++◌, ℕ, ◌+◌, ◌≤◌, ◌<◌, length, IfOk};
ghost use Rattle.octets.specs.Strings.{over};
ghost use Rattle.octets.specs.Numbers.{le};
ghost use Rattle.octets.specs.Refusals.{first_of, refused};
ghost use Rattle.octets.specs.Writing.{told};
ghost use Rattle.header.specs.Optional.{multicast_bytes, route_bytes, relay_count};
ghost use Rattle.types.specs.Optional.{ieee_bytes};
ghost use Rattle.header.specs.Reading.{optional_refusals, source_at, multicast_at, route_at, relays_announced, header_end, header_refusal, relays_of, header_by, blank_header, told_header, read_header};
ghost use Rattle.header.specs.Same.{agrees};
ghost use Rattle.header.specs.Writing.{fixed_bytes, header_bytes, bad_header, field_refusal, header_write_refusal, write_header};

use crate::control::NwkFrameControl;
use crate::optional;
use crate::optional::NwkSourceRoute;
use octets::bit_of;
use octets::refusals::Refusal;
use types::{NO_NWK, Nwk};

// The largest MAC payload, and so the largest NWK frame.
pub const MAX_MAC_PAYLOAD_SIZE: usize = 118;

// `nwkcMinHeaderOverhead`: the smallest NWK header.
pub const MIN_HEADER_OVERHEAD: usize = 8;

// How many relays a header has places for.
pub const MAX_RELAYS: u8 = 54;

// The broadcast addresses (Zigbee Specification 3.6.5).
pub const BROADCAST_ALL_DEVICES: u16 = 0xFFFF;

pub const BROADCAST_RX_ON_WHEN_IDLE: u16 = 0xFFFD;

pub const BROADCAST_ALL_ROUTERS_AND_COORDINATOR: u16 = 0xFFFC;

pub const BROADCAST_LOW_POWER_ROUTERS: u16 = 0xFFFB;

// A NWK header. The relays of a source route are the first of `relays`, as many as its count says; on reading the
// places past the count are 0, on writing they mean nothing.
#[derive(Clone, Copy)]
pub struct NwkHeader {
    pub frame_control: NwkFrameControl,
    pub destination: Nwk,
    pub source: Nwk,
    pub radius: u8,
    pub sequence_number: u8,
    pub destination_ieee: Option<u64>,
    pub source_ieee: Option<u64>,
    pub multicast_control: Option<u8>,
    pub source_route: Option<NwkSourceRoute>,
    pub relays: [Nwk; 54],
}

// ---- reading

impl NwkFrameControl {
    // Where the source IEEE stands.
    #[tactic(auto, unfolding(crate::specs::Reading::source_at))]
    fn source_at(self) -> usize
        ensures { (result ≡ source_at self) × (result ≤ 16) }
    {
        8 + 8 * usize::from(bit_of(self.destination))
    }

    // Where the multicast control stands.
    #[tactic(auto, unfolding(crate::specs::Reading::multicast_at))]
    fn multicast_at(self) -> usize
        ensures { (result ≡ multicast_at self) × (result ≤ 24) }
    {
        self.source_at() + 8 * usize::from(bit_of(self.extended_source))
    }

    // Where the source route stands.
    #[tactic(auto, unfolding(crate::specs::Reading::route_at))]
    fn route_at(self) -> usize
        ensures { (result ≡ route_at self) × (result ≤ 25) }
    {
        self.multicast_at() + usize::from(bit_of(self.multicast))
    }
}

// A header's bytes, and the frame control that they begin with.
#[derive(Clone, Copy)]
struct HeaderBytes<'a> {
    bytes: &'a [u8],
    control: NwkFrameControl,
}

impl<'a> HeaderBytes<'a> {
    // How many relays the frame announces.
    #[tactic(auto, unfolding(crate::specs::Reading::relays_announced))]
    fn relays_announced(self) -> usize
        ensures { (result ≡ relays_announced self.entry.bytes.now self.entry.control) × (result < 256) }
    {
        if self.control.source_route {
            usize::from(octets::byte_at(self.bytes, self.control.route_at()))
        } else {
            0
        }
    }

    // Where the header ends; refusals 5 to 8 where a field that the frame control announces ends past the bytes.
    #[tactic(auto, unfolding(crate::specs::Reading::optional_refusals, crate::specs::Reading::header_end, octets::specs::Refusals::first_of))]
    fn end(self) -> Result<usize, Refusal>
        ensures number { refused result ≡ first_of (optional_refusals self.entry.bytes.now self.entry.control) }
        ensures end { IfOk result (λ (n : ℕ). (n ≡ header_end self.entry.bytes.now self.entry.control) × (n ≤ length self.entry.bytes.now)) }
    {
        let n = self.bytes.len();
        if n < self.control.source_at() {
            return Err(Refusal::DestinationIeee);
        }
        if n < self.control.multicast_at() {
            return Err(Refusal::SourceIeee);
        }
        let route = self.control.route_at();
        if n < route {
            return Err(Refusal::Multicast);
        }
        if !self.control.source_route {
            return Ok(route);
        }
        let end = route + 2 + 2 * self.relays_announced();
        if n < end {
            return Err(Refusal::SourceRoute);
        }
        Ok(end)
    }

    // The relays at their places, and 0 past their count.
    fn relays(self) -> [Nwk; 54]
        ensures { result ≡ relays_of self.entry.bytes.now self.entry.control }
    {
        let announced = self.relays_announced();
        let first = self.control.route_at() + 2;
        let mut relays = [NO_NWK; 54];
        for i in 0..announced.min(54) {
            relays[i] = Nwk(octets::read_u16(self.bytes, first + 2 * i));
        }
        relays
    }

    // The header whose fields stand at their places.
    #[tactic(auto, unfolding(crate::specs::Reading::header_by), using(crate::proofs::OptionalFields::ieee_when, crate::proofs::OptionalFields::multicast_when, crate::proofs::OptionalFields::route_when))]
    fn header(self) -> NwkHeader
        ensures { result ≡ header_by self.entry.bytes.now self.entry.control }
    {
        let HeaderBytes { bytes, control } = self;
        let route = control.route_at();
        NwkHeader {
            frame_control: control,
            destination: Nwk(octets::read_u16(bytes, 2)),
            source: Nwk(octets::read_u16(bytes, 4)),
            radius: octets::byte_at(bytes, 6),
            sequence_number: octets::byte_at(bytes, 7),
            destination_ieee: control.destination.then_some(octets::read_u64(bytes, 8)),
            source_ieee: control
                .extended_source
                .then_some(octets::read_u64(bytes, control.source_at())),
            multicast_control: control
                .multicast
                .then_some(octets::byte_at(bytes, control.multicast_at())),
            source_route: control.source_route.then_some(NwkSourceRoute {
                relay_count: octets::byte_at(bytes, route),
                relay_index: octets::byte_at(bytes, route + 1),
            }),
            relays: self.relays(),
        }
    }
}

impl NwkHeader {
    // The header of zeros that stands beside a refusal.
    #[tactic(auto, unfolding(crate::specs::Reading::blank_header, crate::specs::Reading::header_by, crate::specs::Reading::relays_of, crate::specs::Reading::relays_announced, crate::specs::Reading::route_at, crate::specs::Reading::multicast_at, crate::specs::Reading::source_at, crate::specs::Control::control_of, octets::specs::Fields::fields, octets::specs::Strings::tab, octets::specs::Numbers::le_at))]
    pub fn blank() -> NwkHeader
        ensures { result ≡ blank_header }
    {
        NwkHeader {
            frame_control: NwkFrameControl::from_word(0),
            destination: Nwk(0),
            source: Nwk(0),
            radius: 0,
            sequence_number: 0,
            destination_ieee: None,
            source_ieee: None,
            multicast_control: None,
            source_route: None,
            relays: [NO_NWK; 54],
        }
    }

    // Read a header from the front of the bytes, and how many it takes; refusals 1 to 8.
    #[tactic(auto, unfolding(crate::specs::Reading::read_header, crate::specs::Reading::header_refusal, octets::specs::Refusals::first_of, octets::specs::Refusals::unless))]
    pub fn deserialize(bytes: &[u8]) -> Result<(NwkHeader, usize), Refusal>
        ensures answer { told_header result ≡ read_header bytes.now }
        ensures within { IfOk result (λ (r : NwkHeader × ℕ). r.1 ≤ length bytes.now) }
    {
        if MAX_MAC_PAYLOAD_SIZE < bytes.len() {
            return Err(Refusal::TooLong);
        }
        if bytes.len() < MIN_HEADER_OVERHEAD {
            return Err(Refusal::ShortHeader);
        }
        let word = octets::read_u16(bytes, 0);
        if word % 4 == 2 {
            return Err(Refusal::FrameType);
        }
        if word / 64 % 4 == 3 {
            return Err(Refusal::Discovery);
        }
        let control = NwkFrameControl::from_word(word);
        let header = HeaderBytes { bytes, control };
        let end = header.end()?;
        Ok((header.header(), end))
    }

    // How many bytes the header takes.
    #[tactic(auto, using(crate::proofs::ReadBack::header_length))]
    pub fn size(self) -> usize
        ensures { (result ≡ length (header_bytes self)) × (result < 1024) }
    {
        MIN_HEADER_OVERHEAD
            + (types::ieee_size(self.destination_ieee)
                + types::ieee_size(self.source_ieee)
                + optional::multicast_size(self.multicast_control)
                + optional::route_size(self.source_route, self.relays))
    }

    // Whether a field exceeds its bits, or the relays their places.
    #[tactic(auto, unfolding(crate::specs::Writing::bad_header, crate::specs::Writing::bad_control))]
    fn is_bad(self) -> bool
        ensures { result ≡ bad_header self }
    {
        15 < self.frame_control.protocol_version
            || 3 < self.frame_control.reserved1
            || MAX_RELAYS < optional::relay_count(self.source_route)
    }

    // Whether each of bits 11, 12, 8 and 10 is set exactly when its field is present.
    #[tactic(auto, unfolding(crate::specs::Same::agrees))]
    fn agrees(self) -> bool
        ensures { result ≡ agrees self }
    {
        self.frame_control.destination == self.destination_ieee.is_some()
            && self.frame_control.extended_source == self.source_ieee.is_some()
            && self.frame_control.multicast == self.multicast_control.is_some()
            && self.frame_control.source_route == self.source_route.is_some()
    }

    // The refusal of the fields: 13 where one exceeds its bits or the relays exceed their places, then 28 where a presence bit
    // disagrees with its field.
    #[tactic(auto, unfolding(crate::specs::Writing::field_refusal, octets::specs::Refusals::first_of))]
    pub fn check_fields(self) -> Result<(), Refusal>
        ensures number { refused result ≡ field_refusal self }
        ensures fits { IfOk result (λ (u : Unit {0}). bad_header self ≡ false) }
    {
        if self.is_bad() {
            return Err(Refusal::Field);
        }
        if !self.agrees() {
            return Err(Refusal::PresenceBits);
        }
        Ok(())
    }

    // Write the header to the front of an output that has room for it.
    #[tactic(auto, unfolding(crate::specs::Writing::header_bytes, crate::specs::Writing::optional_bytes, crate::specs::Writing::bad_header), using(crate::proofs::ReadBack::header_length, crate::proofs::ReadBack::fixed_length, octets::proofs::Strings::over_over))]
    pub fn put(self, out: &mut [u8])
        requires { (bad_header self ≡ false) × (length (header_bytes self) ≤ length out.old) }
        ensures { out.new ≡ over out.old 0 (header_bytes self) }
    {
        self.put_fixed(out);
        let source_at = types::put_ieee(self.destination_ieee, out, 8);
        let multicast_at = types::put_ieee(self.source_ieee, out, source_at);
        let route_at = optional::put_multicast(self.multicast_control, out, multicast_at);
        optional::put_route(self.source_route, self.relays, out, route_at);
    }

    // Write the header to the front of the output, and give its length; refusals 13, 28, 17 and 18, which change nothing.
    #[tactic(auto, unfolding(crate::specs::Writing::write_header, crate::specs::Writing::header_write_refusal, octets::specs::Writing::written, octets::specs::Refusals::first_of, octets::specs::Refusals::unless))]
    pub fn serialize(self, out: &mut [u8]) -> Result<usize, Refusal>
        ensures answer { told result ≡ (write_header self out.old).answer }
        ensures buffer { out.new ≡ (write_header self out.old).out }
    {
        self.check_fields()?;
        let size = self.size();
        if MAX_MAC_PAYLOAD_SIZE < size {
            return Err(Refusal::Length);
        }
        if out.len() < size {
            return Err(Refusal::NoRoom);
        }
        self.put(out);
        Ok(size)
    }

    // Write the eight bytes that every header has at the front.
    #[tactic(auto, unfolding(crate::specs::Writing::fixed_bytes, crate::specs::Writing::bad_header, crate::specs::Writing::bad_control), using(octets::proofs::Numbers::length_le, octets::proofs::Strings::over_over))]
    fn put_fixed(self, out: &mut [u8])
        requires { (bad_header self ≡ false) × (8 ≤ length out.old) }
        ensures { out.new ≡ over out.old 0 (fixed_bytes self) }
    {
        octets::put_u16(out, 0, self.frame_control.word());
        octets::put_u16(out, 2, self.destination.0);
        octets::put_u16(out, 4, self.source.0);
        octets::put_u8(out, 6, self.radius);
        octets::put_u8(out, 7, self.sequence_number);
    }
}
