// The frame control field (Zigbee Specification 3.3.1.1).
ghost use Rattle.std.specs.Prelude.{◌≡◌, ◌<◌, drop};
ghost use Rattle.octets.specs.Fields.{packed};
ghost use Rattle.header.specs.Control.{control_sizes, control_values, type_code, type_of, discovery_code, discovery_of, control_word, control_of};

use octets::bit_of;

// The frame's type; the code 2 is not declared.
#[derive(Clone, Copy, PartialEq, Eq)]
pub enum NwkFrameType {
    Data = 0,
    Command = 1,
    Interpan = 3,
}

// Route discovery; the code 3 is not declared.
#[derive(Clone, Copy, PartialEq, Eq)]
pub enum NwkRouteDiscovery {
    Suppress = 0,
    Enable = 1,
    WithMulticast = 2,
}

// The frame control field, bits 0 to 15 in this order.
#[derive(Clone, Copy, PartialEq, Eq)]
pub struct NwkFrameControl {
    pub frame_type: NwkFrameType,
    pub protocol_version: u8,
    pub discover_route: NwkRouteDiscovery,
    pub multicast: bool,
    pub security: bool,
    pub source_route: bool,
    pub destination: bool,
    pub extended_source: bool,
    pub end_device_initiator: bool,
    pub reserved1: u8,
}

impl NwkFrameType {
    // The type's code.
    pub fn code(self) -> u16
        ensures { (result ≡ type_code self) × (result < 4) }
    {
        self as u16
    }

    // The type of a code that is not 2.
    pub fn from_code(code: u16) -> NwkFrameType
        ensures { result ≡ type_of code }
    {
        match code {
            0 => NwkFrameType::Data,
            1 => NwkFrameType::Command,
            _ => NwkFrameType::Interpan,
        }
    }
}

impl NwkRouteDiscovery {
    // The discovery's code.
    pub fn code(self) -> u16
        ensures { (result ≡ discovery_code self) × (result < 4) }
    {
        self as u16
    }

    // The discovery of a code that is not 3.
    pub fn from_code(code: u16) -> NwkRouteDiscovery
        ensures { result ≡ discovery_of code }
    {
        match code {
            0 => NwkRouteDiscovery::Suppress,
            1 => NwkRouteDiscovery::Enable,
            _ => NwkRouteDiscovery::WithMulticast,
        }
    }
}

impl NwkFrameControl {
    // The field of 16 bits, lowest first.
    #[tactic(auto, unfolding(crate::specs::Control::control_of, octets::specs::Fields::fields))]
    pub fn from_word(w: u16) -> NwkFrameControl
        ensures { result ≡ control_of w }
    {
        let version = w / 4;
        let discovery = version / 16;
        let multicast = discovery / 4;
        let security = multicast / 2;
        let source_route = security / 2;
        let destination = source_route / 2;
        let extended_source = destination / 2;
        let end_device_initiator = extended_source / 2;
        let reserved1 = end_device_initiator / 2;
        NwkFrameControl {
            frame_type: NwkFrameType::from_code(w % 4),
            protocol_version: (version % 16) as u8,
            discover_route: NwkRouteDiscovery::from_code(discovery % 4),
            multicast: multicast % 2 == 1,
            security: security % 2 == 1,
            source_route: source_route % 2 == 1,
            destination: destination % 2 == 1,
            extended_source: extended_source % 2 == 1,
            end_device_initiator: end_device_initiator % 2 == 1,
            reserved1: (reserved1 % 4) as u8,
        }
    }

    // Bits 8 to 15, put together from the lowest.
    #[tactic(auto, unfolding(octets::specs::Fields::packed))]
    fn flags(self) -> u8
        requires { self.reserved1 < 4 }
        ensures { (result ≡ packed (drop 3 control_sizes) (drop 3 (control_values self))) × (result < 256) }
    {
        let end_device_initiator = bit_of(self.end_device_initiator) + self.reserved1 * 2;
        let extended_source = bit_of(self.extended_source) + end_device_initiator * 2;
        let destination = bit_of(self.destination) + extended_source * 2;
        let source_route = bit_of(self.source_route) + destination * 2;
        let security = bit_of(self.security) + source_route * 2;
        bit_of(self.multicast) + security * 2
    }

    // The field's 16 bits.
    #[tactic(auto, unfolding(octets::specs::Fields::packed, crate::specs::Control::control_word))]
    pub fn word(self) -> u16
        requires { (self.protocol_version < 16) × (self.reserved1 < 4) }
        ensures { result ≡ control_word self }
    {
        let discovery = self.discover_route.code() + u16::from(self.flags()) * 4;
        let version = u16::from(self.protocol_version) + discovery * 16;
        self.frame_type.code() + version * 4
    }
}
