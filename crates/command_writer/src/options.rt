// Bytes of bit parts, lowest first. Fields spelled `reserved` are 0.
#![tactic(auto, unfolding(octets::specs::Fields::packed))]

ghost use Rattle.std.specs.Prelude.{◌≡◌, [], ◌∷◌, ◌≤◌};
ghost use Rattle.octets.specs.Fields.{bit, packed};
ghost use Rattle.command_writer.specs.Options.{capability_byte};

use commands::NwkRejoinCapabilityInformation;
use octets::bit_of;

// Zigbee 3.4.1: the route request's options.
pub fn route_request_options(many: u8, has: u8) -> u8
    requires { (many ≤ 3) × (has ≤ 1) }
    ensures { result ≡ packed (3 ∷ 2 ∷ 1 ∷ 2 ∷ []) (0 ∷ many ∷ has ∷ 0 ∷ []) }
{
    many * 8 + has * 32
}

// Zigbee 3.4.2: the route reply's options.
pub fn route_reply_options(originator: u8, responder: u8) -> u8
    requires { (originator ≤ 1) × (responder ≤ 1) }
    ensures { result ≡ packed (4 ∷ 1 ∷ 1 ∷ 2 ∷ []) (0 ∷ originator ∷ responder ∷ 0 ∷ []) }
{
    originator * 16 + responder * 32
}

// Zigbee 3.4.4: the leave's options.
pub fn leave_options(rejoin: bool, request: bool, children: bool) -> u8
    ensures { result ≡ packed (5 ∷ 1 ∷ 1 ∷ 1 ∷ []) (0 ∷ bit rejoin ∷ bit request ∷ bit children ∷ []) }
{
    bit_of(rejoin) * 32 + bit_of(request) * 64 + bit_of(children) * 128
}

// Zigbee 3.4.6: the capability information.
#[tactic(auto, unfolding(crate::proofs::Layouts::layouts, octets::specs::Fields::packed))]
pub fn capability_byte(c: NwkRejoinCapabilityInformation) -> u8
    ensures { result ≡ capability_byte c }
{
    let low = bit_of(c.alternate_pan_coordinator)
        + c.device_type.code() * 2
        + c.power_source.code() * 4
        + bit_of(c.receiver_on_when_idle) * 8;
    let high = bit_of(c.reserved1)
        + bit_of(c.reserved2) * 2
        + bit_of(c.security_capability) * 4
        + bit_of(c.allocate_address) * 8;
    low + high * 16
}

// Zigbee 3.4.8: the link status's options.
pub fn link_status_options(count: u8, first: bool, last: bool) -> u8
    requires { count ≤ 31 }
    ensures { result ≡ packed (5 ∷ 1 ∷ 1 ∷ 1 ∷ []) (count ∷ bit first ∷ bit last ∷ 0 ∷ []) }
{
    count + bit_of(first) * 32 + bit_of(last) * 64
}

// Zigbee 3.4.8: the two costs of a link status entry.
pub fn costs_byte(incoming: u8, outgoing: u8) -> u8
    requires { (incoming ≤ 7) × (outgoing ≤ 7) }
    ensures { result ≡ packed (3 ∷ 1 ∷ 3 ∷ 1 ∷ []) (incoming ∷ 0 ∷ outgoing ∷ 0 ∷ []) }
{
    incoming + outgoing * 16
}

// Zigbee 3.4.9 and 3.4.10: a count of 5 bits and an identifier of 3.
pub fn count_and_identifier(count: u8, identifier: u8) -> u8
    requires { (count ≤ 31) × (identifier ≤ 7) }
    ensures { result ≡ packed (5 ∷ 3 ∷ []) (count ∷ identifier ∷ []) }
{
    count + identifier * 32
}

// Zigbee 3.4.12: the parent information.
pub fn parent_information(poll: bool, timeout: bool, power: bool) -> u8
    ensures { result ≡ packed (1 ∷ 1 ∷ 1 ∷ 5 ∷ []) (bit poll ∷ bit timeout ∷ bit power ∷ 0 ∷ []) }
{
    bit_of(poll) + bit_of(timeout) * 2 + bit_of(power) * 4
}

// Zigbee 3.4.13: the power type in its byte.
pub fn power_options(kind: u8) -> u8
    ensures { result ≡ packed (2 ∷ 6 ∷ []) (kind ∷ 0 ∷ []) }
{
    kind
}
