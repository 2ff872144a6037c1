// Fields that may be missing, beside the long addresses (`types::put_ieee`).
ghost use Rattle.std.specs.Prelude.{◌≡◌, ◌+◌, ◌≤◌, length};
ghost use Rattle.octets.specs.Strings.{over};
ghost use Rattle.header.specs.Optional.{multicast_bytes, route_bytes, relay_count, relay_bytes};

use types::Nwk;

// A source route: its relay count and relay index. The relays stand beside it in the header.
#[derive(Clone, Copy, PartialEq, Eq)]
pub struct NwkSourceRoute {
    pub relay_count: u8,
    pub relay_index: u8,
}

// How many bytes a multicast control that may be missing takes in a frame.
#[tactic(auto, using(crate::proofs::OptionalFields::multicast_length))]
pub fn multicast_size(control: Option<u8>) -> usize
    ensures { (result ≡ length (multicast_bytes control)) × (result ≤ 1) }
{
    match control {
        None => 0,
        Some(_) => 1,
    }
}

// Write it at place i, and give the place behind it.
#[tactic(auto, using(octets::proofs::Strings::over_nil, octets::proofs::Numbers::length_le))]
pub fn put_multicast(control: Option<u8>, out: &mut [u8], i: usize) -> usize
    requires { i + length (multicast_bytes control) ≤ length out.old }
    ensures { (result ≡ i + length (multicast_bytes control)) × (out.new ≡ over out.old i (multicast_bytes control)) }
{
    match control {
        None => i,
        Some(x) => {
            octets::put_u8(out, i, x);
            i + 1
        }
    }
}

// How many relays a source route has, or 0 if there is none.
pub fn relay_count(route: Option<NwkSourceRoute>) -> u8
    ensures { result ≡ relay_count route }
{
    match route {
        None => 0,
        Some(route) => route.relay_count,
    }
}

// How many bytes a source route that may be missing takes in a frame.
#[tactic(auto, using(crate::proofs::OptionalFields::route_length))]
pub fn route_size(route: Option<NwkSourceRoute>, relays: [Nwk; 54]) -> usize
    ensures { (result ≡ length (route_bytes route relays)) × (result ≤ 512) }
{
    match route {
        None => 0,
        Some(route) => 2 + 2 * usize::from(route.relay_count),
    }
}

// Write it at place i, its relays behind it.
#[tactic(auto, using(crate::proofs::OptionalFields::relay_length, crate::proofs::OptionalFields::route_length, octets::proofs::Numbers::length_le, octets::proofs::Strings::over_over, octets::proofs::Strings::over_nil))]
pub fn put_route(route: Option<NwkSourceRoute>, relays: [Nwk; 54], out: &mut [u8], i: usize)
    requires { (i + length (route_bytes route relays) ≤ length out.old) × (relay_count route ≤ 54) }
    ensures { out.new ≡ over out.old i (route_bytes route relays) }
{
    if let Some(route) = route {
        octets::put_u8(out, i, route.relay_count);
        octets::put_u8(out, i + 1, route.relay_index);
        put_relays(out, i + 2, usize::from(route.relay_count), relays);
    }
}

// Write the first n relays at place i.
#[tactic(auto, unfolding(crate::specs::Optional::relay_bytes), using(crate::proofs::OptionalFields::relay_length, crate::proofs::OptionalFields::relays_more, octets::proofs::Strings::over_nil))]
fn put_relays(out: &mut [u8], i: usize, n: usize, relays: [Nwk; 54])
    requires { (i + length (relay_bytes n relays) ≤ length out.old) × (n ≤ 54) }
    ensures { out.new ≡ over out.old i (relay_bytes n relays) }
{
    for (j, relay) in relays[..n].iter().enumerate() {
        octets::put_u16(out, i + 2 * j, relay.0);
    }
}
