// Fields that may be missing, in a record: a presence byte, and the field behind it, 0 where it is absent.
#![tactic(auto, unfolding(crate::specs::Optional::ieee_record, crate::specs::Optional::ieee_in, crate::specs::Optional::multicast_record, crate::specs::Optional::multicast_in, crate::specs::Optional::route_record, crate::specs::Optional::route_in), using(octets::proofs::Strings::over_over, octets::proofs::Numbers::length_le))]

ghost use Rattle.std.specs.Prelude.{◌≡◌, ◌+◌, ◌≤◌, ◌<◌, length};
ghost use Rattle.octets.specs.Strings.{over};
ghost use Rattle.records.specs.Optional.{ieee_record, ieee_in, multicast_record, multicast_in, route_record, route_in};

use header::optional::NwkSourceRoute;

// Write the nine bytes of an optional address at place i.
pub fn put_ieee(out: &mut [u8], i: usize, o: Option<u64>)
    requires { i + 9 ≤ length out.old }
    ensures { out.new ≡ over out.old i (ieee_record o) }
{
    octets::put_u8(out, i, u8::from(o.is_some()));
    octets::put_u64(out, i + 1, o.unwrap_or(0));
}

// The optional address at place i.
pub fn ieee_in(bytes: &[u8], i: usize) -> Option<u64>
    requires { i < 1000 }
    ensures { result ≡ ieee_in bytes.now i }
{
    (octets::byte_at(bytes, i) == 1).then_some(octets::read_u64(bytes, i + 1))
}

// Write the two bytes of an optional multicast control at place i.
pub fn put_multicast(out: &mut [u8], i: usize, o: Option<u8>)
    requires { i + 2 ≤ length out.old }
    ensures { out.new ≡ over out.old i (multicast_record o) }
{
    octets::put_u8(out, i, u8::from(o.is_some()));
    octets::put_u8(out, i + 1, o.unwrap_or(0));
}

// The optional multicast control at place i.
pub fn multicast_in(bytes: &[u8], i: usize) -> Option<u8>
    requires { i < 1000 }
    ensures { result ≡ multicast_in bytes.now i }
{
    (octets::byte_at(bytes, i) == 1).then_some(octets::byte_at(bytes, i + 1))
}

// Write the three bytes of an optional source route at place i; its relays are not among them.
pub fn put_route(out: &mut [u8], i: usize, o: Option<NwkSourceRoute>)
    requires { i + 3 ≤ length out.old }
    ensures { out.new ≡ over out.old i (route_record o) }
{
    let (count, index) = o.map_or((0, 0), |route| (route.relay_count, route.relay_index));
    octets::put_u8(out, i, u8::from(o.is_some()));
    octets::put_u8(out, i + 1, count);
    octets::put_u8(out, i + 2, index);
}

// The optional source route at place i.
pub fn route_in(bytes: &[u8], i: usize) -> Option<NwkSourceRoute>
    requires { i < 1000 }
    ensures { result ≡ route_in bytes.now i }
{
    (octets::byte_at(bytes, i) == 1).then_some(NwkSourceRoute {
        relay_count: octets::byte_at(bytes, i + 1),
        relay_index: octets::byte_at(bytes, i + 2),
    })
}
