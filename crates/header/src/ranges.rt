// Support for proofs: each function promises of every value what its type's range says, and changes nothing. The premises on
// ranges of the laws are exactly these promises.
ghost use Rattle.std.specs.Prelude.{◌<◌};
ghost use Rattle.octets.specs.Strings.{Below};
ghost use Rattle.header.specs.Same.{IeeeFits, MulticastFits, RouteFits, RelaysFit, HeaderFits, AuxFits};

use crate::auxiliary::NwkAuxHeader;
use crate::nwk::NwkHeader;
use crate::optional::NwkSourceRoute;
use types::Nwk;

// The number of a slice's bytes.
fn count8(s: &[u8]) -> usize {
    s.len()
}

// Every byte of a slice is a byte.
pub fn bytes_fit(f: &[u8])
    ensures { Below 256 f.now }
{
    count8(f);
}

// A relay is within its range.
fn relay_fits(relay: Nwk)
    ensures { relay.0 < 65536 }
{
    let _address = relay.0;
}

// Every relay is within its range.
pub fn relays_fit(relays: [Nwk; 54])
    ensures { RelaysFit relays }
{
    for i in 0..54 {
        relay_fits(relays[i]);
    }
}

// Every optional long address is within its range.
pub fn ieee_fits(ieee: Option<u64>)
    ensures { IeeeFits ieee }
{
    if let Some(x) = ieee {
        let _y = x;
    }
}

// Every optional multicast control is within its range.
pub fn multicast_fits(control: Option<u8>)
    ensures { MulticastFits control }
{
    if let Some(x) = control {
        let _y = x;
    }
}

// Every optional source route is within its range.
pub fn route_fits(route: Option<NwkSourceRoute>)
    ensures { RouteFits route }
{
    if let Some(route) = route {
        let _count = route.relay_count;
        let _index = route.relay_index;
    }
}

// Every header is within its types' ranges.
pub fn header_fits(h: NwkHeader)
    ensures { HeaderFits h }
{
    ieee_fits(h.destination_ieee);
    ieee_fits(h.source_ieee);
    multicast_fits(h.multicast_control);
    route_fits(h.source_route);
    relays_fit(h.relays);
}

// Every auxiliary header is within its types' ranges.
pub fn aux_fits(a: NwkAuxHeader)
    ensures { AuxFits a }
{
    ieee_fits(a.extended_source);
}
