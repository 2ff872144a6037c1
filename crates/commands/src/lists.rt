// The lists that stand alike in a command's bytes and in its record: relays, PAN ids and power list entries, written from a
// place on and read into an array, with 0 past the count.

ghost use Rattle.std.specs.Prelude.{◌≡◌, [], ◌∷◌, ℕ, ◌+◌, ◌*◌, ◌≤◌, length};
ghost use Rattle.octets.specs.Strings.{over, tab};
ghost use Rattle.types.specs.Addresses.{no_nwk};
ghost use Rattle.commands.specs.Format.{write_fields, write_entries};
ghost use Rattle.commands.specs.Commands.{route_record_format, network_report_format, link_power_delta_format, relay_entries, relay_at, pan_id_entries, pan_id_at, no_pan_id, power_entry, power_entries, power_at, no_power};
ghost use Rattle.commands.specs.Reading.{places};

use crate::*;
use types::{NO_NWK, Nwk, PanId};

// One byte.
pub fn put_byte(out: &mut [u8], i: usize, x: u8)
    requires { i + 1 ≤ length out.old }
    ensures { out.new ≡ over out.old i (x ∷ []) }
{
    out[i] = x;
}

// The first n relays.
pub fn put_relays(out: &mut [u8], i: usize, relays: [Nwk; 53], n: usize)
    requires { (n ≤ 53) × (i + n * 2 ≤ length out.old) }
    ensures { out.new ≡ over out.old i (write_entries route_record_format.entry (relay_entries relays n)) }
{
    let mut k = 0;
    while k < n {
        let relay = relays[k];
        octets::put_u16(out, i + k * 2, relay.0);
        k += 1;
    }
}

// The first n PAN ids.
pub fn put_pan_ids(out: &mut [u8], i: usize, pan_ids: [PanId; 31], n: usize)
    requires { (n ≤ 31) × (i + n * 2 ≤ length out.old) }
    ensures { out.new ≡ over out.old i (write_entries network_report_format.entry (pan_id_entries pan_ids n)) }
{
    let mut k = 0;
    while k < n {
        let pan_id = pan_ids[k];
        octets::put_u16(out, i + k * 2, pan_id.0);
        k += 1;
    }
}

// A power list entry.
fn put_power(out: &mut [u8], i: usize, power: NwkPowerListEntry)
    requires { i + 3 ≤ length out.old }
    ensures { out.new ≡ over out.old i (write_fields link_power_delta_format.entry (power_entry power)) }
{
    let address = power.device_address;
    octets::put_u16(out, i, address.0);
    put_byte(out, i + 2, power.power_delta);
}

// The first n power list entries.
pub fn put_powers(out: &mut [u8], i: usize, powers: [NwkPowerListEntry; 35], n: usize)
    requires { (n ≤ 35) × (i + n * 3 ≤ length out.old) }
    ensures { out.new ≡ over out.old i (write_entries link_power_delta_format.entry (power_entries powers n)) }
{
    let mut k = 0;
    while k < n {
        let power = powers[k];
        put_power(out, i + k * 3, power);
        k += 1;
    }
}

// n relays from place i on.
pub fn read_relays(s: &[u8], i: usize, n: usize) -> [Nwk; 53]
    requires { (n ≤ 53) × (i ≤ 1000) }
    ensures { result ≡ places no_nwk 53 (tab (λ (k : ℕ). relay_at s.now (i + k * 2)) n) }
{
    let mut relays = [NO_NWK; 53];
    let mut k = 0;
    while k < n {
        relays[k] = Nwk(octets::read_u16(s, i + k * 2));
        k += 1;
    }
    relays
}

// n PAN ids from place i on.
pub fn read_pan_ids(s: &[u8], i: usize, n: usize) -> [PanId; 31]
    requires { (n ≤ 31) × (i ≤ 1000) }
    ensures { result ≡ places no_pan_id 31 (tab (λ (k : ℕ). pan_id_at s.now (i + k * 2)) n) }
{
    let mut pan_ids = [NO_PAN_ID; 31];
    let mut k = 0;
    while k < n {
        pan_ids[k] = PanId(octets::read_u16(s, i + k * 2));
        k += 1;
    }
    pan_ids
}

// The power list entry at place i.
fn power_at(s: &[u8], i: usize) -> NwkPowerListEntry
    requires { i ≤ 2000 }
    ensures { result ≡ power_at s.now i }
{
    NwkPowerListEntry {
        device_address: Nwk(octets::read_u16(s, i)),
        power_delta: octets::byte_at(s, i + 2),
    }
}

// n power list entries from place i on.
pub fn read_power_list(s: &[u8], i: usize, n: usize) -> [NwkPowerListEntry; 35]
    requires { (n ≤ 35) × (i ≤ 1000) }
    ensures { result ≡ places no_power 35 (tab (λ (k : ℕ). power_at s.now (i + k * 3)) n) }
{
    let mut powers = [NO_POWER; 35];
    let mut k = 0;
    while k < n {
        powers[k] = power_at(s, i + k * 3);
        k += 1;
    }
    powers
}
