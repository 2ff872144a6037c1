// The lists of a command record, each with its count before it.

ghost use Rattle.std.specs.Prelude.{◌≡◌, ◌∷◌, ◌+◌, ◌≤◌, length};
ghost use Rattle.octets.specs.Strings.{over};
ghost use Rattle.commands.specs.Format.{write_fields, write_entries};
ghost use Rattle.commands.specs.Commands.{link_entry, link_entries};
ghost use Rattle.command_records.specs.Lists.{link_record_entry, relays_record, links_record, pan_ids_record, powers_record};

use commands::{NwkLinkStatus, NwkPowerListEntry, lists};
use types::{Nwk, PanId};

// A link status at place i.
fn put_link(out: &mut [u8], i: usize, link: NwkLinkStatus)
    requires { i + 4 ≤ length out.old }
    ensures { out.new ≡ over out.old i (write_fields link_record_entry (link_entry link)) }
{
    let address = link.address;
    octets::put_u16(out, i, address.0);
    lists::put_byte(out, i + 2, link.incoming_cost);
    lists::put_byte(out, i + 3, link.outgoing_cost);
}

// The 31 link statuses at place i.
fn put_links(out: &mut [u8], i: usize, links: [NwkLinkStatus; 31])
    requires { i + 124 ≤ length out.old }
    ensures { out.new ≡ over out.old i (write_entries link_record_entry (link_entries links 31)) }
{
    let mut k = 0;
    while k < 31 {
        let link = links[k];
        put_link(out, i + k * 4, link);
        k += 1;
    }
}

// The relays at 25.
pub fn put_relays(out: &mut [u8], n: u8, relays: [Nwk; 53])
    requires { 132 ≤ length out.old }
    ensures { out.new ≡ over out.old 25 (relays_record n relays) }
{
    lists::put_byte(out, 25, n);
    lists::put_relays(out, 26, relays, 53);
}

// The link statuses at 132.
pub fn put_link_statuses(out: &mut [u8], n: u8, links: [NwkLinkStatus; 31])
    requires { 257 ≤ length out.old }
    ensures { out.new ≡ over out.old 132 (links_record n links) }
{
    lists::put_byte(out, 132, n);
    put_links(out, 133, links);
}

// The PAN ids at 257.
pub fn put_pan_ids(out: &mut [u8], n: u8, pan_ids: [PanId; 31])
    requires { 320 ≤ length out.old }
    ensures { out.new ≡ over out.old 257 (pan_ids_record n pan_ids) }
{
    lists::put_byte(out, 257, n);
    lists::put_pan_ids(out, 258, pan_ids, 31);
}

// The power list at 320.
pub fn put_power_list(out: &mut [u8], n: u8, powers: [NwkPowerListEntry; 35])
    requires { 426 ≤ length out.old }
    ensures { out.new ≡ over out.old 320 (powers_record n powers) }
{
    lists::put_byte(out, 320, n);
    lists::put_powers(out, 321, powers, 35);
}

// The length and the places of an unparsed command at 426.
pub fn put_unparsed(out: &mut [u8], n: u8, bytes: [u8; 108])
    requires { 535 ≤ length out.old }
    ensures { out.new ≡ over out.old 426 (n ∷ bytes) }
{
    lists::put_byte(out, 426, n);
    octets::copy_at(out, 427, &bytes);
}
