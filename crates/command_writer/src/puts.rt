// Fields and lists put into a lent output at a place; the rest of it stays.

ghost use Rattle.std.specs.Prelude.{◌≡◌, [], ◌∷◌, ◌+◌, ◌*◌, ◌≤◌, length};
ghost use Rattle.octets.specs.Strings.{over};
ghost use Rattle.commands.specs.Format.{write_fields, write_entries};
ghost use Rattle.commands.specs.Commands.{route_request_format, link_status_format, has, address_entry, link_entry, link_entries};
ghost use Rattle.command_writer.specs.Options.{LowCosts};

use commands::*;

// A link status entry.
#[tactic(auto, unfolding(crate::proofs::Layouts::layouts), using(octets::proofs::Strings::over_over, octets::proofs::Numbers::length_le))]
fn put_link(out: &mut [u8], i: usize, link: NwkLinkStatus)
    requires { (i + 3 ≤ length out.old) × (link.incoming_cost ≤ 7) × (link.outgoing_cost ≤ 7) }
    ensures { out.new ≡ over out.old i (write_fields link_status_format.entry (link_entry link)) }
{
    let costs = crate::options::costs_byte(link.incoming_cost, link.outgoing_cost);
    octets::put_u16(out, i, link.address.0);
    octets::put_u8(out, i + 2, costs);
}

// The first n link status entries.
pub fn put_links(out: &mut [u8], i: usize, links: [NwkLinkStatus; 31], n: usize)
    requires { (n ≤ 31) × (i + n * 3 ≤ length out.old) × LowCosts links n }
    ensures { out.new ≡ over out.old i (write_entries link_status_format.entry (link_entries links n)) }
{
    let mut k = 0;
    while k < n {
        let link = links[k];
        put_link(out, i + k * 3, link);
        k += 1;
    }
}
