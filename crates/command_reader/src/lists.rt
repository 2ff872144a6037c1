// The lists of a command: filled from the bytes, with 0 past the count.

ghost use Rattle.std.specs.Prelude.{◌≡◌, ℕ, ◌+◌, ◌*◌, ◌%◌, ◌≤◌, length, get_or};
ghost use Rattle.octets.specs.Strings.{tab};
ghost use Rattle.commands.specs.Commands.{link_at, no_link};
ghost use Rattle.commands.specs.Reading.{listed, places, unparsed};
ghost use Rattle.commands.specs.declared.NwkCommandList.{NwkCommandList};

use commands::*;
use types::Nwk;

// The link status entry at place i: an address, and the two costs in one byte.
fn link_at(s: &[u8], i: usize) -> NwkLinkStatus
    requires { i ≤ 1000 }
    ensures { result ≡ link_at s.now i }
{
    let costs = octets::byte_at(s, i + 2);
    NwkLinkStatus {
        address: Nwk(octets::read_u16(s, i)),
        incoming_cost: costs % 8,
        outgoing_cost: costs / 8 / 2 % 8,
    }
}

// The n entries of a link status.
fn read_link_statuses(s: &[u8], n: usize) -> [NwkLinkStatus; 31]
    requires { n ≤ 31 }
    ensures { result ≡ places no_link 31 (tab (λ (k : ℕ). link_at s.now (2 + k * 3)) n) }
{
    let mut links = [NO_LINK; 31];
    let mut k = 0;
    while k < n {
        links[k] = link_at(s, 2 + k * 3);
        k += 1;
    }
    links
}

// A route record with its relays.
pub fn with_relays(command: NwkCommand, s: &[u8]) -> NwkCommandWithLists
    requires { get_or s.now 1 0 ≤ 53 }
    ensures { result ≡ listed NwkCommandList.Relays command s.now }
{
    let mut filled = NwkCommandWithLists::blank(command);
    let n = octets::byte_at(s, 1);
    let relays = lists::read_relays(s, 2, usize::from(n));
    filled.relay_count = n;
    filled.relays = relays;
    filled
}

// A link status with its entries.
pub fn with_link_statuses(command: NwkCommand, s: &[u8]) -> NwkCommandWithLists
    ensures { result ≡ listed NwkCommandList.LinkStatuses command s.now }
{
    let mut filled = NwkCommandWithLists::blank(command);
    let n = octets::byte_at(s, 1) % 32;
    let links = read_link_statuses(s, usize::from(n));
    filled.link_statuses_len = n;
    filled.link_statuses = links;
    filled
}

// A network report with its PAN ids.
pub fn with_pan_ids(command: NwkCommand, s: &[u8]) -> NwkCommandWithLists
    ensures { result ≡ listed NwkCommandList.PanIds command s.now }
{
    let mut filled = NwkCommandWithLists::blank(command);
    let n = octets::byte_at(s, 1) % 32;
    let pan_ids = lists::read_pan_ids(s, 10, usize::from(n));
    filled.report_information_count = n;
    filled.pan_ids = pan_ids;
    filled
}

// A link power delta with its power list.
pub fn with_power_list(command: NwkCommand, s: &[u8]) -> NwkCommandWithLists
    requires { get_or s.now 2 0 ≤ 35 }
    ensures { result ≡ listed NwkCommandList.PowerList command s.now }
{
    let mut filled = NwkCommandWithLists::blank(command);
    let n = octets::byte_at(s, 2);
    let powers = lists::read_power_list(s, 3, usize::from(n));
    filled.list_count = n;
    filled.power_list = powers;
    filled
}

// An unparsed command: all the bytes, as they are.
pub fn keep_unparsed(s: &[u8]) -> NwkCommandWithLists
    requires { length s.now ≤ 108 }
    ensures { result ≡ unparsed s.now }
{
    let mut bytes = [0; 108];
    bytes[..s.len()].copy_from_slice(s);
    NwkCommandWithLists {
        unparsed_len: s.len() as u8,
        unparsed: bytes,
        ..NwkCommandWithLists::blank(NwkCommand::Unparsed)
    }
}
