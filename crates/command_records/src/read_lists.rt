// The lists of a command record, every place of them.

ghost use Rattle.std.specs.Prelude.{◌≡◌, ℕ, ◌+◌, ◌*◌, ◌<◌, get_or};
ghost use Rattle.octets.specs.Strings.{tab};
ghost use Rattle.command_records.specs.Lists.{link_record_at, with_lists_at};

use commands::{NO_LINK, NwkCommand, NwkCommandWithLists, NwkLinkStatus, lists};
use types::Nwk;

// The link status at place i.
fn link_at(bytes: &[u8], i: usize) -> NwkLinkStatus
    requires { i < 1000 }
    ensures { result ≡ link_record_at bytes.now i }
{
    NwkLinkStatus {
        address: Nwk(octets::read_u16(bytes, i)),
        incoming_cost: octets::byte_at(bytes, i + 2),
        outgoing_cost: octets::byte_at(bytes, i + 3),
    }
}

// The 31 link statuses.
fn links_at(bytes: &[u8]) -> [NwkLinkStatus; 31]
    ensures { result ≡ tab (λ (k : ℕ). link_record_at bytes.now (133 + k * 4)) 31 }
{
    let mut links = [NO_LINK; 31];
    let mut i = 0;
    while i < 31 {
        links[i] = link_at(bytes, 133 + i * 4);
        i += 1;
    }
    links
}

// The 108 places of an unparsed command.
fn unparsed_at(bytes: &[u8]) -> [u8; 108]
    ensures { result ≡ tab (λ (k : ℕ). get_or bytes.now (427 + k) 0) 108 }
{
    let mut unparsed = [0u8; 108];
    let mut i = 0;
    while i < 108 {
        unparsed[i] = octets::byte_at(bytes, 427 + i);
        i += 1;
    }
    unparsed
}

// A command with the lists of a record.
pub fn with_lists_at(bytes: &[u8], command: NwkCommand) -> NwkCommandWithLists
    ensures { result ≡ with_lists_at command bytes.now }
{
    NwkCommandWithLists {
        command,
        relay_count: octets::byte_at(bytes, 25),
        relays: lists::read_relays(bytes, 26, 53),
        link_statuses_len: octets::byte_at(bytes, 132),
        link_statuses: links_at(bytes),
        report_information_count: octets::byte_at(bytes, 257),
        pan_ids: lists::read_pan_ids(bytes, 258, 31),
        list_count: octets::byte_at(bytes, 320),
        power_list: lists::read_power_list(bytes, 321, 35),
        unparsed_len: octets::byte_at(bytes, 426),
        unparsed: unparsed_at(bytes),
    }
}
