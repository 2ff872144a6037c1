// Reading a NWK command (document 01, "Commands"): the typed body where there is one, else all the bytes.
#![tactic(auto)]

mod bodies;
mod lists;

ghost use Rattle.std.specs.Prelude.{◌≡◌, ◌≤◌, length};
ghost use Rattle.commands.specs.Reading.{listed, list_of, typed, read_command, told_command};

use commands::*;
use octets::refusals::Refusal;
use types::MAX_NSDU_SIZE;

// A typed command with the list that the bytes hold.
fn with_list(command: NwkCommand, s: &[u8]) -> NwkCommandWithLists
    requires { (typed s.now ≡ Some command) × (length s.now ≤ 108) }
    ensures { result ≡ listed (list_of command) command s.now }
{
    match command.list() {
        NwkCommandList::Relays => lists::with_relays(command, s),
        NwkCommandList::LinkStatuses => lists::with_link_statuses(command, s),
        NwkCommandList::PanIds => lists::with_pan_ids(command, s),
        NwkCommandList::PowerList => lists::with_power_list(command, s),
        NwkCommandList::NoList | NwkCommandList::Bytes => NwkCommandWithLists::blank(command),
    }
}

// Read a command: refusal 12 above 108 bytes, and everything else is accepted.
pub fn from_bytes(s: &[u8]) -> Result<NwkCommandWithLists, Refusal>
    ensures { told_command result ≡ read_command s.now }
{
    if s.len() > MAX_NSDU_SIZE {
        return Err(Refusal::Payload);
    }
    let Some(command) = bodies::try_parse(s) else {
        return Ok(lists::keep_unparsed(s));
    };
    Ok(with_list(command, s))
}
