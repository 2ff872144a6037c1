// What is looked at before a command is written: its exact length, and refusals 13, 17 and 18 in this order.

ghost use Rattle.std.specs.Prelude.{◌≡◌, not, ◌||◌, ◌≤◌, length, ltb, IfOk};
ghost use Rattle.octets.specs.Refusals.{refused};
ghost use Rattle.commands.specs.Format.{held_fields, held_entries};
ghost use Rattle.commands.specs.Commands.{link_status_format, link_entry, link_entries};
ghost use Rattle.commands.specs.Reading.{list_of};
ghost use Rattle.commands.specs.Writing.{wire, misfits, command_bytes, write_refusal};

use commands::*;
use octets::refusals::Refusal;
use types::{MAX_NSDU_SIZE, ieee_size};

// The exact length of a command's bytes.
#[tactic(auto, using(crate::proofs::Ready::length_command))]
fn length_of(given: NwkCommandWithLists) -> usize
    ensures { result ≡ length (command_bytes given) }
{
    match given.command {
        NwkCommand::RouteRequest(c) => 6 + ieee_size(c.destination_eui64),
        NwkCommand::RouteReply(c) => 8
            + ieee_size(c.originator_eui64)
            + ieee_size(c.responder_eui64),
        NwkCommand::NetworkStatus(_) => 4,
        NwkCommand::Leave(_) => 2,
        NwkCommand::RouteRecord => 2 + usize::from(given.relay_count) * 2,
        NwkCommand::RejoinRequest(_) => 2,
        NwkCommand::RejoinResponse(_) => 4,
        NwkCommand::LinkStatus(_) => 2 + usize::from(given.link_statuses_len) * 3,
        NwkCommand::NetworkReport(_) => 10 + usize::from(given.report_information_count) * 2,
        NwkCommand::NetworkUpdate(_) => 13,
        NwkCommand::EndDeviceTimeoutRequest(_) => 3,
        NwkCommand::EndDeviceTimeoutResponse(_) => 3,
        NwkCommand::LinkPowerDelta(_) => 3 + usize::from(given.list_count) * 3,
        NwkCommand::NetworkCommissioningRequest(_) => 3,
        NwkCommand::NetworkCommissioningResponse(_) => 4,
        NwkCommand::Unparsed => usize::from(given.unparsed_len),
    }
}

// A link status entry has a cost over 7.
#[tactic(auto, unfolding(crate::proofs::Layouts::layouts, commands::specs::Format::held_fields, commands::specs::Format::held_field, commands::specs::Format::held_parts))]
fn link_misfits(link: NwkLinkStatus) -> bool
    ensures { result ≡ not (held_fields link_status_format.entry (link_entry link)) }
{
    link.incoming_cost > 7 || link.outgoing_cost > 7
}

// A link status has too many entries, or one of them a cost over 7.
fn link_status_misfits(links: [NwkLinkStatus; 31], n: u8) -> bool
    ensures { result ≡ (ltb 31 n || not (held_entries link_status_format.entry (link_entries links n))) }
{
    n > 31
        || links[..usize::from(n)]
            .iter()
            .any(|link| link_misfits(*link))
}

// A field exceeds its bits, or the command's list its places.
fn misfits(given: NwkCommandWithLists) -> bool
    ensures { result ≡ misfits (list_of given.command) (wire given) }
{
    match given.command {
        NwkCommand::RouteRecord => given.relay_count > 53,
        NwkCommand::LinkStatus(_) => link_status_misfits(
            given.link_statuses,
            given.link_statuses_len,
        ),
        NwkCommand::NetworkReport(_) => given.report_information_count > 31,
        NwkCommand::NetworkUpdate(c) => c.update_information_count > 31,
        NwkCommand::LinkPowerDelta(_) => given.list_count > 35,
        _ => false,
    }
}

// The length of a command that can be written into so much room, or refusal 13, 17 or 18, in this order.
#[tactic(auto, unfolding(commands::specs::Writing::write_refusal, commands::specs::Writing::field_refusal, octets::specs::Refusals::first_of, octets::specs::Refusals::unless))]
pub fn check(given: NwkCommandWithLists, room: usize) -> Result<usize, Refusal>
    ensures refusal { refused result ≡ write_refusal given room }
    ensures length { IfOk result (λ n. n ≡ length (command_bytes given)) }
{
    let n = length_of(given);
    if misfits(given) {
        return Err(Refusal::Field);
    }
    if n > MAX_NSDU_SIZE {
        return Err(Refusal::Length);
    }
    if n > room {
        return Err(Refusal::NoRoom);
    }
    Ok(n)
}
