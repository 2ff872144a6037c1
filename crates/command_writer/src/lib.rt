// Writing a NWK command (document 01, "Commands"): refusals 13, 17 and 18, then the bytes at the front of a lent output.
#![tactic(auto)]

mod checks;
mod encoders;
mod options;
mod puts;

ghost use Rattle.std.specs.Prelude.{◌≡◌, length};
ghost use Rattle.octets.specs.Strings.{over};
ghost use Rattle.octets.specs.Writing.{told};
ghost use Rattle.commands.specs.Writing.{command_bytes, write_refusal, write_command};

use commands::*;
use octets::refusals::Refusal;

// The bytes of a command that is not refused, at the front of the output.
#[tactic(auto, unfolding(commands::specs::Writing::command_bytes, commands::specs::Writing::wire, commands::specs::Writing::wire_of))]
fn write_command(given: NwkCommandWithLists, out: &mut [u8])
    requires { write_refusal given (length out.old) ≡ 0 }
    ensures { out.new ≡ over out.old 0 (command_bytes given) }
{
    let command = given.command;
    match command {
        NwkCommand::RouteRequest(c) => encoders::write_route_request(c, out),
        NwkCommand::RouteReply(c) => encoders::write_route_reply(c, out),
        NwkCommand::NetworkStatus(c) => encoders::write_network_status(c, out),
        NwkCommand::Leave(c) => encoders::write_leave(c, out),
        NwkCommand::RouteRecord => {
            let relays = given.relays;
            encoders::write_route_record(relays, given.relay_count, out);
        }
        NwkCommand::RejoinRequest(c) => encoders::write_rejoin_request(c, out),
        NwkCommand::RejoinResponse(c) => encoders::write_rejoin_response(c, out),
        NwkCommand::LinkStatus(c) => {
            let links = given.link_statuses;
            encoders::write_link_status(c, links, given.link_statuses_len, out);
        }
        NwkCommand::NetworkReport(c) => {
            let ids = given.pan_ids;
            encoders::write_network_report(c, ids, given.report_information_count, out);
        }
        NwkCommand::NetworkUpdate(c) => encoders::write_network_update(c, out),
        NwkCommand::EndDeviceTimeoutRequest(c) => encoders::write_timeout_request(c, out),
        NwkCommand::EndDeviceTimeoutResponse(c) => encoders::write_timeout_response(c, out),
        NwkCommand::LinkPowerDelta(c) => {
            let powers = given.power_list;
            encoders::write_link_power_delta(c, powers, given.list_count, out);
        }
        NwkCommand::NetworkCommissioningRequest(c) => encoders::write_commissioning_request(c, out),
        NwkCommand::NetworkCommissioningResponse(c) => encoders::write_commissioning_response(
            c, out,
        ),
        NwkCommand::Unparsed => {
            let bytes = given.unparsed;
            let n = given.unparsed_len as usize;
            octets::copy_at(out, 0, &bytes[..n]);
        }
    }
}

// Write a command: a refusal changes nothing, else the output's first bytes are the command and the rest stays.
#[tactic(auto, unfolding(commands::specs::Writing::write_command, octets::specs::Writing::written, octets::specs::Refusals::unless))]
pub fn serialize(given: NwkCommandWithLists, out: &mut [u8]) -> Result<usize, Refusal>
    ensures answer { told result ≡ (write_command given out.old).answer }
    ensures buffer { out.new ≡ (write_command given out.old).out }
{
    let n = checks::check(given, out.len())?;
    write_command(given, out);
    Ok(n)
}
