// The identifier and the fields of a command record.
#![tactic(auto, unfolding(crate::specs::Fields::field_bytes, octets::specs::Numbers::le), using(octets::proofs::Strings::over_over, octets::proofs::Numbers::length_le))]

ghost use Rattle.std.specs.Prelude.{◌≡◌, [], ◌∷◌, ◌++◌, ◌+◌, ◌≤◌, length};
ghost use Rattle.octets.specs.Strings.{over};
ghost use Rattle.octets.specs.Numbers.{le};
ghost use Rattle.commands.specs.Commands.{capability_values};
ghost use Rattle.commands.specs.declared.NwkCommand.{NwkCommand};
ghost use Rattle.command_records.specs.Fields.{address_record, field_bytes, fields_record};

use commands::*;
use octets::bit_of;
use types::Nwk;

// Write the nine bytes of an optional address at place i.
#[tactic(auto, unfolding(crate::specs::Fields::address_record, octets::specs::Numbers::le), using(octets::proofs::Strings::over_over, octets::proofs::Numbers::length_le))]
fn put_address(out: &mut [u8], i: usize, a: Option<u64>)
    requires { i + 9 ≤ length out.old }
    ensures { out.new ≡ over out.old i (address_record a) }
{
    octets::put_u8(out, i, has_address(a));
    octets::put_u64(out, i + 1, a.unwrap_or(0));
}

// Write the eight bytes of the capability information at place i (Zigbee 3.4.6).
#[tactic(auto, unfolding(commands::specs::Commands::capability_values))]
fn put_capability(out: &mut [u8], i: usize, c: NwkRejoinCapabilityInformation)
    requires { i + 8 ≤ length out.old }
    ensures { out.new ≡ over out.old i (capability_values c) }
{
    let values = [
        bit_of(c.alternate_pan_coordinator),
        c.device_type.code(),
        c.power_source.code(),
        bit_of(c.receiver_on_when_idle),
        bit_of(c.reserved1),
        bit_of(c.reserved2),
        bit_of(c.security_capability),
        bit_of(c.allocate_address),
    ];
    octets::copy_at(out, i, &values);
}

// 3.4.1 Route Request.
fn put_route_request(out: &mut [u8], c: NwkRouteRequestCommand)
    requires { 25 ≤ length out.old }
    ensures { out.new ≡ over out.old 0 (field_bytes (NwkCommand.RouteRequest c)) }
{
    let id = NwkCommandId::RouteRequest as u8;
    let many_to_one = c.many_to_one.code();
    octets::copy_at(out, 0, &[id, many_to_one, c.route_request_identifier]);
    octets::put_u16(out, 3, c.destination_address.0);
    octets::put_u8(out, 5, c.path_cost);
    put_address(out, 6, c.destination_eui64);
}

// 3.4.2 Route Reply.
fn put_route_reply(out: &mut [u8], c: NwkRouteReplyCommand)
    requires { 25 ≤ length out.old }
    ensures { out.new ≡ over out.old 0 (field_bytes (NwkCommand.RouteReply c)) }
{
    let id = NwkCommandId::RouteReply as u8;
    octets::copy_at(out, 0, &[id, c.route_request_identifier]);
    octets::put_u16(out, 2, c.originator_nwk.0);
    octets::put_u16(out, 4, c.responder_nwk.0);
    octets::put_u8(out, 6, c.path_cost);
    put_address(out, 7, c.originator_eui64);
    put_address(out, 16, c.responder_eui64);
}

// 3.4.3 Network Status.
fn put_network_status(out: &mut [u8], c: NwkNetworkStatusCommand)
    requires { 25 ≤ length out.old }
    ensures { out.new ≡ over out.old 0 (field_bytes (NwkCommand.NetworkStatus c)) }
{
    let id = NwkCommandId::NetworkStatus as u8;
    octets::copy_at(out, 0, &[id, c.status_code.code()]);
    octets::put_u16(out, 2, c.network_address.0);
}

// 3.4.4 Leave.
fn put_leave(out: &mut [u8], c: NwkLeaveCommand)
    requires { 25 ≤ length out.old }
    ensures { out.new ≡ over out.old 0 (field_bytes (NwkCommand.Leave c)) }
{
    let values = [
        NwkCommandId::Leave as u8,
        bit_of(c.rejoin),
        bit_of(c.request),
        bit_of(c.remove_children),
    ];
    octets::copy_at(out, 0, &values);
}

// 3.4.6 Rejoin Request.
fn put_rejoin_request(out: &mut [u8], c: NwkRejoinRequestCommand)
    requires { 25 ≤ length out.old }
    ensures { out.new ≡ over out.old 0 (field_bytes (NwkCommand.RejoinRequest c)) }
{
    octets::put_u8(out, 0, NwkCommandId::RejoinRequest as u8);
    put_capability(out, 1, c.capability_information);
}

// 3.4.7 Rejoin Response and 3.4.15 Network Commissioning Response: an address and a status.
fn put_response(out: &mut [u8], id: u8, address: Nwk, status: u8)
    requires { 25 ≤ length out.old }
    ensures { out.new ≡ over out.old 0 (id ∷ (le 2 address.0 ++ (status ∷ []))) }
{
    octets::put_u8(out, 0, id);
    octets::put_u16(out, 1, address.0);
    octets::put_u8(out, 3, status);
}

// 3.4.7 Rejoin Response.
fn put_rejoin_response(out: &mut [u8], c: NwkRejoinResponseCommand)
    requires { 25 ≤ length out.old }
    ensures { out.new ≡ over out.old 0 (field_bytes (NwkCommand.RejoinResponse c)) }
{
    let id = NwkCommandId::RejoinResponse as u8;
    put_response(out, id, c.network_address, c.rejoin_status.code());
}

// 3.4.8 Link Status.
fn put_link_status(out: &mut [u8], c: NwkLinkStatusCommand)
    requires { 25 ≤ length out.old }
    ensures { out.new ≡ over out.old 0 (field_bytes (NwkCommand.LinkStatus c)) }
{
    let id = NwkCommandId::LinkStatus as u8;
    octets::copy_at(
        out,
        0,
        &[id, bit_of(c.is_first_frame), bit_of(c.is_last_frame)],
    );
}

// 3.4.9 Network Report.
fn put_network_report(out: &mut [u8], c: NwkNetworkReportCommand)
    requires { 25 ≤ length out.old }
    ensures { out.new ≡ over out.old 0 (field_bytes (NwkCommand.NetworkReport c)) }
{
    let id = NwkCommandId::NetworkReport as u8;
    octets::copy_at(out, 0, &[id, c.report_command_identifier.code()]);
    octets::put_u64(out, 2, c.epid);
}

// 3.4.10 Network Update.
fn put_network_update(out: &mut [u8], c: NwkNetworkUpdateCommand)
    requires { 25 ≤ length out.old }
    ensures { out.new ≡ over out.old 0 (field_bytes (NwkCommand.NetworkUpdate c)) }
{
    let id = NwkCommandId::NetworkUpdate as u8;
    let identifier = c.update_command_identifier.code();
    octets::copy_at(out, 0, &[id, c.update_information_count, identifier]);
    octets::put_u64(out, 3, c.epid);
    octets::put_u8(out, 11, c.update_id);
    octets::put_u16(out, 12, c.new_pan_id.0);
}

// 3.4.11 End Device Timeout Request.
fn put_timeout_request(out: &mut [u8], c: NwkEndDeviceTimeoutRequestCommand)
    requires { 25 ≤ length out.old }
    ensures { out.new ≡ over out.old 0 (field_bytes (NwkCommand.EndDeviceTimeoutRequest c)) }
{
    let id = NwkCommandId::EndDeviceTimeoutRequest as u8;
    let timeout = c.request_timeout_enum.code();
    octets::copy_at(out, 0, &[id, timeout, c.end_device_configuration]);
}

// 3.4.12 End Device Timeout Response.
fn put_timeout_response(out: &mut [u8], c: NwkEndDeviceTimeoutResponseCommand)
    requires { 25 ≤ length out.old }
    ensures { out.new ≡ over out.old 0 (field_bytes (NwkCommand.EndDeviceTimeoutResponse c)) }
{
    let values = [
        NwkCommandId::EndDeviceTimeoutResponse as u8,
        c.status.code(),
        bit_of(c.mac_data_poll_keepalive_supported),
        bit_of(c.end_device_timeout_request_keepalive_supported),
        bit_of(c.power_negotation_support),
    ];
    octets::copy_at(out, 0, &values);
}

// 3.4.13 Link Power Delta.
fn put_link_power_delta(out: &mut [u8], c: NwkLinkPowerDeltaCommand)
    requires { 25 ≤ length out.old }
    ensures { out.new ≡ over out.old 0 (field_bytes (NwkCommand.LinkPowerDelta c)) }
{
    let id = NwkCommandId::LinkPowerDelta as u8;
    octets::copy_at(out, 0, &[id, c.command_type.code()]);
}

// 3.4.14 Network Commissioning Request.
fn put_commissioning_request(out: &mut [u8], c: NwkNetworkCommissioningRequestCommand)
    requires { 25 ≤ length out.old }
    ensures { out.new ≡ over out.old 0 (field_bytes (NwkCommand.NetworkCommissioningRequest c)) }
{
    let id = NwkCommandId::NetworkCommissioningRequest as u8;
    octets::copy_at(out, 0, &[id, c.commissioning_type.code()]);
    put_capability(out, 2, c.capability_information);
}

// 3.4.15 Network Commissioning Response.
fn put_commissioning_response(out: &mut [u8], c: NwkNetworkCommissioningResponseCommand)
    requires { 25 ≤ length out.old }
    ensures { out.new ≡ over out.old 0 (field_bytes (NwkCommand.NetworkCommissioningResponse c)) }
{
    let id = NwkCommandId::NetworkCommissioningResponse as u8;
    put_response(out, id, c.network_address, c.status.code());
}

// Write the identifier and the fields of a command over the front of the output.
fn put_own_fields(out: &mut [u8], command: NwkCommand)
    requires { 25 ≤ length out.old }
    ensures { out.new ≡ over out.old 0 (field_bytes command) }
{
    match command {
        NwkCommand::RouteRequest(c) => put_route_request(out, c),
        NwkCommand::RouteReply(c) => put_route_reply(out, c),
        NwkCommand::NetworkStatus(c) => put_network_status(out, c),
        NwkCommand::Leave(c) => put_leave(out, c),
        NwkCommand::RouteRecord => octets::put_u8(out, 0, NwkCommandId::RouteRecord as u8),
        NwkCommand::RejoinRequest(c) => put_rejoin_request(out, c),
        NwkCommand::RejoinResponse(c) => put_rejoin_response(out, c),
        NwkCommand::LinkStatus(c) => put_link_status(out, c),
        NwkCommand::NetworkReport(c) => put_network_report(out, c),
        NwkCommand::NetworkUpdate(c) => put_network_update(out, c),
        NwkCommand::EndDeviceTimeoutRequest(c) => put_timeout_request(out, c),
        NwkCommand::EndDeviceTimeoutResponse(c) => put_timeout_response(out, c),
        NwkCommand::LinkPowerDelta(c) => put_link_power_delta(out, c),
        NwkCommand::NetworkCommissioningRequest(c) => put_commissioning_request(out, c),
        NwkCommand::NetworkCommissioningResponse(c) => put_commissioning_response(out, c),
        NwkCommand::Unparsed => octets::put_u8(out, 0, 0),
    }
}

// Write the 25 bytes of identifier and fields to the front of the output.
pub fn put_fields(out: &mut [u8], command: NwkCommand)
    requires { 25 ≤ length out.old }
    ensures { out.new ≡ over out.old 0 (fields_record command) }
{
    octets::copy_at(out, 0, &[0; 25]);
    put_own_fields(out, command);
}
