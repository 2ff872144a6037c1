// The body writers, one for each of the fifteen commands (Zigbee 3.4.1 to 3.4.15): the identifier and the body at the front
// of a lent output, whose rest stays.
#![tactic(auto, unfolding(crate::proofs::Layouts::layouts), using(octets::proofs::Strings::over_over, octets::proofs::Numbers::length_le))]

ghost use Rattle.std.specs.Prelude.{◌≡◌, ◌+◌, ◌*◌, ◌≤◌, length};
ghost use Rattle.octets.specs.Strings.{over};
ghost use Rattle.types.specs.Optional.{ieee_bytes};
ghost use Rattle.commands.specs.Commands.{route_request_values, route_reply_values, network_status_values, leave_values, route_record_values, rejoin_request_values, rejoin_response_values, link_status_values, network_report_values, network_update_values, timeout_request_values, timeout_response_values, link_power_delta_values, commissioning_request_values, commissioning_response_values};
ghost use Rattle.commands.specs.Writing.{Wire, wire_bytes};
ghost use Rattle.commands.specs.declared.NwkCommandId.{NwkCommandId};
ghost use Rattle.command_writer.specs.Options.{LowCosts};

use crate::{options, puts};
use commands::*;
use types::*;

// 3.4.1 Route Request.
pub fn write_route_request(c: NwkRouteRequestCommand, out: &mut [u8])
    requires { 6 + length (ieee_bytes c.destination_eui64) ≤ length out.old }
    ensures { out.new ≡ over out.old 0 (wire_bytes (Wire.body NwkCommandId.RouteRequest (route_request_values c))) }
{
    let flags = options::route_request_options(
        c.many_to_one.code(),
        has_address(c.destination_eui64),
    );
    let id = NwkCommandId::RouteRequest as u8;
    octets::copy_at(out, 0, &[id, flags, c.route_request_identifier]);
    octets::put_u16(out, 3, c.destination_address.0);
    octets::put_u8(out, 5, c.path_cost);
    put_ieee(c.destination_eui64, out, 6);
}

// 3.4.2 Route Reply.
pub fn write_route_reply(c: NwkRouteReplyCommand, out: &mut [u8])
    requires { 8 + length (ieee_bytes c.originator_eui64) + length (ieee_bytes c.responder_eui64) ≤ length out.old }
    ensures { out.new ≡ over out.old 0 (wire_bytes (Wire.body NwkCommandId.RouteReply (route_reply_values c))) }
{
    let flags = options::route_reply_options(
        has_address(c.originator_eui64),
        has_address(c.responder_eui64),
    );
    let id = NwkCommandId::RouteReply as u8;
    octets::copy_at(out, 0, &[id, flags, c.route_request_identifier]);
    octets::put_u16(out, 3, c.originator_nwk.0);
    octets::put_u16(out, 5, c.responder_nwk.0);
    octets::put_u8(out, 7, c.path_cost);
    let responder_at = put_ieee(c.originator_eui64, out, 8);
    put_ieee(c.responder_eui64, out, responder_at);
}

// 3.4.3 Network Status.
pub fn write_network_status(c: NwkNetworkStatusCommand, out: &mut [u8])
    requires { 4 ≤ length out.old }
    ensures { out.new ≡ over out.old 0 (wire_bytes (Wire.body NwkCommandId.NetworkStatus (network_status_values c))) }
{
    let id = NwkCommandId::NetworkStatus as u8;
    octets::copy_at(out, 0, &[id, c.status_code.code()]);
    octets::put_u16(out, 2, c.network_address.0);
}

// 3.4.4 Leave.
pub fn write_leave(c: NwkLeaveCommand, out: &mut [u8])
    requires { 2 ≤ length out.old }
    ensures { out.new ≡ over out.old 0 (wire_bytes (Wire.body NwkCommandId.Leave (leave_values c))) }
{
    let flags = options::leave_options(c.rejoin, c.request, c.remove_children);
    octets::copy_at(out, 0, &[NwkCommandId::Leave as u8, flags]);
}

// 3.4.5 Route Record.
pub fn write_route_record(relays: [Nwk; 53], n: u8, out: &mut [u8])
    requires { (n ≤ 53) × (2 + n * 2 ≤ length out.old) }
    ensures { out.new ≡ over out.old 0 (wire_bytes (Wire.body NwkCommandId.RouteRecord (route_record_values relays n))) }
{
    octets::copy_at(out, 0, &[NwkCommandId::RouteRecord as u8, n]);
    lists::put_relays(out, 2, relays, usize::from(n));
}

// 3.4.6 Rejoin Request.
pub fn write_rejoin_request(c: NwkRejoinRequestCommand, out: &mut [u8])
    requires { 2 ≤ length out.old }
    ensures { out.new ≡ over out.old 0 (wire_bytes (Wire.body NwkCommandId.RejoinRequest (rejoin_request_values c))) }
{
    let capability = options::capability_byte(c.capability_information);
    octets::copy_at(out, 0, &[NwkCommandId::RejoinRequest as u8, capability]);
}

// 3.4.7 Rejoin Response.
pub fn write_rejoin_response(c: NwkRejoinResponseCommand, out: &mut [u8])
    requires { 4 ≤ length out.old }
    ensures { out.new ≡ over out.old 0 (wire_bytes (Wire.body NwkCommandId.RejoinResponse (rejoin_response_values c))) }
{
    octets::put_u8(out, 0, NwkCommandId::RejoinResponse as u8);
    octets::put_u16(out, 1, c.network_address.0);
    octets::put_u8(out, 3, c.rejoin_status.code());
}

// 3.4.8 Link Status.
pub fn write_link_status(c: NwkLinkStatusCommand, links: [NwkLinkStatus; 31], n: u8, out: &mut [u8])
    requires { (n ≤ 31) × (2 + n * 3 ≤ length out.old) × LowCosts links n }
    ensures { out.new ≡ over out.old 0 (wire_bytes (Wire.body NwkCommandId.LinkStatus (link_status_values c links n))) }
{
    let flags = options::link_status_options(n, c.is_first_frame, c.is_last_frame);
    octets::copy_at(out, 0, &[NwkCommandId::LinkStatus as u8, flags]);
    puts::put_links(out, 2, links, usize::from(n));
}

// 3.4.9 Network Report.
pub fn write_network_report(c: NwkNetworkReportCommand, ids: [PanId; 31], n: u8, out: &mut [u8])
    requires { (n ≤ 31) × (10 + n * 2 ≤ length out.old) }
    ensures { out.new ≡ over out.old 0 (wire_bytes (Wire.body NwkCommandId.NetworkReport (network_report_values c ids n))) }
{
    let flags = options::count_and_identifier(n, c.report_command_identifier.code());
    octets::copy_at(out, 0, &[NwkCommandId::NetworkReport as u8, flags]);
    octets::put_u64(out, 2, c.epid);
    lists::put_pan_ids(out, 10, ids, usize::from(n));
}

// 3.4.10 Network Update.
pub fn write_network_update(c: NwkNetworkUpdateCommand, out: &mut [u8])
    requires { (c.update_information_count ≤ 31) × (13 ≤ length out.old) }
    ensures { out.new ≡ over out.old 0 (wire_bytes (Wire.body NwkCommandId.NetworkUpdate (network_update_values c))) }
{
    let flags = options::count_and_identifier(
        c.update_information_count,
        c.update_command_identifier.code(),
    );
    octets::copy_at(out, 0, &[NwkCommandId::NetworkUpdate as u8, flags]);
    octets::put_u64(out, 2, c.epid);
    octets::put_u8(out, 10, c.update_id);
    octets::put_u16(out, 11, c.new_pan_id.0);
}

// 3.4.11 End Device Timeout Request.
pub fn write_timeout_request(c: NwkEndDeviceTimeoutRequestCommand, out: &mut [u8])
    requires { 3 ≤ length out.old }
    ensures { out.new ≡ over out.old 0 (wire_bytes (Wire.body NwkCommandId.EndDeviceTimeoutRequest (timeout_request_values c))) }
{
    let id = NwkCommandId::EndDeviceTimeoutRequest as u8;
    let timeout = c.request_timeout_enum.code();
    octets::copy_at(out, 0, &[id, timeout, c.end_device_configuration]);
}

// 3.4.12 End Device Timeout Response.
pub fn write_timeout_response(c: NwkEndDeviceTimeoutResponseCommand, out: &mut [u8])
    requires { 3 ≤ length out.old }
    ensures { out.new ≡ over out.old 0 (wire_bytes (Wire.body NwkCommandId.EndDeviceTimeoutResponse (timeout_response_values c))) }
{
    let flags = options::parent_information(
        c.mac_data_poll_keepalive_supported,
        c.end_device_timeout_request_keepalive_supported,
        c.power_negotation_support,
    );
    let id = NwkCommandId::EndDeviceTimeoutResponse as u8;
    octets::copy_at(out, 0, &[id, c.status.code(), flags]);
}

// 3.4.13 Link Power Delta.
pub fn write_link_power_delta(
    c: NwkLinkPowerDeltaCommand,
    powers: [NwkPowerListEntry; 35],
    n: u8,
    out: &mut [u8],
)
    requires { (n ≤ 35) × (3 + n * 3 ≤ length out.old) }
    ensures { out.new ≡ over out.old 0 (wire_bytes (Wire.body NwkCommandId.LinkPowerDelta (link_power_delta_values c powers n))) }
{
    let flags = options::power_options(c.command_type.code());
    octets::copy_at(out, 0, &[NwkCommandId::LinkPowerDelta as u8, flags, n]);
    lists::put_powers(out, 3, powers, usize::from(n));
}

// 3.4.14 Network Commissioning Request.
pub fn write_commissioning_request(c: NwkNetworkCommissioningRequestCommand, out: &mut [u8])
    requires { 3 ≤ length out.old }
    ensures { out.new ≡ over out.old 0 (wire_bytes (Wire.body NwkCommandId.NetworkCommissioningRequest (commissioning_request_values c))) }
{
    let id = NwkCommandId::NetworkCommissioningRequest as u8;
    let capability = options::capability_byte(c.capability_information);
    octets::copy_at(out, 0, &[id, c.commissioning_type.code(), capability]);
}

// 3.4.15 Network Commissioning Response.
pub fn write_commissioning_response(c: NwkNetworkCommissioningResponseCommand, out: &mut [u8])
    requires { 4 ≤ length out.old }
    ensures { out.new ≡ over out.old 0 (wire_bytes (Wire.body NwkCommandId.NetworkCommissioningResponse (commissioning_response_values c))) }
{
    octets::put_u8(out, 0, NwkCommandId::NetworkCommissioningResponse as u8);
    octets::put_u16(out, 1, c.network_address.0);
    octets::put_u8(out, 3, c.status.code());
}
