// The command that a record's identifier and fields encode: one function for each of the fifteen, which answers a command, or
// that a code is undeclared.
#![tactic(auto, unfolding(crate::proofs::Layouts::layouts))]

ghost use Rattle.std.specs.Prelude.{◌≡◌, ◌+◌, ◌<◌, get_or, drop};
ghost use Rattle.octets.specs.Numbers.{le_at};
ghost use Rattle.commands.specs.declared.NwkCommandId.{NwkCommandId};
ghost use Rattle.commands.specs.Codes.{is_set};
ghost use Rattle.commands.specs.Commands.{address_of, capability_of};
ghost use Rattle.commands.specs.Reading.{command_of};
ghost use Rattle.command_records.specs.Fields.{record_values, are_flags, flags_fit, said};

use commands::*;
use types::{Nwk, PanId};

// The byte at place i is 1.
fn flag(bytes: &[u8], i: usize) -> bool
    ensures { result ≡ is_set (get_or bytes.now i 0) }
{
    octets::byte_at(bytes, i) == 1
}

// The optional address whose presence byte stands at place i.
#[tactic(auto, unfolding(commands::specs::Commands::address_of))]
fn address_at(bytes: &[u8], i: usize) -> Option<u64>
    requires { i < 1000 }
    ensures { result ≡ address_of (get_or bytes.now i 0) (le_at 8 bytes.now (i + 1)) }
{
    flag(bytes, i).then_some(octets::read_u64(bytes, i + 1))
}

// The capability information of the eight bytes from place i.
fn capability_at(bytes: &[u8], i: usize) -> NwkRejoinCapabilityInformation
    requires { i < 1000 }
    ensures { result ≡ capability_of (drop i bytes.now) }
{
    NwkRejoinCapabilityInformation {
        alternate_pan_coordinator: flag(bytes, i),
        device_type: flag(bytes, i + 1).into(),
        power_source: flag(bytes, i + 2).into(),
        receiver_on_when_idle: flag(bytes, i + 3),
        reserved1: flag(bytes, i + 4),
        reserved2: flag(bytes, i + 5),
        security_capability: flag(bytes, i + 6),
        allocate_address: flag(bytes, i + 7),
    }
}

// 3.4.1 Route Request.
fn route_request_at(bytes: &[u8]) -> Option<NwkCommand>
    ensures { result ≡ command_of NwkCommandId.RouteRequest (record_values NwkCommandId.RouteRequest bytes.now) }
{
    let many_to_one = NwkRouteRequestManyToOne::try_from(octets::byte_at(bytes, 1)).ok()?;
    let destination_eui64 = address_at(bytes, 6);
    Some(NwkCommand::RouteRequest(NwkRouteRequestCommand {
        many_to_one,
        route_request_identifier: octets::byte_at(bytes, 2),
        destination_address: Nwk(octets::read_u16(bytes, 3)),
        path_cost: octets::byte_at(bytes, 5),
        destination_eui64,
    }))
}

// 3.4.2 Route Reply.
fn route_reply_at(bytes: &[u8]) -> Option<NwkCommand>
    ensures { result ≡ command_of NwkCommandId.RouteReply (record_values NwkCommandId.RouteReply bytes.now) }
{
    let originator_eui64 = address_at(bytes, 7);
    let responder_eui64 = address_at(bytes, 16);
    Some(NwkCommand::RouteReply(NwkRouteReplyCommand {
        route_request_identifier: octets::byte_at(bytes, 1),
        originator_nwk: Nwk(octets::read_u16(bytes, 2)),
        responder_nwk: Nwk(octets::read_u16(bytes, 4)),
        path_cost: octets::byte_at(bytes, 6),
        originator_eui64,
        responder_eui64,
    }))
}

// 3.4.3 Network Status.
fn network_status_at(bytes: &[u8]) -> Option<NwkCommand>
    ensures { result ≡ command_of NwkCommandId.NetworkStatus (record_values NwkCommandId.NetworkStatus bytes.now) }
{
    let status_code = NwkNetworkStatus::try_from(octets::byte_at(bytes, 1)).ok()?;
    Some(NwkCommand::NetworkStatus(NwkNetworkStatusCommand {
        status_code,
        network_address: Nwk(octets::read_u16(bytes, 2)),
    }))
}

// 3.4.4 Leave.
fn leave_at(bytes: &[u8]) -> Option<NwkCommand>
    ensures { result ≡ command_of NwkCommandId.Leave (record_values NwkCommandId.Leave bytes.now) }
{
    Some(NwkCommand::Leave(NwkLeaveCommand {
        rejoin: flag(bytes, 1),
        request: flag(bytes, 2),
        remove_children: flag(bytes, 3),
    }))
}

// 3.4.6 Rejoin Request.
fn rejoin_request_at(bytes: &[u8]) -> Option<NwkCommand>
    ensures { result ≡ command_of NwkCommandId.RejoinRequest (record_values NwkCommandId.RejoinRequest bytes.now) }
{
    let capability_information = capability_at(bytes, 1);
    Some(NwkCommand::RejoinRequest(NwkRejoinRequestCommand {
        capability_information,
    }))
}

// 3.4.7 Rejoin Response.
fn rejoin_response_at(bytes: &[u8]) -> Option<NwkCommand>
    ensures { result ≡ command_of NwkCommandId.RejoinResponse (record_values NwkCommandId.RejoinResponse bytes.now) }
{
    let rejoin_status = Nwk802154AssociationStatus::try_from(octets::byte_at(bytes, 3)).ok()?;
    Some(NwkCommand::RejoinResponse(NwkRejoinResponseCommand {
        network_address: Nwk(octets::read_u16(bytes, 1)),
        rejoin_status,
    }))
}

// 3.4.8 Link Status.
fn link_status_at(bytes: &[u8]) -> Option<NwkCommand>
    ensures { result ≡ command_of NwkCommandId.LinkStatus (record_values NwkCommandId.LinkStatus bytes.now) }
{
    Some(NwkCommand::LinkStatus(NwkLinkStatusCommand {
        is_first_frame: flag(bytes, 1),
        is_last_frame: flag(bytes, 2),
    }))
}

// 3.4.9 Network Report.
fn network_report_at(bytes: &[u8]) -> Option<NwkCommand>
    ensures { result ≡ command_of NwkCommandId.NetworkReport (record_values NwkCommandId.NetworkReport bytes.now) }
{
    let report_command_identifier = NwkReportCommandIdentifier::try_from(octets::byte_at(
        bytes, 1,
    )).ok()?;
    Some(NwkCommand::NetworkReport(NwkNetworkReportCommand {
        report_command_identifier,
        epid: octets::read_u64(bytes, 2),
    }))
}

// 3.4.10 Network Update.
fn network_update_at(bytes: &[u8]) -> Option<NwkCommand>
    ensures { result ≡ command_of NwkCommandId.NetworkUpdate (record_values NwkCommandId.NetworkUpdate bytes.now) }
{
    let update_command_identifier = NwkUpdateCommandIdentifier::try_from(octets::byte_at(
        bytes, 2,
    )).ok()?;
    Some(NwkCommand::NetworkUpdate(NwkNetworkUpdateCommand {
        update_information_count: octets::byte_at(bytes, 1),
        update_command_identifier,
        epid: octets::read_u64(bytes, 3),
        update_id: octets::byte_at(bytes, 11),
        new_pan_id: PanId(octets::read_u16(bytes, 12)),
    }))
}

// 3.4.11 End Device Timeout Request.
fn timeout_request_at(bytes: &[u8]) -> Option<NwkCommand>
    ensures { result ≡ command_of NwkCommandId.EndDeviceTimeoutRequest (record_values NwkCommandId.EndDeviceTimeoutRequest bytes.now) }
{
    let request_timeout_enum = EndDeviceTimeout::try_from(octets::byte_at(bytes, 1)).ok()?;
    Some(NwkCommand::EndDeviceTimeoutRequest(NwkEndDeviceTimeoutRequestCommand {
        request_timeout_enum,
        end_device_configuration: octets::byte_at(bytes, 2),
    }))
}

// 3.4.12 End Device Timeout Response.
fn timeout_response_at(bytes: &[u8]) -> Option<NwkCommand>
    ensures { result ≡ command_of NwkCommandId.EndDeviceTimeoutResponse (record_values NwkCommandId.EndDeviceTimeoutResponse bytes.now) }
{
    let status = NwkEndDeviceTimeoutResponseStatus::try_from(octets::byte_at(bytes, 1)).ok()?;
    Some(NwkCommand::EndDeviceTimeoutResponse(NwkEndDeviceTimeoutResponseCommand {
        status,
        mac_data_poll_keepalive_supported: flag(bytes, 2),
        end_device_timeout_request_keepalive_supported: flag(bytes, 3),
        power_negotation_support: flag(bytes, 4),
    }))
}

// 3.4.13 Link Power Delta.
fn link_power_delta_at(bytes: &[u8]) -> Option<NwkCommand>
    ensures { result ≡ command_of NwkCommandId.LinkPowerDelta (record_values NwkCommandId.LinkPowerDelta bytes.now) }
{
    let command_type = NwkLinkPowerDeltaType::try_from(octets::byte_at(bytes, 1)).ok()?;
    Some(NwkCommand::LinkPowerDelta(NwkLinkPowerDeltaCommand { command_type }))
}

// 3.4.14 Network Commissioning Request.
fn commissioning_request_at(bytes: &[u8]) -> Option<NwkCommand>
    ensures { result ≡ command_of NwkCommandId.NetworkCommissioningRequest (record_values NwkCommandId.NetworkCommissioningRequest bytes.now) }
{
    let commissioning_type = NwkCommissioningType::try_from(octets::byte_at(bytes, 1)).ok()?;
    let capability_information = capability_at(bytes, 2);
    Some(NwkCommand::NetworkCommissioningRequest(NwkNetworkCommissioningRequestCommand {
        commissioning_type,
        capability_information,
    }))
}

// 3.4.15 Network Commissioning Response.
fn commissioning_response_at(bytes: &[u8]) -> Option<NwkCommand>
    ensures { result ≡ command_of NwkCommandId.NetworkCommissioningResponse (record_values NwkCommandId.NetworkCommissioningResponse bytes.now) }
{
    let status = Nwk802154AssociationStatus::try_from(octets::byte_at(bytes, 3)).ok()?;
    Some(NwkCommand::NetworkCommissioningResponse(NwkNetworkCommissioningResponseCommand {
        network_address: Nwk(octets::read_u16(bytes, 1)),
        status,
    }))
}

// The command of an identifier.
fn body_at(id: NwkCommandId, bytes: &[u8]) -> Option<NwkCommand>
    ensures { result ≡ command_of id (record_values id bytes.now) }
{
    match id {
        NwkCommandId::RouteRequest => route_request_at(bytes),
        NwkCommandId::RouteReply => route_reply_at(bytes),
        NwkCommandId::NetworkStatus => network_status_at(bytes),
        NwkCommandId::Leave => leave_at(bytes),
        NwkCommandId::RouteRecord => Some(NwkCommand::RouteRecord),
        NwkCommandId::RejoinRequest => rejoin_request_at(bytes),
        NwkCommandId::RejoinResponse => rejoin_response_at(bytes),
        NwkCommandId::LinkStatus => link_status_at(bytes),
        NwkCommandId::NetworkReport => network_report_at(bytes),
        NwkCommandId::NetworkUpdate => network_update_at(bytes),
        NwkCommandId::EndDeviceTimeoutRequest => timeout_request_at(bytes),
        NwkCommandId::EndDeviceTimeoutResponse => timeout_response_at(bytes),
        NwkCommandId::LinkPowerDelta => link_power_delta_at(bytes),
        NwkCommandId::NetworkCommissioningRequest => commissioning_request_at(bytes),
        NwkCommandId::NetworkCommissioningResponse => commissioning_response_at(bytes),
    }
}

// The n bytes from place i are each 0 or 1.
fn are_flags(bytes: &[u8], i: usize, n: usize) -> bool
    requires { i + n < 1000 }
    ensures { result ≡ are_flags i n bytes.now }
{
    (i..i + n).all(|k| octets::byte_at(bytes, k) <= 1)
}

// The truth values and presence bytes of a command are each 0 or 1.
fn flags_fit(id: NwkCommandId, bytes: &[u8]) -> bool
    ensures { result ≡ flags_fit id bytes.now }
{
    match id {
        NwkCommandId::RouteRequest => are_flags(bytes, 6, 1),
        NwkCommandId::RouteReply => are_flags(bytes, 7, 1) && are_flags(bytes, 16, 1),
        NwkCommandId::Leave => are_flags(bytes, 1, 3),
        NwkCommandId::RejoinRequest => are_flags(bytes, 1, 8),
        NwkCommandId::LinkStatus => are_flags(bytes, 1, 2),
        NwkCommandId::EndDeviceTimeoutResponse => are_flags(bytes, 2, 3),
        NwkCommandId::NetworkCommissioningRequest => are_flags(bytes, 2, 8),
        _ => true,
    }
}

// The command that a record encodes, if its identifier and codes are declared and its flags are 0 or 1.
#[tactic(auto, unfolding(crate::specs::Fields::said, crate::specs::Fields::said_by))]
pub fn command_at(bytes: &[u8]) -> Option<NwkCommand>
    ensures { result ≡ said bytes.now }
{
    let code = octets::byte_at(bytes, 0);
    if code == 0 {
        return Some(NwkCommand::Unparsed);
    }
    let id = NwkCommandId::try_from(code).ok()?;
    if !flags_fit(id, bytes) {
        return None;
    }
    body_at(id, bytes)
}
