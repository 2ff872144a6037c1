// The typed body reader of NWK commands: one function for each of the fifteen (Zigbee 3.4.1 to 3.4.15), which answers a
// command, or that the body ends early or has an undeclared code.
#![tactic(auto, unfolding(crate::proofs::Layouts::layouts))]

ghost use Rattle.std.specs.Prelude.{◌≡◌, ◌/◌, ◌%◌, ◌^◌, ◌<◌};
ghost use Rattle.commands.specs.Codes.{is_set};
ghost use Rattle.octets.specs.Numbers.{le_at};
ghost use Rattle.commands.specs.declared.NwkCommandId.{NwkCommandId};
ghost use Rattle.commands.specs.Commands.{address_of};
ghost use Rattle.commands.specs.Reading.{body_of, typed};
ghost use Rattle.command_reader.specs.Capability.{capability_of_byte};

use commands::*;
use types::*;

// The IEEE address at place i, if its presence bit is set.
#[tactic(auto, unfolding(commands::specs::Commands::address_of))]
fn address_at(s: &[u8], i: usize, has: u8) -> Option<u64>
    ensures { result ≡ address_of has (le_at 8 s.now i) }
{
    (has == 1).then_some(octets::read_u64(s, i))
}

// Bit k of a byte.
fn bit(byte: u8, k: u32) -> bool
    requires { k < 8 }
    ensures { result ≡ is_set (byte / 2 ^ k % 2) }
{
    byte >> k & 1 == 1
}

// The capability information of a byte (Zigbee 3.4.6), its reserved bits kept.
fn capability_of(b: u8) -> NwkRejoinCapabilityInformation
    ensures { result ≡ capability_of_byte b }
{
    NwkRejoinCapabilityInformation {
        alternate_pan_coordinator: bit(b, 0),
        device_type: bit(b, 1).into(),
        power_source: bit(b, 2).into(),
        receiver_on_when_idle: bit(b, 3),
        reserved1: bit(b, 4),
        reserved2: bit(b, 5),
        security_capability: bit(b, 6),
        allocate_address: bit(b, 7),
    }
}

// 3.4.1 Route Request.
fn read_route_request(s: &[u8]) -> Option<NwkCommand>
    ensures { result ≡ body_of NwkCommandId.RouteRequest s.now }
{
    let options = octets::byte_at(s, 1);
    let has_destination_eui64 = options >> 5 & 1;
    if s.len() < 6 + usize::from(has_destination_eui64) * 8 {
        return None;
    }
    let many_to_one = NwkRouteRequestManyToOne::try_from(options >> 3 & 3).ok()?;
    let destination_eui64 = address_at(s, 6, has_destination_eui64);
    Some(NwkCommand::RouteRequest(NwkRouteRequestCommand {
        many_to_one,
        route_request_identifier: octets::byte_at(s, 2),
        destination_address: Nwk(octets::read_u16(s, 3)),
        path_cost: octets::byte_at(s, 5),
        destination_eui64,
    }))
}

// 3.4.2 Route Reply.
fn read_route_reply(s: &[u8]) -> Option<NwkCommand>
    ensures { result ≡ body_of NwkCommandId.RouteReply s.now }
{
    let options = octets::byte_at(s, 1);
    let has_originator_eui64 = options >> 4 & 1;
    let has_responder_eui64 = options >> 5 & 1;
    if s.len() < 8 + usize::from(has_originator_eui64 + has_responder_eui64) * 8 {
        return None;
    }
    let responder_at = 8 + usize::from(has_originator_eui64) * 8;
    let originator_eui64 = address_at(s, 8, has_originator_eui64);
    let responder_eui64 = address_at(s, responder_at, has_responder_eui64);
    Some(NwkCommand::RouteReply(NwkRouteReplyCommand {
        route_request_identifier: octets::byte_at(s, 2),
        originator_nwk: Nwk(octets::read_u16(s, 3)),
        responder_nwk: Nwk(octets::read_u16(s, 5)),
        path_cost: octets::byte_at(s, 7),
        originator_eui64,
        responder_eui64,
    }))
}

// 3.4.3 Network Status.
fn read_network_status(s: &[u8]) -> Option<NwkCommand>
    ensures { result ≡ body_of NwkCommandId.NetworkStatus s.now }
{
    if s.len() < 4 {
        return None;
    }
    let status_code = NwkNetworkStatus::try_from(octets::byte_at(s, 1)).ok()?;
    Some(NwkCommand::NetworkStatus(NwkNetworkStatusCommand {
        status_code,
        network_address: Nwk(octets::read_u16(s, 2)),
    }))
}

// 3.4.4 Leave.
fn read_leave(s: &[u8]) -> Option<NwkCommand>
    ensures { result ≡ body_of NwkCommandId.Leave s.now }
{
    if s.len() < 2 {
        return None;
    }
    let options = octets::byte_at(s, 1);
    Some(NwkCommand::Leave(NwkLeaveCommand {
        rejoin: bit(options, 5),
        request: bit(options, 6),
        remove_children: bit(options, 7),
    }))
}

// 3.4.5 Route Record.
fn read_route_record(s: &[u8]) -> Option<NwkCommand>
    ensures { result ≡ body_of NwkCommandId.RouteRecord s.now }
{
    let relay_count = octets::byte_at(s, 1);
    if s.len() < 2 + usize::from(relay_count) * 2 {
        return None;
    }
    Some(NwkCommand::RouteRecord)
}

// 3.4.6 Rejoin Request.
fn read_rejoin_request(s: &[u8]) -> Option<NwkCommand>
    ensures { result ≡ body_of NwkCommandId.RejoinRequest s.now }
{
    if s.len() < 2 {
        return None;
    }
    let capability_information = capability_of(octets::byte_at(s, 1));
    Some(NwkCommand::RejoinRequest(NwkRejoinRequestCommand {
        capability_information,
    }))
}

// 3.4.7 Rejoin Response.
fn read_rejoin_response(s: &[u8]) -> Option<NwkCommand>
    ensures { result ≡ body_of NwkCommandId.RejoinResponse s.now }
{
    if s.len() < 4 {
        return None;
    }
    let rejoin_status = Nwk802154AssociationStatus::try_from(octets::byte_at(s, 3)).ok()?;
    Some(NwkCommand::RejoinResponse(NwkRejoinResponseCommand {
        network_address: Nwk(octets::read_u16(s, 1)),
        rejoin_status,
    }))
}

// 3.4.8 Link Status.
fn read_link_status(s: &[u8]) -> Option<NwkCommand>
    ensures { result ≡ body_of NwkCommandId.LinkStatus s.now }
{
    let options = octets::byte_at(s, 1);
    let link_statuses_len = options & 31;
    if s.len() < 2 + usize::from(link_statuses_len) * 3 {
        return None;
    }
    Some(NwkCommand::LinkStatus(NwkLinkStatusCommand {
        is_first_frame: bit(options, 5),
        is_last_frame: bit(options, 6),
    }))
}

// 3.4.9 Network Report.
fn read_network_report(s: &[u8]) -> Option<NwkCommand>
    ensures { result ≡ body_of NwkCommandId.NetworkReport s.now }
{
    let options = octets::byte_at(s, 1);
    let report_information_count = options & 31;
    if s.len() < 10 + usize::from(report_information_count) * 2 {
        return None;
    }
    let report_command_identifier = NwkReportCommandIdentifier::try_from(options >> 5).ok()?;
    Some(NwkCommand::NetworkReport(NwkNetworkReportCommand {
        report_command_identifier,
        epid: octets::read_u64(s, 2),
    }))
}

// 3.4.10 Network Update.
fn read_network_update(s: &[u8]) -> Option<NwkCommand>
    ensures { result ≡ body_of NwkCommandId.NetworkUpdate s.now }
{
    if s.len() < 13 {
        return None;
    }
    let options = octets::byte_at(s, 1);
    let update_command_identifier = NwkUpdateCommandIdentifier::try_from(options >> 5).ok()?;
    Some(NwkCommand::NetworkUpdate(NwkNetworkUpdateCommand {
        update_information_count: options & 31,
        update_command_identifier,
        epid: octets::read_u64(s, 2),
        update_id: octets::byte_at(s, 10),
        new_pan_id: PanId(octets::read_u16(s, 11)),
    }))
}

// 3.4.11 End Device Timeout Request.
fn read_timeout_request(s: &[u8]) -> Option<NwkCommand>
    ensures { result ≡ body_of NwkCommandId.EndDeviceTimeoutRequest s.now }
{
    if s.len() < 3 {
        return None;
    }
    let request_timeout_enum = EndDeviceTimeout::try_from(octets::byte_at(s, 1)).ok()?;
    Some(NwkCommand::EndDeviceTimeoutRequest(NwkEndDeviceTimeoutRequestCommand {
        request_timeout_enum,
        end_device_configuration: octets::byte_at(s, 2),
    }))
}

// 3.4.12 End Device Timeout Response.
fn read_timeout_response(s: &[u8]) -> Option<NwkCommand>
    ensures { result ≡ body_of NwkCommandId.EndDeviceTimeoutResponse s.now }
{
    if s.len() < 3 {
        return None;
    }
    let status = NwkEndDeviceTimeoutResponseStatus::try_from(octets::byte_at(s, 1)).ok()?;
    let parent = octets::byte_at(s, 2);
    Some(NwkCommand::EndDeviceTimeoutResponse(NwkEndDeviceTimeoutResponseCommand {
        status,
        mac_data_poll_keepalive_supported: bit(parent, 0),
        end_device_timeout_request_keepalive_supported: bit(parent, 1),
        power_negotation_support: bit(parent, 2),
    }))
}

// 3.4.13 Link Power Delta.
fn read_link_power_delta(s: &[u8]) -> Option<NwkCommand>
    ensures { result ≡ body_of NwkCommandId.LinkPowerDelta s.now }
{
    let list_count = octets::byte_at(s, 2);
    if s.len() < 3 + usize::from(list_count) * 3 {
        return None;
    }
    let command_type = NwkLinkPowerDeltaType::try_from(octets::byte_at(s, 1) & 3).ok()?;
    Some(NwkCommand::LinkPowerDelta(NwkLinkPowerDeltaCommand { command_type }))
}

// 3.4.14 Network Commissioning Request.
fn read_commissioning_request(s: &[u8]) -> Option<NwkCommand>
    ensures { result ≡ body_of NwkCommandId.NetworkCommissioningRequest s.now }
{
    if s.len() < 3 {
        return None;
    }
    let commissioning_type = NwkCommissioningType::try_from(octets::byte_at(s, 1)).ok()?;
    let capability_information = capability_of(octets::byte_at(s, 2));
    Some(NwkCommand::NetworkCommissioningRequest(NwkNetworkCommissioningRequestCommand {
        commissioning_type,
        capability_information,
    }))
}

// 3.4.15 Network Commissioning Response.
fn read_commissioning_response(s: &[u8]) -> Option<NwkCommand>
    ensures { result ≡ body_of NwkCommandId.NetworkCommissioningResponse s.now }
{
    if s.len() < 4 {
        return None;
    }
    let status = Nwk802154AssociationStatus::try_from(octets::byte_at(s, 3)).ok()?;
    Some(NwkCommand::NetworkCommissioningResponse(NwkNetworkCommissioningResponseCommand {
        network_address: Nwk(octets::read_u16(s, 1)),
        status,
    }))
}

// The body that an identifier announces.
fn parse_body(id: NwkCommandId, s: &[u8]) -> Option<NwkCommand>
    ensures { result ≡ body_of id s.now }
{
    match id {
        NwkCommandId::RouteRequest => read_route_request(s),
        NwkCommandId::RouteReply => read_route_reply(s),
        NwkCommandId::NetworkStatus => read_network_status(s),
        NwkCommandId::Leave => read_leave(s),
        NwkCommandId::RouteRecord => read_route_record(s),
        NwkCommandId::RejoinRequest => read_rejoin_request(s),
        NwkCommandId::RejoinResponse => read_rejoin_response(s),
        NwkCommandId::LinkStatus => read_link_status(s),
        NwkCommandId::NetworkReport => read_network_report(s),
        NwkCommandId::NetworkUpdate => read_network_update(s),
        NwkCommandId::EndDeviceTimeoutRequest => read_timeout_request(s),
        NwkCommandId::EndDeviceTimeoutResponse => read_timeout_response(s),
        NwkCommandId::LinkPowerDelta => read_link_power_delta(s),
        NwkCommandId::NetworkCommissioningRequest => read_commissioning_request(s),
        NwkCommandId::NetworkCommissioningResponse => read_commissioning_response(s),
    }
}

// The typed command, if the bytes hold one.
#[tactic(auto, unfolding(commands::specs::Reading::typed, commands::specs::Reading::typed_by))]
pub fn try_parse(s: &[u8]) -> Option<NwkCommand>
    ensures { result ≡ typed s.now }
{
    let id = NwkCommandId::try_from(octets::byte_at(s, 0)).ok()?;
    parse_body(id, s)
}
