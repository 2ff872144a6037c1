// The fifteen NWK commands as values (Zigbee Specification 3.4): the types, their codes, a timeout's seconds and the
// command id. What the bytes of a command are is in specs/; reading and writing them are the crates above.
#![tactic(auto)]

pub mod codes;
pub mod lists;

ghost use Rattle.std.specs.Prelude.{◌≡◌, [], ◌≤◌};
ghost use Rattle.commands.specs.Commands.{has};
ghost use Rattle.commands.specs.Reading.{list_of, with_lists};
ghost use Rattle.commands.specs.Writing.{typed_id, command_id};

use types::{NO_NWK, Nwk, PanId};

// Zigbee 3.4: the command identifier, the first byte of a command.
#[derive(Clone, Copy, PartialEq, Eq)]
pub enum NwkCommandId {
    RouteRequest = 0x01,
    RouteReply = 0x02,
    NetworkStatus = 0x03,
    Leave = 0x04,
    RouteRecord = 0x05,
    RejoinRequest = 0x06,
    RejoinResponse = 0x07,
    LinkStatus = 0x08,
    NetworkReport = 0x09,
    NetworkUpdate = 0x0a,
    EndDeviceTimeoutRequest = 0x0b,
    EndDeviceTimeoutResponse = 0x0c,
    LinkPowerDelta = 0x0d,
    NetworkCommissioningRequest = 0x0e,
    NetworkCommissioningResponse = 0x0f,
}

// Zigbee 3.4.1.3.1.1.
#[derive(Clone, Copy, PartialEq, Eq)]
pub enum NwkRouteRequestManyToOne {
    NotManyToOne = 0,
    ManyToOneSenderSupportsRouteRecordTable = 1,
    ManyToOneSenderDoesntSupportRouteRecordTable = 2,
    Reserved = 3,
}

// Zigbee 3.4.1: Route Request.
#[derive(Clone, Copy)]
pub struct NwkRouteRequestCommand {
    pub many_to_one: NwkRouteRequestManyToOne,
    pub route_request_identifier: u8,
    pub destination_address: Nwk,
    pub path_cost: u8,
    pub destination_eui64: Option<u64>,
}

// Zigbee 3.4.2: Route Reply.
#[derive(Clone, Copy)]
pub struct NwkRouteReplyCommand {
    pub route_request_identifier: u8,
    pub originator_nwk: Nwk,
    pub responder_nwk: Nwk,
    pub path_cost: u8,
    pub originator_eui64: Option<u64>,
    pub responder_eui64: Option<u64>,
}

// Zigbee 3.4.3: the status codes.
#[derive(Clone, Copy, PartialEq, Eq)]
pub enum NwkNetworkStatus {
    LegacyNoRouteAvailable = 0x00,
    LegacyLinkFailure = 0x01,
    LinkFailure = 0x02,
    LowBatteryLevel = 0x03,
    NoRoutingCapacity = 0x04,
    NoIndirectCapacity = 0x05,
    IndirectTransactionExpiry = 0x06,
    TargetDeviceUnavailable = 0x07,
    TargetAddressUnallocated = 0x08,
    ParentLinkFailure = 0x09,
    ValidateRoute = 0x0A,
    SourceRouteFailure = 0x0B,
    ManyToOneRouteFailure = 0x0C,
    AddressConflict = 0x0D,
    VerifyAddresses = 0x0E,
    PanIdentifierUpdate = 0x0F,
    NetworkAddressUpdate = 0x10,
    BadFrameCounter = 0x11,
    BadKeySequenceNumber = 0x12,
    UnknownCommand = 0x13,
    PanIdConflictReport = 0x14,
}

// Zigbee 3.4.3: Network Status.
#[derive(Clone, Copy)]
pub struct NwkNetworkStatusCommand {
    pub status_code: NwkNetworkStatus,
    pub network_address: Nwk,
}

// Zigbee 3.4.4: Leave.
#[derive(Clone, Copy)]
pub struct NwkLeaveCommand {
    pub rejoin: bool,
    pub request: bool,
    pub remove_children: bool,
}

// Zigbee 3.4.6: the capability information's device type.
#[derive(Clone, Copy, PartialEq, Eq)]
pub enum NwkRejoinCapabilityInformationDeviceType {
    EndDevice = 0,
    Router = 1,
}

// Zigbee 3.4.6: the capability information's power source.
#[derive(Clone, Copy, PartialEq, Eq)]
pub enum NwkRejoinCapabilityInformationPowerSource {
    OtherPowerSource = 0,
    MainsPowered = 1,
}

// Zigbee 3.4.6: the capability information. The two reserved bits are kept both ways.
#[derive(Clone, Copy)]
pub struct NwkRejoinCapabilityInformation {
    pub alternate_pan_coordinator: bool,
    pub device_type: NwkRejoinCapabilityInformationDeviceType,
    pub power_source: NwkRejoinCapabilityInformationPowerSource,
    pub receiver_on_when_idle: bool,
    pub reserved1: bool,
    pub reserved2: bool,
    pub security_capability: bool,
    pub allocate_address: bool,
}

// Zigbee 3.4.6: Rejoin Request.
#[derive(Clone, Copy)]
pub struct NwkRejoinRequestCommand {
    pub capability_information: NwkRejoinCapabilityInformation,
}

// Zigbee 3.4.7: the association status of IEEE 802.15.4, with Zigbee's address conflict.
#[derive(Clone, Copy, PartialEq, Eq)]
pub enum Nwk802154AssociationStatus {
    AssociationSuccessful = 0x00,
    PanAtCapacity = 0x01,
    PanAccessDenied = 0x02,
    HoppingSequenceOffsetDuplication = 0x03,
    FastAssociationSuccessful = 0x80,
    ZigbeeAddressConflict = 0xF0,
}

// Zigbee 3.4.7: Rejoin Response.
#[derive(Clone, Copy)]
pub struct NwkRejoinResponseCommand {
    pub network_address: Nwk,
    pub rejoin_status: Nwk802154AssociationStatus,
}

// Zigbee 3.4.8: Link Status. Its list stands beside the command.
#[derive(Clone, Copy)]
pub struct NwkLinkStatusCommand {
    pub is_first_frame: bool,
    pub is_last_frame: bool,
}

// Zigbee 3.4.8: an entry of the link status list. Each cost has 3 bits.
#[derive(Clone, Copy)]
pub struct NwkLinkStatus {
    pub address: Nwk,
    pub incoming_cost: u8,
    pub outgoing_cost: u8,
}

// Zigbee 3.4.9: the report command identifier.
#[derive(Clone, Copy, PartialEq, Eq)]
pub enum NwkReportCommandIdentifier {
    PanIdentifierConflict = 0x00,
}

// Zigbee 3.4.9: Network Report. Its list of PAN ids stands beside the command.
#[derive(Clone, Copy)]
pub struct NwkNetworkReportCommand {
    pub report_command_identifier: NwkReportCommandIdentifier,
    pub epid: u64,
}

// Zigbee 3.4.10: the update command identifier.
#[derive(Clone, Copy, PartialEq, Eq)]
pub enum NwkUpdateCommandIdentifier {
    PanIdentifierUpdate = 0x00,
}

// Zigbee 3.4.10: Network Update. The count is a stored number of 5 bits; exactly one PAN id follows.
#[derive(Clone, Copy)]
pub struct NwkNetworkUpdateCommand {
    pub update_information_count: u8,
    pub update_command_identifier: NwkUpdateCommandIdentifier,
    pub epid: u64,
    pub update_id: u8,
    pub new_pan_id: PanId,
}

// Zigbee 3.4.11: the requested timeout (Table 3-58).
#[derive(Clone, Copy, PartialEq, Eq)]
pub enum EndDeviceTimeout {
    Seconds10 = 0,
    Minutes2 = 1,
    Minutes4 = 2,
    Minutes8 = 3,
    Minutes16 = 4,
    Minutes32 = 5,
    Minutes64 = 6,
    Minutes128 = 7,
    Minutes256 = 8,
    Minutes512 = 9,
    Minutes1024 = 10,
    Minutes2048 = 11,
    Minutes4096 = 12,
    Minutes8192 = 13,
    Minutes16384 = 14,
}

// Zigbee 3.4.11: End Device Timeout Request.
#[derive(Clone, Copy)]
pub struct NwkEndDeviceTimeoutRequestCommand {
    pub request_timeout_enum: EndDeviceTimeout,
    pub end_device_configuration: u8,
}

// Zigbee 3.4.12: the response's status.
#[derive(Clone, Copy, PartialEq, Eq)]
pub enum NwkEndDeviceTimeoutResponseStatus {
    Success = 0x00,
    IncorrectValue = 0x01,
    UnsupportedFeature = 0x02,
}

// Zigbee 3.4.12: End Device Timeout Response.
#[derive(Clone, Copy)]
pub struct NwkEndDeviceTimeoutResponseCommand {
    pub status: NwkEndDeviceTimeoutResponseStatus,
    pub mac_data_poll_keepalive_supported: bool,
    pub end_device_timeout_request_keepalive_supported: bool,
    pub power_negotation_support: bool,
}

// Zigbee 3.4.13: the power type.
#[derive(Clone, Copy, PartialEq, Eq)]
pub enum NwkLinkPowerDeltaType {
    Notification = 0,
    Request = 1,
    Response = 2,
}

// Zigbee 3.4.13: an entry of the power list.
#[derive(Clone, Copy)]
pub struct NwkPowerListEntry {
    pub device_address: Nwk,
    pub power_delta: u8,
}

// Zigbee 3.4.13: Link Power Delta. Its list stands beside the command.
#[derive(Clone, Copy)]
pub struct NwkLinkPowerDeltaCommand {
    pub command_type: NwkLinkPowerDeltaType,
}

// Zigbee 3.4.14: the commissioning type.
#[derive(Clone, Copy, PartialEq, Eq)]
pub enum NwkCommissioningType {
    InitialJoin = 0x00,
    Rejoin = 0x01,
}

// Zigbee 3.4.14: Network Commissioning Request.
#[derive(Clone, Copy)]
pub struct NwkNetworkCommissioningRequestCommand {
    pub commissioning_type: NwkCommissioningType,
    pub capability_information: NwkRejoinCapabilityInformation,
}

// Zigbee 3.4.15: Network Commissioning Response.
#[derive(Clone, Copy)]
pub struct NwkNetworkCommissioningResponseCommand {
    pub network_address: Nwk,
    pub status: Nwk802154AssociationStatus,
}

// A decoded command, or one kept as its bytes. Lists and bytes stand beside it, in NwkCommandWithLists.
#[derive(Clone, Copy)]
pub enum NwkCommand {
    RouteRequest(NwkRouteRequestCommand),
    RouteReply(NwkRouteReplyCommand),
    NetworkStatus(NwkNetworkStatusCommand),
    Leave(NwkLeaveCommand),
    RouteRecord,
    RejoinRequest(NwkRejoinRequestCommand),
    RejoinResponse(NwkRejoinResponseCommand),
    LinkStatus(NwkLinkStatusCommand),
    NetworkReport(NwkNetworkReportCommand),
    NetworkUpdate(NwkNetworkUpdateCommand),
    EndDeviceTimeoutRequest(NwkEndDeviceTimeoutRequestCommand),
    EndDeviceTimeoutResponse(NwkEndDeviceTimeoutResponseCommand),
    LinkPowerDelta(NwkLinkPowerDeltaCommand),
    NetworkCommissioningRequest(NwkNetworkCommissioningRequestCommand),
    NetworkCommissioningResponse(NwkNetworkCommissioningResponseCommand),
    Unparsed,
}

// A command with its lists. Only the command's own list counts: a route record's relays, a link status's entries, a
// network report's PAN ids, a link power delta's power list, or the bytes of an unparsed command. Places past a count
// are 0 on reading and mean nothing on writing.
#[derive(Clone, Copy)]
pub struct NwkCommandWithLists {
    pub command: NwkCommand,
    pub relay_count: u8,
    pub relays: [Nwk; 53],
    pub link_statuses_len: u8,
    pub link_statuses: [NwkLinkStatus; 31],
    pub report_information_count: u8,
    pub pan_ids: [PanId; 31],
    pub list_count: u8,
    pub power_list: [NwkPowerListEntry; 35],
    pub unparsed_len: u8,
    pub unparsed: [u8; 108],
}

// Which list of NwkCommandWithLists is a command's own.
#[derive(Clone, Copy, PartialEq, Eq)]
pub enum NwkCommandList {
    NoList,
    Relays,
    LinkStatuses,
    PanIds,
    PowerList,
    Bytes,
}

impl NwkCommand {
    // The list that is this command's own.
    pub fn list(self) -> NwkCommandList
        ensures { result ≡ list_of self }
    {
        match self {
            NwkCommand::RouteRecord => NwkCommandList::Relays,
            NwkCommand::LinkStatus(_) => NwkCommandList::LinkStatuses,
            NwkCommand::NetworkReport(_) => NwkCommandList::PanIds,
            NwkCommand::LinkPowerDelta(_) => NwkCommandList::PowerList,
            NwkCommand::Unparsed => NwkCommandList::Bytes,
            _ => NwkCommandList::NoList,
        }
    }

    // The identifier of a typed command; an unparsed one has none.
    fn typed_id(self) -> Option<NwkCommandId>
        ensures { result ≡ typed_id self }
    {
        Some(match self {
            NwkCommand::RouteRequest(_) => NwkCommandId::RouteRequest,
            NwkCommand::RouteReply(_) => NwkCommandId::RouteReply,
            NwkCommand::NetworkStatus(_) => NwkCommandId::NetworkStatus,
            NwkCommand::Leave(_) => NwkCommandId::Leave,
            NwkCommand::RouteRecord => NwkCommandId::RouteRecord,
            NwkCommand::RejoinRequest(_) => NwkCommandId::RejoinRequest,
            NwkCommand::RejoinResponse(_) => NwkCommandId::RejoinResponse,
            NwkCommand::LinkStatus(_) => NwkCommandId::LinkStatus,
            NwkCommand::NetworkReport(_) => NwkCommandId::NetworkReport,
            NwkCommand::NetworkUpdate(_) => NwkCommandId::NetworkUpdate,
            NwkCommand::EndDeviceTimeoutRequest(_) => NwkCommandId::EndDeviceTimeoutRequest,
            NwkCommand::EndDeviceTimeoutResponse(_) => NwkCommandId::EndDeviceTimeoutResponse,
            NwkCommand::LinkPowerDelta(_) => NwkCommandId::LinkPowerDelta,
            NwkCommand::NetworkCommissioningRequest(_) => NwkCommandId::NetworkCommissioningRequest,
            NwkCommand::NetworkCommissioningResponse(_) =>
                NwkCommandId::NetworkCommissioningResponse,
            NwkCommand::Unparsed => return None,
        })
    }
}

// What stands past the count in each list.
pub const NO_PAN_ID: PanId = PanId(0);

pub const NO_LINK: NwkLinkStatus = NwkLinkStatus {
    address: NO_NWK,
    incoming_cost: 0,
    outgoing_cost: 0,
};

pub const NO_POWER: NwkPowerListEntry = NwkPowerListEntry {
    device_address: NO_NWK,
    power_delta: 0,
};

// The presence bit of an optional IEEE address.
pub fn has_address(address: Option<u64>) -> u8
    ensures { (result ≡ has address) × (result ≤ 1) }
{
    u8::from(address.is_some())
}

impl NwkCommandWithLists {
    // A command with no list: every count and every place 0.
    pub fn blank(command: NwkCommand) -> Self
        ensures { result ≡ with_lists command [] [] [] [] [] }
    {
        NwkCommandWithLists {
            command,
            relay_count: 0,
            relays: [NO_NWK; 53],
            link_statuses_len: 0,
            link_statuses: [NO_LINK; 31],
            report_information_count: 0,
            pan_ids: [NO_PAN_ID; 31],
            list_count: 0,
            power_list: [NO_POWER; 35],
            unparsed_len: 0,
            unparsed: [0; 108],
        }
    }

    // The command identifier; of an unparsed command that of its first byte, if it is known.
    pub fn command_id(self) -> Option<NwkCommandId>
        ensures { result ≡ command_id self }
    {
        match self.command.typed_id() {
            Some(id) => Some(id),
            None if self.unparsed_len == 0 => None,
            None => NwkCommandId::try_from(self.unparsed[0]).ok(),
        }
    }
}
