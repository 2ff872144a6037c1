// The codes of the commands' enums as numbers and back, and a timeout's seconds.

ghost use Rattle.std.specs.Prelude.{◌≡◌};
ghost use Rattle.octets.specs.Fields.{bit};
ghost use Rattle.commands.specs.Codes.{Decodes, command_id_code, command_id_of, many_to_one_code, many_to_one_of, status_code, status_of, association_status_code, association_status_of, report_identifier_code, report_identifier_of, update_identifier_code, update_identifier_of, timeout_code, timeout_of, timeout_status_code, timeout_status_of, power_type_code, power_type_of, commissioning_type_code, commissioning_type_of, device_type_bit, device_type_of, power_source_bit, power_source_of};
ghost use Rattle.commands.specs.Writing.{seconds, timeout_seconds, told_seconds};

use crate::*;
use octets::refusals::Refusal;

impl NwkCommandId {
    // The number of this value.
    pub fn code(self) -> u8
        ensures { result ≡ command_id_code self }
    {
        self as u8
    }
}

impl TryFrom<u8> for NwkCommandId {
    type Error = Refusal;

    ghost try_from_gives = { Decodes command_id_of };

    #[tactic(auto, unfolding(crate::specs::Codes::command_id_of, crate::specs::Codes::command_ids))]
    fn try_from(code: u8) -> Result<Self, Refusal> {
        match code {
            0x01 => Ok(Self::RouteRequest),
            0x02 => Ok(Self::RouteReply),
            0x03 => Ok(Self::NetworkStatus),
            0x04 => Ok(Self::Leave),
            0x05 => Ok(Self::RouteRecord),
            0x06 => Ok(Self::RejoinRequest),
            0x07 => Ok(Self::RejoinResponse),
            0x08 => Ok(Self::LinkStatus),
            0x09 => Ok(Self::NetworkReport),
            0x0a => Ok(Self::NetworkUpdate),
            0x0b => Ok(Self::EndDeviceTimeoutRequest),
            0x0c => Ok(Self::EndDeviceTimeoutResponse),
            0x0d => Ok(Self::LinkPowerDelta),
            0x0e => Ok(Self::NetworkCommissioningRequest),
            0x0f => Ok(Self::NetworkCommissioningResponse),
            _ => Err(Refusal::Field),
        }
    }
}

impl NwkRouteRequestManyToOne {
    // The number of this value.
    pub fn code(self) -> u8
        ensures { result ≡ many_to_one_code self }
    {
        self as u8
    }
}

impl TryFrom<u8> for NwkRouteRequestManyToOne {
    type Error = Refusal;

    ghost try_from_gives = { Decodes many_to_one_of };

    #[tactic(auto, unfolding(crate::specs::Codes::many_to_one_of, crate::specs::Codes::many_to_ones))]
    fn try_from(code: u8) -> Result<Self, Refusal> {
        match code {
            0 => Ok(Self::NotManyToOne),
            1 => Ok(Self::ManyToOneSenderSupportsRouteRecordTable),
            2 => Ok(Self::ManyToOneSenderDoesntSupportRouteRecordTable),
            3 => Ok(Self::Reserved),
            _ => Err(Refusal::Field),
        }
    }
}

impl NwkNetworkStatus {
    // The number of this value.
    pub fn code(self) -> u8
        ensures { result ≡ status_code self }
    {
        self as u8
    }
}

impl TryFrom<u8> for NwkNetworkStatus {
    type Error = Refusal;

    ghost try_from_gives = { Decodes status_of };

    #[tactic(auto, unfolding(crate::specs::Codes::status_of, crate::specs::Codes::statuses))]
    fn try_from(code: u8) -> Result<Self, Refusal> {
        match code {
            0x00 => Ok(Self::LegacyNoRouteAvailable),
            0x01 => Ok(Self::LegacyLinkFailure),
            0x02 => Ok(Self::LinkFailure),
            0x03 => Ok(Self::LowBatteryLevel),
            0x04 => Ok(Self::NoRoutingCapacity),
            0x05 => Ok(Self::NoIndirectCapacity),
            0x06 => Ok(Self::IndirectTransactionExpiry),
            0x07 => Ok(Self::TargetDeviceUnavailable),
            0x08 => Ok(Self::TargetAddressUnallocated),
            0x09 => Ok(Self::ParentLinkFailure),
            0x0a => Ok(Self::ValidateRoute),
            0x0b => Ok(Self::SourceRouteFailure),
            0x0c => Ok(Self::ManyToOneRouteFailure),
            0x0d => Ok(Self::AddressConflict),
            0x0e => Ok(Self::VerifyAddresses),
            0x0f => Ok(Self::PanIdentifierUpdate),
            0x10 => Ok(Self::NetworkAddressUpdate),
            0x11 => Ok(Self::BadFrameCounter),
            0x12 => Ok(Self::BadKeySequenceNumber),
            0x13 => Ok(Self::UnknownCommand),
            0x14 => Ok(Self::PanIdConflictReport),
            _ => Err(Refusal::Field),
        }
    }
}

impl Nwk802154AssociationStatus {
    // The number of this value.
    pub fn code(self) -> u8
        ensures { result ≡ association_status_code self }
    {
        self as u8
    }
}

impl TryFrom<u8> for Nwk802154AssociationStatus {
    type Error = Refusal;

    ghost try_from_gives = { Decodes association_status_of };

    #[tactic(auto, unfolding(crate::specs::Codes::association_status_of, crate::specs::Codes::association_statuses))]
    fn try_from(code: u8) -> Result<Self, Refusal> {
        match code {
            0x00 => Ok(Self::AssociationSuccessful),
            0x01 => Ok(Self::PanAtCapacity),
            0x02 => Ok(Self::PanAccessDenied),
            0x03 => Ok(Self::HoppingSequenceOffsetDuplication),
            0x80 => Ok(Self::FastAssociationSuccessful),
            0xf0 => Ok(Self::ZigbeeAddressConflict),
            _ => Err(Refusal::Field),
        }
    }
}

impl NwkReportCommandIdentifier {
    // The number of this value.
    pub fn code(self) -> u8
        ensures { result ≡ report_identifier_code self }
    {
        self as u8
    }
}

impl TryFrom<u8> for NwkReportCommandIdentifier {
    type Error = Refusal;

    ghost try_from_gives = { Decodes report_identifier_of };

    #[tactic(auto, unfolding(crate::specs::Codes::report_identifier_of))]
    fn try_from(code: u8) -> Result<Self, Refusal> {
        match code {
            0x00 => Ok(Self::PanIdentifierConflict),
            _ => Err(Refusal::Field),
        }
    }
}

impl NwkUpdateCommandIdentifier {
    // The number of this value.
    pub fn code(self) -> u8
        ensures { result ≡ update_identifier_code self }
    {
        self as u8
    }
}

impl TryFrom<u8> for NwkUpdateCommandIdentifier {
    type Error = Refusal;

    ghost try_from_gives = { Decodes update_identifier_of };

    #[tactic(auto, unfolding(crate::specs::Codes::update_identifier_of))]
    fn try_from(code: u8) -> Result<Self, Refusal> {
        match code {
            0x00 => Ok(Self::PanIdentifierUpdate),
            _ => Err(Refusal::Field),
        }
    }
}

impl EndDeviceTimeout {
    // The number of this value.
    pub fn code(self) -> u8
        ensures { result ≡ timeout_code self }
    {
        self as u8
    }

    // The timeout in seconds: 10 for code 0, and 2 to the power n minutes for any other code n.
    #[tactic(auto, unfolding(crate::specs::Writing::seconds))]
    pub fn duration(self) -> u32
        ensures { result ≡ seconds (timeout_code self) }
    {
        match self {
            Self::Seconds10 => 10,
            Self::Minutes2 => 60 * 2,
            Self::Minutes4 => 60 * 4,
            Self::Minutes8 => 60 * 8,
            Self::Minutes16 => 60 * 16,
            Self::Minutes32 => 60 * 32,
            Self::Minutes64 => 60 * 64,
            Self::Minutes128 => 60 * 128,
            Self::Minutes256 => 60 * 256,
            Self::Minutes512 => 60 * 512,
            Self::Minutes1024 => 60 * 1024,
            Self::Minutes2048 => 60 * 2048,
            Self::Minutes4096 => 60 * 4096,
            Self::Minutes8192 => 60 * 8192,
            Self::Minutes16384 => 60 * 16384,
        }
    }
}

impl TryFrom<u8> for EndDeviceTimeout {
    type Error = Refusal;

    ghost try_from_gives = { Decodes timeout_of };

    #[tactic(auto, unfolding(crate::specs::Codes::timeout_of, crate::specs::Codes::timeouts))]
    fn try_from(code: u8) -> Result<Self, Refusal> {
        match code {
            0 => Ok(Self::Seconds10),
            1 => Ok(Self::Minutes2),
            2 => Ok(Self::Minutes4),
            3 => Ok(Self::Minutes8),
            4 => Ok(Self::Minutes16),
            5 => Ok(Self::Minutes32),
            6 => Ok(Self::Minutes64),
            7 => Ok(Self::Minutes128),
            8 => Ok(Self::Minutes256),
            9 => Ok(Self::Minutes512),
            10 => Ok(Self::Minutes1024),
            11 => Ok(Self::Minutes2048),
            12 => Ok(Self::Minutes4096),
            13 => Ok(Self::Minutes8192),
            14 => Ok(Self::Minutes16384),
            _ => Err(Refusal::Field),
        }
    }
}

impl NwkEndDeviceTimeoutResponseStatus {
    // The number of this value.
    pub fn code(self) -> u8
        ensures { result ≡ timeout_status_code self }
    {
        self as u8
    }
}

impl TryFrom<u8> for NwkEndDeviceTimeoutResponseStatus {
    type Error = Refusal;

    ghost try_from_gives = { Decodes timeout_status_of };

    #[tactic(auto, unfolding(crate::specs::Codes::timeout_status_of, crate::specs::Codes::timeout_statuses))]
    fn try_from(code: u8) -> Result<Self, Refusal> {
        match code {
            0x00 => Ok(Self::Success),
            0x01 => Ok(Self::IncorrectValue),
            0x02 => Ok(Self::UnsupportedFeature),
            _ => Err(Refusal::Field),
        }
    }
}

impl NwkLinkPowerDeltaType {
    // The number of this value.
    pub fn code(self) -> u8
        ensures { result ≡ power_type_code self }
    {
        self as u8
    }
}

impl TryFrom<u8> for NwkLinkPowerDeltaType {
    type Error = Refusal;

    ghost try_from_gives = { Decodes power_type_of };

    #[tactic(auto, unfolding(crate::specs::Codes::power_type_of, crate::specs::Codes::power_types))]
    fn try_from(code: u8) -> Result<Self, Refusal> {
        match code {
            0 => Ok(Self::Notification),
            1 => Ok(Self::Request),
            2 => Ok(Self::Response),
            _ => Err(Refusal::Field),
        }
    }
}

impl NwkCommissioningType {
    // The number of this value.
    pub fn code(self) -> u8
        ensures { result ≡ commissioning_type_code self }
    {
        self as u8
    }
}

impl TryFrom<u8> for NwkCommissioningType {
    type Error = Refusal;

    ghost try_from_gives = { Decodes commissioning_type_of };

    #[tactic(auto, unfolding(crate::specs::Codes::commissioning_type_of, crate::specs::Codes::commissioning_types))]
    fn try_from(code: u8) -> Result<Self, Refusal> {
        match code {
            0x00 => Ok(Self::InitialJoin),
            0x01 => Ok(Self::Rejoin),
            _ => Err(Refusal::Field),
        }
    }
}

impl NwkRejoinCapabilityInformationDeviceType {
    // The number of this value.
    pub fn code(self) -> u8
        ensures { result ≡ bit (device_type_bit self) }
    {
        self as u8
    }
}

impl From<bool> for NwkRejoinCapabilityInformationDeviceType {
    ghost from_gives = { λ b r. r ≡ device_type_of b };

    fn from(bit: bool) -> Self {
        if bit { Self::Router } else { Self::EndDevice }
    }
}

impl NwkRejoinCapabilityInformationPowerSource {
    // The number of this value.
    pub fn code(self) -> u8
        ensures { result ≡ bit (power_source_bit self) }
    {
        self as u8
    }
}

impl From<bool> for NwkRejoinCapabilityInformationPowerSource {
    ghost from_gives = { λ b r. r ≡ power_source_of b };

    fn from(bit: bool) -> Self {
        if bit {
            Self::MainsPowered
        } else {
            Self::OtherPowerSource
        }
    }
}

// The seconds of a timeout code, or refusal 13 for a code above 14.
pub fn timeout_seconds(code: u8) -> Result<u32, Refusal>
    ensures { told_seconds result ≡ timeout_seconds code }
{
    Ok(EndDeviceTimeout::try_from(code)?.duration())
}
