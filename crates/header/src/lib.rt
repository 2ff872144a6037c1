// The NWK header and the auxiliary header: reading and writing (Zigbee Specification 3.3.1 and 4.5.1).
#![tactic(auto)]

pub mod auxiliary;
pub mod control;
pub mod nwk;
pub mod optional;
pub mod ranges;
