// Headers and answers as byte records of fixed size and layout, the form in which they cross the C boundary: a field at a fixed
// offset, least significant byte first, a presence byte before each optional field. One layout serves both directions.
#![tactic(auto)]

pub mod auxiliary_record;
pub mod header_record;
pub mod limits;
pub mod opened_record;
pub mod optional;
