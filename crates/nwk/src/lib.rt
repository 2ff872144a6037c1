// The C functions, which `nwk_c` exports: numbers and byte slices in, and for four of them a list of sender records; one number out.
// Each is the promise of a crate below with the refusals of the boundary itself: a record of another length is 13, an output with
// too little room is 18.
#![tactic(auto)]

mod answer;
pub mod cipher;
pub mod command;
pub mod frames;
pub mod headers;
pub mod inbound;
pub mod recovery;
