// What C calls: each function of `nwk` under its name, with its promise, as a static library.
#![tactic(auto)]

mod cipher;
mod command;
mod frames;
mod headers;
mod inbound;
mod recovery;
