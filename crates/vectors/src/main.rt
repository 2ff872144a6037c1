// Runs the proved code on the outside answers in data/. Each line that differs or is damaged is named, and at the end of
// each file it says how many of how many agree.
#![tactic(auto)]

mod blocks;
mod calls;
mod entries;

use casefile::file;
use casefile::lines::{Line, run_text};
use std::rt::Files;

// Runs a file, and says how many of its lines agree: `agrees` says it of a line, or nothing where its words are not well formed.
fn run_file<F: Fn(&[u8]) -> Option<bool>>(
    rt: &(impl Files + Print),
    name: &[u8],
    things: &[u8],
    agrees: F,
)
    requires { F.IsAlwaysCallable agrees }
{
    let mut bytes = [0u8; 65536];
    let n = file::load(rt, name, &mut bytes);
    run_text(rt, name, &bytes[..n], |line: &[u8]| {
        Line::from(agrees(line))
    })
    .report(rt, name, things);
}

fn main(rt: HostRuntime) {
    run_file(&rt, b"aes128_ecb.txt", b"blocks", blocks::agrees);
    run_file(&rt, b"ccm_13_4.txt", b"entries", entries::agrees);
    run_file(&rt, b"ccm_13_8.txt", b"entries", entries::agrees);
    run_file(&rt, b"ccm_13_8_rfc3610.txt", b"entries", entries::agrees);
    run_file(&rt, b"ccm_13_16_1.txt", b"entries", entries::agrees);
    run_file(&rt, b"ccm_13_16_2.txt", b"entries", entries::agrees);
    run_file(&rt, b"ccm_13_16_3.txt", b"entries", entries::agrees);
    run_file(&rt, b"ccm_limits.txt", b"entries", entries::agrees);
    run_file(&rt, b"types_rs.txt", b"calls", calls::agrees);
}
