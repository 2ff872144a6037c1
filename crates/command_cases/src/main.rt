// Runs data/commands.txt on the codec. Each line that differs or is damaged is named, and the last line says how many of how
// many cases agree.
#![tactic(auto)]

mod calls;

use casefile::file;
use casefile::lines::{Line, run_text};

fn main(rt: HostRuntime) {
    let name = b"commands.txt";
    let mut bytes = [0u8; 65536];
    let n = file::load(&rt, name, &mut bytes);
    run_text(&rt, name, &bytes[..n], |line: &[u8]| {
        Line::from(calls::agrees(line))
    })
    .report(&rt, name, b"cases");
}
