// Runs the codec on the cases in data/. Each line that differs or is damaged is named, and at the end of each file it says
// how many of how many agree.
#![tactic(auto)]

mod answers;
mod opening;
mod reading;
mod writing;

use casefile::lines::{Line, run_text};
use casefile::{file, words};
use std::rt::Files;

// What one line shows, without its newline, by its first word. Any other word makes a damaged line.
fn check_line(line: &[u8]) -> Line {
    let agrees = match words::word(line, 0) {
        b"header" => reading::header_case(line),
        b"aux" => reading::aux_case(line),
        b"fields" => reading::fields_case(line),
        b"aux-fields" => reading::aux_fields_case(line),
        b"frame" => reading::frame_case(line),
        b"write" => writing::write_case(line),
        b"seal" => writing::seal_case(line),
        b"open" => opening::open_case(line),
        b"split" => opening::split_case(line),
        _ => None,
    };
    Line::from(agrees)
}

// Runs a file, and says how many of its cases agree.
fn run_file(rt: &(impl Files + Print), name: &[u8]) {
    let mut bytes = [0u8; 65536];
    let n = file::load(rt, name, &mut bytes);
    run_text(rt, name, &bytes[..n], check_line).report(rt, name, b"cases");
}

fn main(rt: HostRuntime) {
    run_file(&rt, b"headers.txt");
    run_file(&rt, b"frames.txt");
    run_file(&rt, b"presence_bits.txt");
}
