// What the program writes to standard output.

// Writes a text; what cannot be written is left out.
fn text(rt: &impl Print, s: &[u8]) {
    let _ = rt.write_all(s);
}

// Writes a number, likewise.
fn number(rt: &impl Print, n: u64) {
    let _ = rt.print(n);
}

// What is wrong with a whole file: "name: what".
pub fn of_file(rt: &impl Print, name: &[u8], what: &[u8]) {
    text(rt, name);
    text(rt, b": ");
    text(rt, what);
    text(rt, b"\n");
}

// What is wrong with a line: "name, line n: what".
pub fn of_line(rt: &impl Print, name: &[u8], line: u64, what: &[u8]) {
    text(rt, name);
    text(rt, b", line ");
    number(rt, line);
    text(rt, b": ");
    text(rt, what);
    text(rt, b"\n");
}

// How many agree: "name: a of n things agree".
pub fn total(rt: &impl Print, name: &[u8], agreed: u64, tried: u64, things: &[u8]) {
    text(rt, name);
    text(rt, b": ");
    number(rt, agreed);
    text(rt, b" of ");
    number(rt, tried);
    text(rt, b" ");
    text(rt, things);
    text(rt, b" agree\n");
}
