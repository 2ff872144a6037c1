// A file of cases: its bytes, and places among them.
ghost use Rattle.std.specs.Prelude.{◌≡◌, ◌+◌, ◌≤◌, min, length, drop};
ghost use Rattle.casefile.specs.Texts.{IsPrefixLen, before};

use crate::report;
use std::io::Read;
use std::rt::Files;
use std::{fs, str};

// Reads the whole file into `bytes` and answers how many there are, or says what is wrong and answers 0.
pub fn load<R: Files + Print>(rt: &R, name: &[u8], bytes: &mut [u8]) -> usize
    ensures { IsPrefixLen result bytes.new }
{
    let Some(mut file) = open(rt, name) else {
        report::of_file(rt, name, b"cannot be opened");
        return 0;
    };
    let n = read_full(&mut file, bytes);
    if n == 0 {
        report::of_file(rt, name, b"is empty or cannot be read");
        return 0;
    }
    if n == bytes.len() {
        report::of_file(rt, name, b"is too long to be read whole");
        return 0;
    }
    n
}

// Opens the file of this name for reading. A name that is not UTF-8 names no file.
fn open<R: Files>(rt: &R, name: &[u8]) -> Option<R::File> {
    let path = str::from_utf8(name).ok()?;
    fs::open(rt, path).ok()
}

// Reads until `bytes` is full, the file ends or a read fails, and answers how many bytes are at the front of `bytes` then.
fn read_full<F: Read>(file: &mut F, bytes: &mut [u8]) -> usize
    ensures { IsPrefixLen result bytes.new }
{
    let mut done = 0;
    while done < bytes.len() {
        let n = file.read(&mut bytes[done..]).unwrap_or(0);
        if n == 0 {
            break;
        }
        done += n;
    }
    done
}

// The number n, or the length of `s` where that is less: a count of bytes at the front of `s`.
pub fn within(n: usize, s: &[u8]) -> usize
    ensures prefix_len { IsPrefixLen result s.now }
    ensures value { result ≡ min n (length s.now) }
{
    n.min(s.len())
}

// Where the byte `mark` stands next from `at` on, or the end of the text.
pub fn next(text: &[u8], at: usize, mark: u8) -> usize
    requires { at ≤ length text.now }
    ensures bounds { (at ≤ result) × (result ≤ length text.now) }
    ensures value { result ≡ at + before mark (drop at text.now) }
{
    for end in at..text.len() {
        if text[end] == mark {
            return end;
        }
    }
    text.len()
}
