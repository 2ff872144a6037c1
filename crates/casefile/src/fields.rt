// The fields of a line: words of hexadecimal digits, "-" for nothing.
ghost use Rattle.std.specs.Prelude.{◌≡◌, ◌++◌, true, length, drop, IfOk, IfSome, IfNone};
ghost use Rattle.casefile.specs.Texts.{IsPrefixLen};
ghost use Rattle.casefile.specs.Words.{word_of};
ghost use Rattle.casefile.specs.Fields.{field_read, field_of, field_bytes, told_field};

use crate::{file, hex, words};

// A word that is no field, and how many bytes at the front of the output it may have changed.
#[derive(Clone, Copy)]
pub struct Malformed {
    pub touched: usize,
}

// Reads word k into the front of `out`, and answers how many bytes it has. An empty word is no field. Where the word is none, what is
// left in `out` is not specified.
pub fn field(line: &[u8], k: usize, out: &mut [u8]) -> Result<usize, Malformed>
    ensures prefix_len { IsPrefixLen (told_field result).n out.new }
    ensures value { told_field result ≡ field_of (word_of line.now k) (length out.old) }
    ensures out_after { IfOk result (λ n. out.new ≡ field_bytes (word_of line.now k) ++ drop n out.old) }
{
    let w = words::word(line, k);
    if check::same(w, b"-") {
        return Ok(0);
    }
    let n = file::within(w.len() / 2, out);
    if hex::decode(w, &mut out[..n]) {
        Ok(n)
    } else {
        Err(Malformed { touched: n })
    }
}

// The bytes of word k, if it is a field of just as many.
pub fn exact<const N: usize>(line: &[u8], k: usize) -> Option<[u8; N]>
    ensures some { IfSome result (λ bytes. (field_of (word_of line.now k) N ≡ field_read true N) × (bytes ≡ field_bytes (word_of line.now k))) }
    ensures none { IfNone result (field_of (word_of line.now k) N ≡ field_read true N → ⊥) }
{
    let mut bytes = [0u8; N];
    match field(line, k, &mut bytes) {
        Ok(n) if n == N => Some(bytes),
        _ => None,
    }
}
