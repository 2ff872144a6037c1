// The words of a line, one space between two: bytes, a letter, a decimal number.
ghost use Rattle.std.specs.Prelude.{◌≡◌, ◌≤◌, ◌<◌, length, unwrap_or, IfSome, IfNone};
ghost use Rattle.casefile.specs.Texts.{same_text};
ghost use Rattle.casefile.specs.Words.{word_start, word_of, is_last, letter_of, decimal_value, decimal_of};

use crate::{file, hex};

// Where word k of a line starts: behind its k-th space.
fn word_start(line: &[u8], k: usize) -> usize
    ensures upper_bound { result ≤ length line.now }
    ensures value { result ≡ word_start line.now k }
{
    let mut left = k;
    for i in 0..line.len() {
        if left == 0 {
            return i;
        }
        if line[i] == b' ' {
            left -= 1;
        }
    }
    line.len()
}

// Word k of a line, counted from 0: empty where there is none.
pub fn word(line: &[u8], k: usize) -> &[u8]
    ensures { result.now ≡ word_of line.now k }
{
    let start = word_start(line, k);
    let end = file::next(line, start, b' ');
    &line[start..end]
}

// Whether word k of a line is its last one, and not empty: so a line that ends in a space has none.
pub fn is_last(line: &[u8], k: usize) -> bool
    ensures { result ≡ is_last line.now k }
{
    let start = word_start(line, k);
    let end = file::next(line, start, b' ');
    start < end && end == line.len()
}

// Whether word k of a line is this one.
pub fn is(line: &[u8], k: usize, text: &[u8]) -> bool
    ensures { result ≡ same_text (word_of line.now k) text.now }
{
    check::same(word(line, k), text)
}

// The letter that is the first word of a line, and 0 where that is not one byte.
pub fn letter(line: &[u8]) -> u8
    ensures { result ≡ letter_of (word_of line.now 0) }
{
    match word(line, 0) {
        &[letter] => letter,
        _ => 0,
    }
}

// The value of a decimal digit; any other byte has none.
#[tactic(auto, unfolding(crate::specs::Words::decimal_value))]
fn decimal(b: u8) -> Option<usize>
    ensures value { unwrap_or result 1000 ≡ decimal_value b }
    ensures below { IfSome result (λ value. value < 10) }
{
    let digit = hex::digit(b)?;
    if digit < 10 {
        Some(usize::from(digit))
    } else {
        None
    }
}

// The number that word k of a line stands for, if it is one to three digits.
#[tactic(auto, unfolding(crate::specs::Words::decimal_of))]
pub fn number(line: &[u8], k: usize) -> Option<usize>
    ensures none { IfNone result (1000 ≤ decimal_of (word_of line.now k)) }
    ensures some { IfSome result (λ n. (n ≡ decimal_of (word_of line.now k)) × (n < 1000)) }
{
    match word(line, k) {
        &[a] => decimal(a),
        &[a, b] => Some(10 * decimal(a)? + decimal(b)?),
        &[a, b, c] => Some(100 * decimal(a)? + 10 * decimal(b)? + decimal(c)?),
        _ => None,
    }
}
