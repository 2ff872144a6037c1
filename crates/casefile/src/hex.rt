// Bytes as hexadecimal digits.
ghost use Rattle.std.specs.Prelude.{◌≡◌, true, ◌<◌, length, unwrap_or, IfSome};
ghost use Rattle.casefile.specs.Hex.{digit_value, hex_bytes, is_hex};

// The value of a digit, 0 to 9 or a to f; any other byte has none.
#[tactic(auto, unfolding(crate::specs::Hex::digit_value))]
pub fn digit(b: u8) -> Option<u8>
    ensures value { unwrap_or result 16 ≡ digit_value b }
    ensures below { IfSome result (λ value. value < 16) }
{
    match b {
        b'0'..=b'9' => Some(b - b'0'),
        b'a'..=b'f' => Some(b - b'a' + 10),
        _ => None,
    }
}

// Fills `out` with what `digits` stand for, two digits a byte, and answers whether they are digits, just as many, and not none.
// Where they are not, what it leaves in `out` is not specified.
pub fn decode(digits: &[u8], out: &mut [u8]) -> bool
    ensures value { result ≡ is_hex digits.now (length out.old) }
    ensures out_after { result ≡ true → out.new ≡ hex_bytes digits.now }
{
    if digits.is_empty() || digits.len() != 2 * out.len() {
        return false;
    }
    for i in 0..out.len() {
        let Some(high) = digit(digits[2 * i]) else {
            return false;
        };
        let Some(low) = digit(digits[2 * i + 1]) else {
            return false;
        };
        out[i] = high * 16 + low;
    }
    true
}
