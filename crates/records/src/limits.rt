// The bytes that a record's fields can take.

ghost use Rattle.std.specs.Prelude.{◌≡◌, ◌≤◌, length};
ghost use Rattle.records.specs.Limits.{exceeds};

// Whether some byte of the record, which has one for each limit, exceeds its limit.
pub fn exceeds(limits: &[u8], bytes: &[u8]) -> bool
    requires { length limits.now ≤ length bytes.now }
    ensures { result ≡ exceeds limits.now bytes.now }
{
    let mut beyond = false;
    for i in 0..limits.len() {
        beyond |= limits[i] < bytes[i];
    }
    beyond
}
