// Byte strings: reading with 0 past the end, copying, and numbers least significant byte first.
#![tactic(auto)]

ghost use Rattle.std.specs.Prelude.{◌≡◌, ◌&&◌, ◌||◌, [], ◌∷◌, ◌+◌, ◌-◌, ◌*◌, ◌≤◌, ◌<◌, ltb, length, get_or};
ghost use Rattle.octets.specs.Strings.{over};
ghost use Rattle.octets.specs.Numbers.{le, le_at, bytes_of};
ghost use Rattle.octets.specs.Fields.{bit};
ghost use Rattle.octets.specs.Refusals.{on, by, first_of};

pub mod refusals;

// A bit as a number.
pub fn bit_of(b: bool) -> u8
    ensures { (result ≡ bit b) × (result < 2) }
{
    u8::from(b)
}

// The byte at place i, or 0 past the end.
pub fn byte_at(s: &[u8], i: usize) -> u8
    ensures { result ≡ get_or s.now i 0 }
{
    s.get(i).copied().unwrap_or(0)
}

// The word of four bytes, least significant first.
pub fn word_of(a: u8, b: u8, c: u8, d: u8) -> u32
    ensures number { result ≡ le_at 4 (a ∷ b ∷ c ∷ d ∷ []) 0 }
    ensures bytes { le 4 result ≡ a ∷ b ∷ c ∷ d ∷ [] }
{
    u32::from_le_bytes([a, b, c, d])
}

// The four bytes of a word, least significant first.
pub fn bytes_of(w: u32) -> [u8; 4]
    ensures { result ≡ le 4 w }
{
    w.to_le_bytes()
}

// The four words of sixteen bytes.
pub fn block_words(b: [u8; 16]) -> [u32; 4]
    ensures { bytes_of result ≡ b }
{
    [
        word_of(b[0], b[1], b[2], b[3]),
        word_of(b[4], b[5], b[6], b[7]),
        word_of(b[8], b[9], b[10], b[11]),
        word_of(b[12], b[13], b[14], b[15]),
    ]
}

// The sixteen bytes of four words.
pub fn block_bytes(w: [u32; 4]) -> [u8; 16]
    ensures { result ≡ bytes_of w }
{
    let a = bytes_of(w[0]);
    let b = bytes_of(w[1]);
    let c = bytes_of(w[2]);
    let d = bytes_of(w[3]);
    [
        a[0], a[1], a[2], a[3], b[0], b[1], b[2], b[3], c[0], c[1], c[2], c[3], d[0], d[1], d[2],
        d[3],
    ]
}

// The 16-bit number at place i, least significant byte first; bytes past the end count 0.
pub fn read_u16(s: &[u8], i: usize) -> u16
    ensures { result ≡ le_at 2 s.now i }
{
    if s.len() <= i {
        return 0;
    }
    if s.len() - i == 1 {
        return u16::from(s[i]);
    }
    u16::from_le_bytes([s[i], s[i + 1]])
}

// The 32-bit number at place i, likewise.
pub fn read_u32(s: &[u8], i: usize) -> u32
    ensures { result ≡ le_at 4 s.now i }
{
    if s.len() <= i {
        return 0;
    }
    if 4 <= s.len() - i {
        return word_of(s[i], s[i + 1], s[i + 2], s[i + 3]);
    }
    let low = read_u16(s, i);
    let high = read_u16(s, i + 2);
    u32::from(low) + u32::from(high) * 0x1_0000
}

// The 64-bit number at place i, likewise.
pub fn read_u64(s: &[u8], i: usize) -> u64
    ensures { result ≡ le_at 8 s.now i }
{
    if s.len() <= i {
        return 0;
    }
    let low = read_u32(s, i);
    let high = read_u32(s, i + 4);
    u64::from(low) + u64::from(high) * 0x1_0000_0000
}

// Write one byte at place i.
pub fn put_u8(out: &mut [u8], i: usize, x: u8)
    requires { i + 1 ≤ length out.old }
    ensures { out.new ≡ over out.old i (le 1 x) }
{
    out[i] = x;
}

// Write a 16-bit number at place i, least significant byte first.
pub fn put_u16(out: &mut [u8], i: usize, x: u16)
    requires { i + 2 ≤ length out.old }
    ensures { out.new ≡ over out.old i (le 2 x) }
{
    copy_at(out, i, &x.to_le_bytes());
}

// Write a 32-bit number at place i, likewise.
pub fn put_u32(out: &mut [u8], i: usize, x: u32)
    requires { i + 4 ≤ length out.old }
    ensures { out.new ≡ over out.old i (le 4 x) }
{
    copy_at(out, i, &x.to_le_bytes());
}

// Write a 64-bit number at place i, likewise.
pub fn put_u64(out: &mut [u8], i: usize, x: u64)
    requires { i + 8 ≤ length out.old }
    ensures { out.new ≡ over out.old i (le 8 x) }
{
    copy_at(out, i, &x.to_le_bytes());
}

// Copy all of src over out from place i on.
pub fn copy_at(out: &mut [u8], i: usize, src: &[u8])
    requires { i + length src.now ≤ length out.old }
    ensures { out.new ≡ over out.old i src.now }
{
    out[i..i + src.len()].copy_from_slice(src);
}
