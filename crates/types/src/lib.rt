// Addresses and keys, as numbers and as bytes: the port of types.rs, hex text left out. The Rust's
// `Result` with the bytes that remain is here the value and how many bytes it took, if the bytes
// give one.
#![tactic(auto)]

ghost use Rattle.std.specs.Prelude.{◌≡◌, ◌+◌, ◌≤◌, length};
ghost use Rattle.octets.specs.Strings.{over};
ghost use Rattle.octets.specs.Numbers.{le};
ghost use Rattle.types.specs.Addresses.{read_nwk, read_pan_id, read_eui64, reversed};
ghost use Rattle.types.specs.Keys.{read_key, key_bytes};
ghost use Rattle.types.specs.Optional.{ieee_bytes};

pub mod level;
pub mod ranges;

// The largest NWK payload, or command: 127 bytes less the smallest MAC and NWK headers.
pub const MAX_NSDU_SIZE: usize = 108;

// The last frame counter, before which a sender stops (Zigbee Specification 4.3.1.1).
pub const LAST_COUNTER: u32 = 0xFFFF_FFFF;

// A 16-bit network address.
#[derive(Clone, Copy)]
pub struct Nwk(pub u16);

// What stands in a list of addresses past its count.
pub const NO_NWK: Nwk = Nwk(0);

// A 16-bit PAN identifier.
#[derive(Clone, Copy)]
pub struct PanId(pub u16);

// A 64-bit IEEE address, its bytes in wire order.
#[derive(Clone, Copy)]
pub struct Eui64(pub [u8; 8]);

// A 128-bit key.
#[derive(Clone, Copy)]
pub struct Key(pub [u8; 16]);

impl Nwk {
    // The address that the first two bytes give, least significant first, and how many bytes it took.
    pub fn deserialize(bytes: &[u8]) -> Option<(Nwk, usize)>
        ensures { result ≡ read_nwk bytes.now }
    {
        let first = bytes.first_chunk::<2>()?;
        Some((Nwk(u16::from_le_bytes(*first)), 2))
    }

    // Its two bytes as they stand in a frame.
    pub fn to_bytes(self) -> [u8; 2]
        ensures { result ≡ le 2 self.0 }
    {
        self.0.to_le_bytes()
    }

    // The address as a number.
    pub fn as_u16(self) -> u16
        ensures { result ≡ self.0 }
    {
        self.0
    }
}

impl PanId {
    // The identifier that the first two bytes give, least significant first, and how many bytes it took.
    pub fn deserialize(bytes: &[u8]) -> Option<(PanId, usize)>
        ensures { result ≡ read_pan_id bytes.now }
    {
        let first = bytes.first_chunk::<2>()?;
        Some((PanId(u16::from_le_bytes(*first)), 2))
    }

    // Its two bytes as they stand in a frame.
    pub fn to_bytes(self) -> [u8; 2]
        ensures { result ≡ le 2 self.0 }
    {
        self.0.to_le_bytes()
    }
}

impl Eui64 {
    // The address that the first eight bytes are, and how many bytes it took.
    pub fn deserialize(bytes: &[u8]) -> Option<(Eui64, usize)>
        ensures { result ≡ read_eui64 bytes.now }
    {
        let first = bytes.first_chunk::<8>()?;
        Some((Eui64(*first), 8))
    }

    // Over-the-air order, as the address appears in a frame.
    pub fn to_bytes(self) -> [u8; 8]
        ensures { result ≡ self.0 }
    {
        self.0
    }

    // Display order, the last wire byte first.
    pub fn to_be_bytes(self) -> [u8; 8]
        ensures { result ≡ reversed self.0 }
    {
        let mut bytes = self.0;
        bytes.reverse();
        bytes
    }

    // The address whose display order these bytes are.
    pub fn from_be_bytes(bytes: [u8; 8]) -> Self
        ensures { result.0 ≡ reversed bytes }
    {
        let mut wire = bytes;
        wire.reverse();
        Eui64(wire)
    }
}

// How many bytes a long address that may be missing takes in a frame. It is a 64-bit number, its first wire byte lowest.
pub fn ieee_size(ieee: Option<u64>) -> usize
    ensures { (result ≡ length (ieee_bytes ieee)) × (result ≤ 8) }
{
    match ieee {
        None => 0,
        Some(_) => 8,
    }
}

// Write it at place i, and give the place behind it.
pub fn put_ieee(ieee: Option<u64>, out: &mut [u8], i: usize) -> usize
    requires { i + length (ieee_bytes ieee) ≤ length out.old }
    ensures { (result ≡ i + length (ieee_bytes ieee)) × (out.new ≡ over out.old i (ieee_bytes ieee)) }
{
    match ieee {
        None => i,
        Some(x) => {
            octets::put_u64(out, i, x);
            i + 8
        }
    }
}

impl Key {
    // The key that these sixteen bytes are.
    pub fn from_string(text: [u8; 16]) -> Self
        ensures { result.0 ≡ text }
    {
        Key(text)
    }

    // The key that these bytes are, if they are exactly sixteen.
    pub fn from_bytes(bytes: &[u8]) -> Option<Key>
        ensures { result ≡ read_key bytes.now }
    {
        let Ok(key) = <[u8; 16]>::try_from(bytes) else {
            return None;
        };
        Some(Key(key))
    }

    // Its sixteen bytes.
    pub fn to_bytes(self) -> [u8; 16]
        ensures { result ≡ self.0 }
    {
        self.0
    }

    // The key of two numbers.
    pub fn from_halves(first: u64, second: u64) -> Self
        ensures { result.0 ≡ key_bytes first second }
    {
        let mut b = [0u8; 16];
        octets::put_u64(&mut b, 0, first);
        octets::put_u64(&mut b, 8, second);
        Key(b)
    }
}
