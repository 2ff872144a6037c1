// SP 800-38C, A.2: the formatted input, and its blocks.
#![tactic(auto, unfolding(crate::specs::Formatting::two_bytes, crate::specs::Formatting::flags, crate::specs::Formatting::first_block, crate::specs::Formatting::blocks_of, crate::specs::Formatting::last_block))]

ghost use Rattle.std.specs.Prelude.{◌≡◌, ◌+◌, ◌*◌, ◌≤◌, ◌<◌, length};
ghost use Rattle.octets.specs.Strings.{over};
ghost use Rattle.octets.specs.Numbers.{le_at, bytes_of};
ghost use Rattle.ccm.specs.Formatting.{two_bytes, headed, flags, first_block, encoded_data, blocks_of, block_at, last_block, Formats};

// What a tag of t bytes is made for: the nonce, the associated data and the payload.
#[derive(Drop)]
pub struct InputData<'a> {
    pub t: usize,
    pub nonce: [u8; 13],
    pub auth: &'a [u8],
    pub payload: &'a [u8],
    ghost tag_length: { (2 ≤ t) × (t ≤ 16) },
    ghost lengths: { (length auth.now ≤ 127) × (length payload.now ≤ 127) },
}

impl InputData<'_> {
    // A.2.1: the flags of B_0.
    fn flags(&self) -> u8
        ensures { result ≡ flags self.now.t (length self.now.auth.now) }
    {
        let data = if self.auth.is_empty() { 0 } else { 64 };
        (data + 8 * ((self.t - 2) / 2) + 1) as u8
    }

    // A.2.1: B_0.
    fn first_block(&self) -> [u32; 4]
        ensures { bytes_of result ≡ first_block self.now.t self.now.nonce (length self.now.auth.now) (length self.now.payload.now) }
    {
        with_nonce(self.flags(), self.nonce, self.payload.len())
    }

    // How many blocks the associated data fills behind its length.
    #[tactic(auto, using(crate::proofs::Blocks::length_data), unfolding(crate::specs::Formatting::blocks_of))]
    fn data_blocks(&self) -> usize
        ensures { (result ≡ blocks_of (length (encoded_data self.now.auth.now))) × (result ≤ 9) }
    {
        if self.auth.is_empty() {
            0
        } else {
            blocks_of(self.auth.len() + 2)
        }
    }

    // r, the number of the last block.
    pub fn last_block(&self) -> usize
        ensures { (result ≡ last_block self.now.auth.now self.now.payload.now) × (result ≤ 17) }
    {
        self.data_blocks() + blocks_of(self.payload.len())
    }

    // A.2.2: write the associated data behind its length from the second block on, or nothing if there is none.
    fn put_data(&self, out: &mut [u8])
        requires { 160 ≤ length out.old }
        ensures { out.new ≡ over out.old 16 (encoded_data self.now.auth.now) }
    {
        if self.auth.is_empty() {
            return;
        }
        octets::copy_at(out, 16, &two_bytes(self.auth.len()));
        octets::copy_at(out, 18, self.auth);
    }

    // A.2: the formatted input, B_0 to B_r one behind the other. The places that nothing is written to are the zero fill; all 288 are for
    // 127 bytes of data behind their length and 127 of payload.
    pub fn formatted_input(&self) -> [u8; 288]
        ensures { Formats self.now.t self.now.nonce self.now.auth.now self.now.payload.now result }
    {
        let first = octets::block_bytes(self.first_block());
        let payload_at = (self.data_blocks() + 1) * 16;
        let mut input = [0u8; 288];
        octets::copy_at(&mut input, 0, &first);
        self.put_data(&mut input);
        octets::copy_at(&mut input, payload_at, self.payload);
        input
    }
}

// A number in two bytes, most significant first.
fn two_bytes(x: usize) -> [u8; 2]
    ensures { result ≡ two_bytes x }
{
    [(x / 256 % 256) as u8, (x % 256) as u8]
}

// A block of a first byte, the nonce and a two-byte number.
#[tactic(auto, unfolding(crate::specs::Formatting::two_bytes, octets::specs::Strings::tab, octets::specs::Numbers::bytes_of), using(crate::proofs::Blocks::headed_bytes))]
pub fn with_nonce(first: u8, nonce: [u8; 13], x: usize) -> [u32; 4]
    ensures { bytes_of result ≡ headed first nonce x }
{
    let n = nonce;
    let [high, low] = two_bytes(x);
    [
        octets::word_of(first, n[0], n[1], n[2]),
        octets::word_of(n[3], n[4], n[5], n[6]),
        octets::word_of(n[7], n[8], n[9], n[10]),
        octets::word_of(n[11], n[12], high, low),
    ]
}

// How many blocks n bytes fill.
pub fn blocks_of(n: usize) -> usize
    requires { n ≤ 144 }
    ensures { (result ≡ blocks_of n) × (result * 16 < n + 16) }
{
    n.div_ceil(16)
}

// The number of four bytes from place p on.
#[tactic(auto, using(octets::proofs::Numbers::le_at_four))]
fn word_at(s: &[u8], p: usize) -> u32
    requires { p + 4 ≤ length s.now }
    ensures { result ≡ le_at 4 s.now p }
{
    octets::word_of(s[p], s[p + 1], s[p + 2], s[p + 3])
}

// Block i of bytes that have it whole.
pub fn block_at(s: &[u8], i: usize) -> [u32; 4]
    requires { (i < 65536) × (i * 16 + 16 ≤ length s.now) }
    ensures { bytes_of result ≡ block_at s.now i }
{
    let p = i * 16;
    [
        word_at(s, p),
        word_at(s, p + 4),
        word_at(s, p + 8),
        word_at(s, p + 12),
    ]
}
