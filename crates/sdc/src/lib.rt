// The block of the service description channel (01, "MDI packet", `sdc_`; 000, 6.4.2): held by value, read out of a `sdc_` value and
// written as one.
#![tactic(auto)]

ghost use Rattle.std.specs.Prelude.{◌≡◌, ◌∷◌, ◌+◌, ◌≤◌, length, drop};
ghost use Rattle.laws.specs.Written.{written};
ghost use Rattle.moves.specs.Moves.{placed};
ghost use Rattle.sdc.specs.Block.{no_sdc, sdc_of, sealed, sealed16, sdc_bytes, size_of, afs_of, over_long, blank, is_too_large};

// H of 01: the most data bytes that a block has.
const MOST: usize = 1024;

// The largest AFS index: it has four bits.
const TOP: u8 = 15;

// The AFS index of a block, and how many data bytes it has.
#[derive(Clone, Copy, PartialEq, Eq)]
pub struct Head {
    pub afs: u8,
    pub size: usize,
}

// The data bytes stand at the front of the body, zeros behind them; all zeros where there is no block. No block is not the same as a
// block without data.
#[derive(Clone, Copy, PartialEq, Eq)]
pub struct Sdc {
    pub head: Option<Head>,
    pub body: [u8; 1024],
}

// What a record without a block holds.
pub fn absent() -> Sdc
    ensures { result ≡ no_sdc }
{
    Sdc {
        head: None,
        body: [0; 1024],
    }
}

// What a `sdc_` value says, whatever its length: an empty one is an absent block, and of over 1,024 data bytes the first are taken.
pub fn of_value(value: &[u8]) -> Sdc
    ensures { result ≡ sdc_of value.now }
{
    if value.is_empty() {
        return absent();
    }
    let size = value.len().saturating_sub(3).min(MOST);
    let mut body = [0; 1024];
    moves::copy(&value[1..1 + size], &mut body, 0);
    let head = Some(Head {
        afs: value[0] % 16,
        size,
    });
    Sdc { head, body }
}

// Whether the value has its four zero bits and its CRC-16. An empty one needs neither.
pub fn is_sealed(value: &[u8]) -> bool
    ensures { result ≡ sealed value.now }
{
    let n = value.len();
    if n == 0 {
        return true;
    }
    if n < 3 {
        return false;
    }
    (value[0] < 16) & (fields::read16(value, n - 2) == crc::crc16(&value[0..n - 2]))
}

fn size_of(s: &Sdc) -> usize
    ensures { result ≡ size_of s.now.head }
{
    s.head.map_or(0, |h| h.size)
}

fn afs_of(s: &Sdc) -> u8
    ensures { result ≡ afs_of s.now.head }
{
    s.head.map_or(0, |h| h.afs)
}

// Whether all bytes from an index on are 0.
// Kept: `iter().all(..)` stops at the first other byte, so it takes one byte a turn: 8,236 instructions in bench's mdi_write, 3,035 so.
fn is_blank(s: &[u8], from: usize) -> bool
    ensures { result ≡ blank (drop from s.now) }
{
    let mut all = true;
    for i in from..s.len() {
        all &= s[i] == 0;
    }
    all
}

// Whether the block has more data bytes than an item may hold.
pub fn over_long(s: Sdc) -> bool
    ensures { result ≡ over_long s }
{
    MOST < size_of(&s)
}

// Whether the AFS index is too large for its bits, or a byte behind the data is not 0.
pub fn too_large(s: Sdc) -> bool
    ensures { result ≡ is_too_large s }
{
    TOP < afs_of(&s) || !is_blank(&s.body, size_of(&s))
}

// How many bytes the value of the block has.
pub fn value_length(s: Sdc) -> usize
    ensures { (result ≡ length (sdc_bytes s)) × (result ≤ 1027) }
{
    s.head.map_or(0, |h| h.size.min(MOST) + 3)
}

// First byte, data and CRC-16, at an offset where they have room.
fn put_sealed(afs: u8, body: &[u8], out: &mut [u8], at: usize)
    requires { at + (3 + length body.now) ≤ length out.old }
    ensures { out.new ≡ written out.old at (sealed16 (afs ∷ body.now)) }
{
    let end = at + 1 + body.len();
    out[at] = afs;
    moves::copy(body, out, at + 1);
    let word = crc::crc16(&out[at..end]);
    fields::write16(out, end, word);
}

// Writes the value of the block at an offset of the output; nothing where it has no room there.
pub fn put(s: Sdc, out: &mut [u8], at: usize)
    ensures { out.new ≡ placed out.old at (sdc_bytes s) }
{
    if let Some(h) = s.head {
        let n = h.size.min(MOST);
        if n + 3 <= out.len() && at <= out.len() - (n + 3) {
            put_sealed(h.afs, &s.body[..n], out, at);
        }
    }
}
