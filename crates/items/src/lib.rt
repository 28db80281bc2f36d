// TAG items of a lent packet (01, "MDI packet"; 002, clause 5): a name of 4 bytes, a length in bits of 4 bytes, and a value of that length
// rounded up to whole bytes. Items follow each other; fewer than 8 bytes behind the last are padding.
#![tactic(auto)]

ghost use Rattle.std.specs.Prelude.{◌≡◌, ◌+◌, ◌*◌, ◌^◌, ◌≤◌, length};
ghost use Rattle.items.specs.Items.{bytes_for, size_at, cut_of, walked_of, shown_at};

// Where a value starts in the packet and how many bits it has; 0 and 0: there is no such item.
#[derive(Clone, Copy)]
pub struct Spot {
    pub start: usize,
    pub bits: u32,
}

// Where the whole items stop, and how many they are.
#[derive(Clone, Copy)]
pub struct Walked {
    pub stop: usize,
    pub count: usize,
}

// The whole bytes that so many bits take.
pub fn bytes(bits: u32) -> usize
    ensures { (result ≡ bytes_for bits) × (result ≤ 2 ^ 29) }
{
    (bits as usize).div_ceil(8)
}

// The bytes of the whole item at an offset, header and value; 0 where none stands there.
pub fn size_at(s: &[u8], at: usize) -> usize
    ensures { result ≡ size_at s.now at }
{
    let Some(rest) = s.get(at..) else {
        return 0;
    };
    let size = 8 + bytes(fields::read32(rest, 4));
    if rest.len() < size {
        return 0;
    }
    size
}

// The offset behind the last whole item, and the number of items.
pub fn walk(s: &[u8]) -> Walked
    ensures { (result ≡ walked_of (cut_of s.now)) × (result.stop ≤ length s.now) × (result.count * 8 ≤ length s.now) }
{
    let mut at: usize = 0;
    let mut count: usize = 0;
    // Kept: a loop, for the answer has the offset where the items stop, and a `for` over an iterator of items would have taken it.
    loop {
        let n = size_at(s, at);
        if n == 0 {
            return Walked { stop: at, count };
        }
        at += n;
        count += 1;
    }
}

// The value that a spot shows, as a part of the packet; empty where it is not within it.
pub fn value(s: &[u8], x: Spot) -> &[u8]
    ensures { result.now ≡ shown_at s.now x }
{
    let size = bytes(x.bits);
    match s.get(x.start..) {
        Some(rest) if size <= rest.len() => &rest[..size],
        _ => &[],
    }
}
