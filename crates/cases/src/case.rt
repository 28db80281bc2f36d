// What a case's body holds: numbers, and buffers in their two forms.
ghost use Rattle.std.specs.Prelude.{◌≡◌, ◌↔◌, ◌+◌, ◌≤◌, min, length, slice_index, IfSome, IsSomeAnd, IsTrue};

// A buffer that was read: its bytes stand at the front of the slice that it was read into. next is where the body goes on.
#[derive(Clone, Copy)]
pub struct Taken {
    pub len: usize,
    pub next: usize,
}

// Bytes of the largest body, and of the largest buffer in one. Answers are shorter.
pub const BODY: usize = 524288;

pub const BUFFER: usize = 131072;

pub const ANSWER: usize = 4096;

// Bodies and answers are shorter than this, so no position that is counted on from another can wrap.
const FAR: usize = 1048576;

// The position n bytes after at.
pub fn past(at: usize, n: usize) -> usize
    ensures { result ≡ min (at + n) 1048576 }
{
    at.saturating_add(n).min(FAR)
}

// A length as it stands in a case, as a number of bytes.
// Kept: a name for a conversion, since docs/PROMISES.md promises the call.
pub fn wide(x: u32) -> usize
    ensures { result ≡ x }
{
    x as usize
}

// The byte at a position, 0 past the end.
pub fn byte(s: &[u8], at: usize) -> u8
    ensures { result ≡ slice_index s.now at }
{
    s.get(at).copied().unwrap_or(0)
}

// The made-up bytes of a buffer of kind 1.
fn make(seed: u32, into: &mut [u8]) {
    let mut x = seed;
    for b in into.iter_mut() {
        x = x.wrapping_mul(1664525).wrapping_add(1013904223);
        let [high, ..] = x.to_be_bytes();
        *b = high;
    }
}

// Reads the buffer at a position of the body into the front of a slice; none where it does not stand whole in the body, or is longer
// than the slice.
pub fn buffer(body: &[u8], at: usize, into: &mut [u8]) -> Option<Taken>
    ensures { IfSome result (λ t. t.len ≤ length into.new) }
{
    let start = past(at, 5);
    let len = wide(fields::read32(body, past(at, 1)));
    if into.len() < len {
        return None;
    }
    let held = body.get(start..)?;
    match byte(body, at) {
        0 => {
            let bytes = held.get(..len)?;
            into[..len].copy_from_slice(bytes);
            let next = past(start, len);
            Some(Taken { len, next })
        }
        1 => {
            if held.len() < 4 {
                return None;
            }
            make(fields::read32(held, 0), &mut into[..len]);
            let next = past(start, 4);
            Some(Taken { len, next })
        }
        _ => None,
    }
}

// The buffer at a position of the body, where the call is handed one; else the first len bytes of the slice, as they are.
pub fn buffer_if(has: bool, body: &[u8], at: usize, into: &mut [u8], len: usize) -> Option<Taken>
    ensures { IfSome result (λ t. t.len ≤ length into.new) }
{
    if has {
        return buffer(body, at, into);
    }
    if into.len() < len {
        return None;
    }
    Some(Taken { len, next: at })
}

// The buffer stands whole in the body, and is the last thing in it.
pub fn ends(t: Option<Taken>, body: &[u8]) -> bool
    ensures { IsTrue result ↔ IsSomeAnd t (λ whole. whole.next ≡ length body.now) }
{
    t.is_some_and(|whole| whole.next == body.len())
}

// The first n bytes of s, or none where it has fewer.
pub fn front(s: &[u8], n: usize) -> &[u8]
    ensures { length result.now ≤ n }
{
    if s.len() < n {
        return &s[..0];
    }
    &s[..n]
}

pub fn front_mut(s: &mut [u8], n: usize) -> &mut [u8]
    ensures { length result.now ≤ n }
{
    if s.len() < n {
        return &mut s[..0];
    }
    &mut s[..n]
}
