// Bytes put into a lent slice: copied from another, or zeros. Where they have no room there, nothing is written.
#![tactic(auto)]

ghost use Rattle.std.specs.Prelude.{◌≡◌, ◌+◌, leb, length, replicate};
ghost use Rattle.moves.specs.Moves.{placed, behind};

// Whether n bytes from index at on lie within the slice. The offset may be any number, so the sum is formed only where it has room.
fn fits(s: &[u8], at: usize, n: usize) -> bool
    ensures { result ≡ leb (at + n) (length s.now) }
{
    at.checked_add(n).is_some_and(|end| end <= s.len())
}

// Copies all of src into dst from index at on.
pub fn copy(src: &[u8], dst: &mut [u8], at: usize)
    ensures { dst.new ≡ placed dst.old at src.now }
{
    if fits(dst, at, src.len()) {
        // Kept: byte by byte. `copy_from_slice` becomes a `memmove`, and README promises that the archive for C calls nothing but `memcpy` and
        // `memset`.
        for (j, byte) in src.iter().enumerate() {
            dst[at + j] = *byte;
        }
    }
}

// Copies the bytes to the offset, and answers the offset behind them. Where they do not all fit there, nothing is written and the
// answer is the offset itself.
pub fn put(src: &[u8], dst: &mut [u8], at: usize) -> usize
    ensures answer { result ≡ behind dst.old at src.now }
    ensures memory { dst.new ≡ placed dst.old at src.now }
{
    if !fits(dst, at, src.len()) {
        return at;
    }
    copy(src, dst, at);
    at + src.len()
}

// n zeros from index at on.
pub fn clear(dst: &mut [u8], at: usize, n: usize)
    ensures { dst.new ≡ placed dst.old at (replicate n 0) }
{
    if fits(dst, at, n) {
        dst[at..at + n].fill(0);
    }
}
