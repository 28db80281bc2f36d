// Big-endian numbers of 16, 32 and 64 bits in a slice, at any offset: a number lies wholly within the slice, or it is not there.
#![tactic(auto)]

ghost use Rattle.std.specs.Prelude.{◌≡◌, ◌+◌, ◌*◌, ◌^◌, ◌<◌, ◌≤◌, leb, length};
ghost use Rattle.laws.specs.Big.{number_at};
ghost use Rattle.fields.specs.Numbers.{put_at};

// The number at the offset, or 0 where it is not there.
// Kept: the six calls of docs/PROMISES.md, a line each over one `read` and one `write`; a trait for the three types would be longer than they are.
pub fn read16(s: &[u8], at: usize) -> u16
    ensures { result ≡ number_at 2 s.now at }
{
    read(2, s, at) as u16
}

pub fn read32(s: &[u8], at: usize) -> u32
    ensures { result ≡ number_at 4 s.now at }
{
    read(4, s, at) as u32
}

pub fn read64(s: &[u8], at: usize) -> u64
    ensures { result ≡ number_at 8 s.now at }
{
    read(8, s, at)
}

// Writes the number at the offset. Where it has no room there, the answer is false and nothing is written.
pub fn write16(dst: &mut [u8], at: usize, v: u16) -> bool
    ensures { (result ≡ leb (at + 2) (length dst.old)) × (dst.new ≡ put_at 2 dst.old at v) }
{
    write(2, dst, at, v as u64)
}

pub fn write32(dst: &mut [u8], at: usize, v: u32) -> bool
    ensures { (result ≡ leb (at + 4) (length dst.old)) × (dst.new ≡ put_at 4 dst.old at v) }
{
    write(4, dst, at, v as u64)
}

pub fn write64(dst: &mut [u8], at: usize, v: u64) -> bool
    ensures { (result ≡ leb (at + 8) (length dst.old)) × (dst.new ≡ put_at 8 dst.old at v) }
{
    write(8, dst, at, v)
}

// The number of the n bytes at the offset. The offset may be any number, so `at + n` is formed only once it is known to fit.
fn read(n: usize, s: &[u8], at: usize) -> u64
    requires { n ≤ 8 }
    ensures { (result ≡ number_at n s.now at) × (result < 2 ^ (8 * n)) }
{
    if s.len() < n || s.len() - n < at {
        return 0;
    }
    let bytes = &s[at..at + n];
    let mut number: u64 = 0;
    for byte in bytes {
        number = number * 256 + *byte as u64;
    }
    number
}

// Writes the low n bytes of v at the offset, the last byte first.
fn write(n: usize, dst: &mut [u8], at: usize, v: u64) -> bool
    ensures { (result ≡ leb (at + n) (length dst.old)) × (dst.new ≡ put_at n dst.old at v) }
{
    if dst.len() < n || dst.len() - n < at {
        return false;
    }
    let mut rest = v;
    for i in (0..n).rev() {
        dst[at + i] = (rest % 256) as u8;
        rest /= 256;
    }
    true
}
