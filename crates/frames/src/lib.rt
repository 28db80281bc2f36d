// The multiplex frame (01, "The description and the frame it cuts"): built from its streams, and cut into them.
#![tactic(auto)]

ghost use Rattle.std.specs.Prelude.{◌≡◌, [], ◌∷◌, ◌++◌, ◌+◌, ◌≤◌, ltb, length, get_or};
ghost use Rattle.std.specs.List.{list_any, zip};
ghost use Rattle.laws.specs.Refuse.{refused_with};
ghost use Rattle.laws.specs.Written.{written};
ghost use Rattle.description.specs.Bytes.{filled};
ghost use Rattle.refusal.specs.Refusal.{number_in};
ghost use Rattle.moves.specs.Moves.{Puts};
ghost use Rattle.moves.specs.Wrote.{wrote_in};
ghost use Rattle.frames.specs.Ready.{all_a, all_b, all_parts, Ready};
ghost use Rattle.frames.specs.Frames.{joined, bytes_in, sizes, any_long, any_less, build_tests, build_for, frame_for, streams_in, cut_for, stream_for};

use description::Description;
use places::Part;
use refusal::Refusal;

// Four pieces, one behind the other.
fn put_four(s0: &[u8], s1: &[u8], s2: &[u8], s3: &[u8], out: &mut [u8], at: usize) -> usize
    requires { at + (length s0.now + length s1.now + length s2.now + length s3.now) ≤ length out.old }
    ensures { Puts out.old at (joined (s0.now ∷ s1.now ∷ s2.now ∷ s3.now ∷ [])) out.new result }
{
    let at1 = moves::put(s0, out, at);
    let at2 = moves::put(s1, out, at1);
    let at3 = moves::put(s2, out, at2);
    moves::put(s3, out, at3)
}

// The parts A of all streams, from the front on, and behind them the parts B.
fn put_parts(d: Description, s0: &[u8], s1: &[u8], s2: &[u8], s3: &[u8], out: &mut [u8]) -> usize
    requires { Ready d s0.now s1.now s2.now s3.now (length out.old) }
    ensures { (result ≡ all_a d + all_b d) × Puts out.old 0 (all_parts d s0.now s1.now s2.now s3.now) out.new result }
{
    let l0 = d.stream[0];
    let l1 = d.stream[1];
    let l2 = d.stream[2];
    let l3 = d.stream[3];
    let a0 = l0.a as usize;
    let a1 = l1.a as usize;
    let a2 = l2.a as usize;
    let a3 = l3.a as usize;
    let at = put_four(&s0[..a0], &s1[..a1], &s2[..a2], &s3[..a3], out, 0);
    put_four(&s0[a0..], &s1[a1..], &s2[a2..], &s3[a3..], out, at)
}

// The bytes of each slot's stream.
fn sizes(d: Description) -> [usize; 4]
    ensures { result ≡ sizes d }
{
    let [s0, s1, s2, s3] = d.stream;
    [s0.size(), s1.size(), s2.size(), s3.size()]
}

fn is_any_long(lengths: [usize; 4]) -> bool
    ensures { result ≡ any_long lengths }
{
    lengths.iter().any(|&n| 65528 < n)
}

fn is_any_less(lengths: [usize; 4], sizes: [usize; 4]) -> bool
    ensures { result ≡ list_any (λ p. ltb p.0 p.1) (zip lengths sizes) }
{
    lengths.iter().zip(&sizes).any(|(n, size)| n < size)
}

// Whether the lengths are those that the description has.
fn is_filled(d: Description, lengths: [usize; 4]) -> bool
    ensures { result ≡ filled d (get_or lengths 0 0) (get_or lengths 1 0) (get_or lengths 2 0) (get_or lengths 3 0) }
{
    lengths == sizes(d)
}

// Whether an output is shorter than its stream.
fn is_short(d: Description, rooms: [usize; 4]) -> bool
    ensures { (result ≡ any_less (sizes d) rooms) × (length d.stream ≡ 4) }
{
    let sizes = sizes(d);
    is_any_less(rooms, sizes)
}

// Tries a frame to be built, by the lengths of its streams.
fn check(
    capacity: usize,
    d: Description,
    mode: u8,
    lengths: [usize; 4],
    room: usize,
) -> Result<(), Refusal>
    ensures { number_in result ≡ refused_with (build_tests capacity d mode lengths room) }
{
    if places::is_bad_capacity(capacity) | is_any_long(lengths) {
        return Err(Refusal::Size);
    }
    description::handed_number(false, d, mode)?;
    if !is_filled(d, lengths) {
        return Err(Refusal::StreamLength);
    }
    if capacity < places::used(d) {
        return Err(Refusal::OverCapacity);
    }
    if room < capacity {
        return Err(Refusal::Size);
    }
    Ok(())
}

// Writes the frame to the front of the output: part A of streams 0, 1, .., then part B, then zeros to the capacity. Refused with 1 (a
// capacity not from 1 to 32,760, a stream over 65,528 bytes), 6, 9, 10, 11, 12, 1 (an output shorter than the capacity).
pub fn build(
    capacity: usize,
    d: Description,
    mode: u8,
    s0: &[u8],
    s1: &[u8],
    s2: &[u8],
    s3: &[u8],
    out: &mut [u8],
) -> Result<usize, Refusal>
    ensures answer { wrote_in result ≡ build_for capacity d mode (s0.now ∷ s1.now ∷ s2.now ∷ s3.now ∷ []) out.old }
    ensures memory { out.new ≡ frame_for capacity d mode (s0.now ∷ s1.now ∷ s2.now ∷ s3.now ∷ []) out.old }
{
    let lengths = [s0.len(), s1.len(), s2.len(), s3.len()];
    check(capacity, d, mode, lengths, out.len())?;
    let end = put_parts(d, s0, s1, s2, s3, out);
    moves::clear(out, end, capacity - end);
    Ok(capacity)
}

// Copies two parts of the frame, one behind the other, to the front of the output.
fn take_out(x: Part, y: Part, frame: &[u8], out: &mut [u8])
    requires { (x.at + x.len ≤ length frame.now) × (y.at + y.len ≤ length frame.now) × (x.len + y.len ≤ length out.old) }
    ensures { out.new ≡ written out.old 0 (bytes_in frame.now x ++ bytes_in frame.now y) }
{
    let a = x.at;
    let e = a + x.len;
    let at = moves::put(&frame[a..e], out, 0);
    let b = y.at;
    let f = b + y.len;
    moves::put(&frame[b..f], out, at);
}

// Copies each stream, its part A and then its part B, to the front of its output; the padding is not looked at. Refused with 1 (a capacity
// not from 1 to 32,760, a frame of another length), 6, 9, 10, 12, 1 (an output shorter than its stream).
pub fn cut(
    capacity: usize,
    d: Description,
    mode: u8,
    frame: &[u8],
    o0: &mut [u8],
    o1: &mut [u8],
    o2: &mut [u8],
    o3: &mut [u8],
) -> Result<[usize; 4], Refusal>
    ensures answer { streams_in result ≡ cut_for capacity d mode frame.now (o0.old ∷ o1.old ∷ o2.old ∷ o3.old ∷ []) }
    ensures memory0 { o0.new ≡ stream_for capacity d mode frame.now (o0.old ∷ o1.old ∷ o2.old ∷ o3.old ∷ []) 0 }
    ensures memory1 { o1.new ≡ stream_for capacity d mode frame.now (o0.old ∷ o1.old ∷ o2.old ∷ o3.old ∷ []) 1 }
    ensures memory2 { o2.new ≡ stream_for capacity d mode frame.now (o0.old ∷ o1.old ∷ o2.old ∷ o3.old ∷ []) 2 }
    ensures memory3 { o3.new ≡ stream_for capacity d mode frame.now (o0.old ∷ o1.old ∷ o2.old ∷ o3.old ∷ []) 3 }
{
    if frame.len() != capacity {
        return Err(Refusal::Size);
    }
    let p = places::layout(capacity, d, mode)?;
    if is_short(d, [o0.len(), o1.len(), o2.len(), o3.len()]) {
        return Err(Refusal::Size);
    }
    take_out(p.part[0], p.part[4], frame, o0);
    take_out(p.part[1], p.part[5], frame, o1);
    take_out(p.part[2], p.part[6], frame, o2);
    take_out(p.part[3], p.part[7], frame, o3);
    Ok(sizes(d))
}
