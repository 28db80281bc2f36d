// The lines that the program `inspect` prints (01, "Clock and recordings"): of a packet, of a refusal, and of a break in the
// succession. Each goes to the front of the lent buffer, and the answer is its length.
#![tactic(auto)]

ghost use Rattle.std.specs.Prelude.{◌≡◌, ◌+◌, ◌≤◌, ◌<◌, length};
ghost use Rattle.moves.specs.Moves.{Puts};
ghost use Rattle.inspect_text.specs.Inspect.{length_text, lengths_text, streams_text, mode_text, content_text, head_text, refused_text, Line};
ghost use Rattle.inspect_text.specs.Break.{raw_stamp_text, raw_text, count_text, break_text};

use calendar::Date;
use clock::Stamp;
use description::{Description, Lengths};
use mdi::Answer;
use record::Record;

// The length of stream i of count; nothing where there is no such stream.
fn put_length(count: usize, i: usize, x: Lengths, out: &mut [u8], at: usize) -> usize
    requires { at + 21 ≤ length out.old }
    ensures { (result ≤ at + 21) × Puts out.old at (length_text count i x) out.new result }
{
    if count <= i {
        return at;
    }
    line_text::named(b" ", u64::from(x.a) + u64::from(x.b), out, at)
}

fn put_lengths(d: Description, out: &mut [u8], at: usize) -> usize
    requires { at + 84 ≤ length out.old }
    ensures { (result ≤ at + 84) × Puts out.old at (lengths_text d) out.new result }
{
    let n = d.count;
    let x = d.stream[0];
    let y = d.stream[1];
    let z = d.stream[2];
    let w = d.stream[3];
    let a = put_length(n, 0, x, out, at);
    let b = put_length(n, 1, y, out, a);
    let c = put_length(n, 2, z, out, b);
    put_length(n, 3, w, out, c)
}

fn put_streams(d: Description, out: &mut [u8], at: usize) -> usize
    requires { at + 93 ≤ length out.old }
    ensures { (result ≤ at + 93) × Puts out.old at (streams_text d) out.new result }
{
    let a = line_text::word(b" streams", out, at);
    let b = put_lengths(d, out, a);
    line_text::word(b"\n", out, b)
}

// The robustness mode, A to D for 0 to 3.
fn put_mode(m: u8, out: &mut [u8], at: usize) -> usize
    requires { at + 7 ≤ length out.old }
    ensures { (result ≤ at + 7) × Puts out.old at (mode_text m) out.new result }
{
    let text = [b' ', b'm', b'o', b'd', b'e', b' ', 65 + m % 4];
    line_text::word(&text, out, at)
}

fn put_content(c: Record, d: Date, out: &mut [u8], at: usize) -> usize
    requires { at + 196 ≤ length out.old }
    ensures { (result ≤ at + 196) × Puts out.old at (content_text c d) out.new result }
{
    let t = c.time;
    let x = c.description;
    let a = line_text::named(b" count ", c.count as u64, out, at);
    let b = stamp_text::time(t, d, out, a);
    let e = put_mode(c.robustness, out, b);
    put_streams(x, out, e)
}

fn put_head(n: u64, offset: u64, out: &mut [u8], at: usize) -> usize
    requires { at + 51 ≤ length out.old }
    ensures { (result ≤ at + 51) × Puts out.old at (head_text n offset) out.new result }
{
    let a = line_text::named(b"packet ", n, out, at);
    line_text::named(b" at ", offset, out, a)
}

// The line of packet n, which stands at an offset of the file, from what reading it gave.
pub fn line(n: u64, offset: u64, x: Answer, out: &mut [u8; 1024]) -> usize
    ensures { Line n offset x out.old out.new result }
{
    let c = x.content;
    let t = c.time;
    let d = calendar::utc(stamp_text::since(t));
    let a = put_head(n, offset, out, 0);
    if x.number != 0 {
        let b = line_text::word(b" ", out, a);
        return line_text::pair(
            b"refused ",
            x.number as u64,
            b" at ",
            x.place as u64,
            out,
            b,
        );
    }
    put_content(c, d, out, a)
}

// The line of a recording that is refused.
pub fn refusal(number: u32, place: u64, out: &mut [u8; 1024]) -> usize
    ensures { Puts out.old 0 (refused_text number place) out.new result }
{
    let k = number as u64;
    line_text::pair(b"refused ", k, b" at ", place, out, 0)
}

// A timestamp as it stands in the packet.
fn put_raw_stamp(s: Stamp, out: &mut [u8], at: usize) -> usize
    requires { at + 59 ≤ length out.old }
    ensures { (result ≤ at + 59) × Puts out.old at (raw_stamp_text s) out.new result }
{
    let a = line_text::named(b" seconds ", s.seconds, out, at);
    let b = stamp_text::millis(s.milliseconds, out, a);
    line_text::named(b" utco ", s.utco as u64, out, b)
}

fn put_raw(t: Option<Stamp>, out: &mut [u8], at: usize) -> usize
    requires { at + 59 ≤ length out.old }
    ensures { (result ≤ at + 59) × Puts out.old at (raw_text t) out.new result }
{
    match t {
        None => line_text::word(b" no timestamp", out, at),
        Some(stamp) => put_raw_stamp(stamp, out, at),
    }
}

fn put_count(word: &[u8], n: u64, t: Option<Stamp>, out: &mut [u8], at: usize) -> usize
    requires { (at + 100 ≤ length out.old) × (length word.now ≤ 20) }
    ensures { (result ≤ at + 100) × Puts out.old at (count_text word.now n t) out.new result }
{
    let a = line_text::named(word, n, out, at);
    put_raw(t, out, a)
}

// The line of a break, between two packets read one after the other; empty where the second follows the first.
pub fn broken(x: Record, y: Record, out: &mut [u8; 1024]) -> usize
    ensures { Puts out.old 0 (break_text x y) out.new result }
{
    if record::follows(x, y).unwrap_or(false) {
        return 0;
    }
    let s = x.time;
    let t = y.time;
    let a = put_count(b"break: count ", x.count as u64, s, out, 0);
    let b = put_count(b", then count ", y.count as u64, t, out, a);
    line_text::word(b"\n", out, b)
}
