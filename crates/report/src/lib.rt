// What the program `inspect` prints of a recording (01, "Clock and recordings"): a line a packet, a line at each break in the succession,
// and a summary. The recording comes in by blocks of any length; what is printed does not depend on them (proofs/Prints.antt).
#![tactic(auto)]

ghost use Rattle.std.specs.Prelude.{◌≡◌, length};
ghost use Rattle.laws.specs.Written.{written};
ghost use Rattle.mdi.specs.Reading.{read_for};
ghost use Rattle.moves.specs.Moves.{Puts};
ghost use Rattle.walk.specs.Walk.{work_for};
ghost use Rattle.report.specs.Report.{begun_for, break_of, line_of, seen_after, break_for, line_for, shown_for, refusal_of, summary_for, refusal_for, closed_for};

use mdi::Answer;
use record::Record;
use tally::Tally;
use walk::{Ended, Walk};

// The counts so far, and the last packet that was read, where there is any.
// Kept: a flag beside `last`, since `feed` and `end` take both whatever they are: a narrower type would ask more of callers.
#[derive(Clone, Copy)]
pub struct Seen {
    pub tally: Tally,
    pub any: bool,
    pub last: Record,
}

#[derive(Clone, Copy)]
pub struct Report {
    pub walk: Walk,
    pub seen: Seen,
}

// `taken`: bytes of the block; the rest is handed over again. `broken` and `line`: bytes of the line of a break and of a packet, 0 where
// there is none.
// Kept: lengths, since the lines stand in buffers that the caller lends (no heap, and `feed` has them as parameters in docs/PROMISES.md).
#[derive(Clone, Copy)]
pub struct Shown {
    pub report: Report,
    pub taken: usize,
    pub broken: usize,
    pub line: usize,
}

// The bytes of the summary, and of the line of a refusal, 0 where there is none.
#[derive(Clone, Copy)]
pub struct Closed {
    pub summary: usize,
    pub refusal: usize,
}

// The bytes of the line of a break and of a packet's own line.
#[derive(Clone, Copy)]
struct Lines {
    broken: usize,
    line: usize,
}

// Begins with the first byte of the recording, or none where it has none.
pub fn begin(first: &[u8]) -> Report
    ensures { result ≡ begun_for first.now }
{
    Report {
        walk: walk::begin(first),
        seen: Seen {
            tally: tally::none(),
            any: false,
            last: record::none(),
        },
    }
}

// Takes bytes from the front of the block, one at least where there is one and nothing was refused. Where they make a packet whole, its
// line goes to the front of `line`, and that of a break before it to the front of `broken`.
pub fn feed(
    r: Report,
    work: &mut [u8; 65532],
    block: &[u8],
    broken: &mut [u8; 1024],
    line: &mut [u8; 1024],
) -> Shown
    ensures answer { result ≡ shown_for r work.old block.now }
    ensures held { work.new ≡ work_for r.walk work.old block.now }
    ensures between { broken.new ≡ written broken.old 0 (break_for r work.old block.now) }
    ensures text { line.new ≡ written line.old 0 (line_for r work.old block.now) }
{
    let f = walk::feed(r.walk, work, block);
    let mut shown = Shown {
        report: Report {
            walk: f.walk,
            seen: r.seen,
        },
        taken: f.taken,
        broken: 0,
        line: 0,
    };
    if let Some(size) = f.packet {
        let packet = walk::packet(work, size);
        let lines = saw(&mut shown.report.seen, r.walk.at, packet, broken, line);
        shown.broken = lines.broken;
        shown.line = lines.line;
    }
    shown
}

// No byte comes any more: the summary goes to the front of `summary`, and the line of a refusal to the front of `refusal`.
pub fn end(r: Report, summary: &mut [u8; 1024], refusal: &mut [u8; 1024]) -> Closed
    ensures answer { result ≡ closed_for r }
    ensures text { summary.new ≡ written summary.old 0 (summary_for r) }
    ensures reason { refusal.new ≡ written refusal.old 0 (refusal_for r) }
{
    Closed {
        summary: summary_text::summary(r.seen.tally, summary),
        refusal: put_refusal(walk::end(r.walk), refusal),
    }
}

fn put_refusal(e: Ended, out: &mut [u8; 1024]) -> usize
    ensures { Puts out.old 0 (refusal_of e) out.new result }
{
    if e.number == 0 {
        return 0;
    }
    inspect_text::refusal(e.number, e.place, out)
}

// One packet more, whose entry stands at an offset of the file. What is seen is lent, and so is the packet's answer below: each is over a kilobyte.
fn saw(
    seen: &mut Seen,
    at: u64,
    packet: &[u8],
    broken: &mut [u8; 1024],
    line: &mut [u8; 1024],
) -> Lines
    ensures after { seen.new ≡ seen_after seen.old (read_for packet.now) }
    ensures between { Puts broken.old 0 (break_of seen.old (read_for packet.now)) broken.new result.broken }
    ensures text { Puts line.old 0 (line_of seen.old at (read_for packet.now)) line.new result.line }
{
    let a = Answer::from(mdi::read(packet));
    let n = inspect_text::line(seen.tally.packets.wrapping_add(1), at, a, line);
    let b = put_break(seen, &a, broken);
    note(seen, &a, b);
    Lines { broken: b, line: n }
}

// The line of a break before this packet, where it was read and one was before.
fn put_break(seen: &Seen, a: &Answer, out: &mut [u8; 1024]) -> usize
    ensures { Puts out.old 0 (break_of seen.now a.now) out.new result }
{
    if a.number != 0 || !seen.any {
        return 0;
    }
    inspect_text::broken(seen.last, a.content, out)
}

// n is the length of the line of a break.
fn note(seen: &mut Seen, a: &Answer, n: usize)
    requires { n ≡ length (break_of seen.old a.now) }
    ensures { seen.new ≡ seen_after seen.old a.now }
{
    seen.tally = tally::count(seen.tally, *a, n != 0);
    if a.number == 0 {
        seen.any = true;
        seen.last = a.content;
    }
}
