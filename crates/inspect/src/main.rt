// `inspect FILE`, or a recording on standard input: prints a line a packet, a line at each break in the succession, and a summary (01,
// "Clock and recordings"). It reads blocks, hands them to the crate `report`, and writes the lines that come back: nothing here decides
// what is printed. Proved of it: it is safe, it ends, and each call of `report` answers as that promises; and a run of those calls over all
// blocks gives one text for a file, wherever the blocks end (`prints` in crates/report/proofs/Prints.antt). Not proved, but read here and
// tried on recordings: that these loops make that run, each block handed over until all of it is taken, and print what each call gives.
#![tactic(auto)]

use report::Report;
use std::env::FillError;
use std::fs::File;
use std::io;
use std::io::Read;
use std::ops::ControlFlow;
use std::rt::{Env, Files};

// The longest entry, of which `report` holds the bytes.
const ENTRY: usize = 65532;

const BLOCK: usize = 65536;

// Writes the first n bytes.
fn print(rt: &impl Print, out: &[u8; 1024], n: usize) -> io::Result<()> {
    rt.write_all(out.get(..n).unwrap_or(&[]))
}

// A recording as far as it is read: what is seen of it, the bytes of an entry that is not yet whole, and the lines of the last call. It stays in
// one place and is lent: a report is some 1,400 bytes, and handing it on by value took a third of a run.
// Kept: two arrays for the lines, since `report::feed` writes a line to each.
#[derive(Drop)]
struct Run {
    report: Report,
    work: [u8; ENTRY],
    broken: [u8; 1024],
    line: [u8; 1024],
}

impl Run {
    // One call, and its lines. Gives the bytes taken of the block, and breaks where the recording is refused or a line could not be written.
    fn show(&mut self, rt: &impl Print, block: &[u8]) -> ControlFlow<(), usize> {
        let shown = report::feed(
            self.report,
            &mut self.work,
            block,
            &mut self.broken,
            &mut self.line,
        );
        self.report = shown.report;
        let _ = print(rt, &self.broken, shown.broken);
        let is_written = print(rt, &self.line, shown.line).is_ok();
        if !is_written || self.report.walk.number != 0 {
            return ControlFlow::Break(());
        }
        ControlFlow::Continue(shown.taken)
    }

    // Hands a block over until all of it is taken. Each call takes a byte at least, so there are no more calls than bytes.
    fn hand_over(&mut self, rt: &impl Print, block: &[u8]) -> ControlFlow<()> {
        let mut left = block;
        for _ in 0..block.len() {
            let taken = self.show(rt, left)?;
            if taken == 0 {
                break;
            }
            left = left.get(taken..).unwrap_or(&[]);
        }
        ControlFlow::Continue(())
    }

    // Reads blocks and hands them over, up to the end of the recording. A proved loop has to end, and nothing says that the input does: so the
    // loop has a number of turns that no run uses up.
    fn read_all(&mut self, rt: &impl Print, input: &mut impl Read) -> io::Result<()> {
        let mut block = [0u8; BLOCK];
        for _ in 0..u64::MAX {
            let count = input.read(&mut block)?;
            if count == 0 || self.hand_over(rt, &block[..count]).is_break() {
                break;
            }
        }
        Ok(())
    }
}

fn print_end(rt: &impl Print, report: Report) {
    let mut summary = [0u8; 1024];
    let mut refusal = [0u8; 1024];
    let closed = report::end(report, &mut summary, &mut refusal);
    let _ = print(rt, &summary, closed.summary);
    let _ = print(rt, &refusal, closed.refusal);
}

fn refuse(rt: &impl Eprint, name: &str, reason: &str) {
    let _ = eprintln!(rt; "inspect cannot read {name}: {reason}");
}

// The system's reason, without the number that std puts behind it.
fn fail(rt: &(impl Eprint + Alloc), name: &str, e: io::Error) {
    let Ok(text) = format!(in rt.alloc(); "{e}") else {
        refuse(rt, name, "out of memory");
        return;
    };
    match text.split_once(" (os error ") {
        Some((reason, _)) => refuse(rt, name, reason),
        None => refuse(rt, name, &text),
    }
}

// The first byte by itself: the version.
fn begin(input: &mut impl Read) -> io::Result<Report> {
    let mut first = [0u8; 1];
    let count = input.read(&mut first)?;
    Ok(report::begin(&first[..count]))
}

// A recording read to its end, or as far as it is not refused.
fn read_through(rt: &impl Print, input: &mut impl Read) -> io::Result<Report> {
    let mut run = Run {
        report: begin(input)?,
        work: [0u8; ENTRY],
        broken: [0u8; 1024],
        line: [0u8; 1024],
    };
    if run.report.walk.number == 0 {
        run.read_all(rt, input)?;
    }
    Ok(run.report)
}

fn inspect(rt: &(impl Print + Eprint + Alloc), input: &mut impl Read, name: &str) {
    match read_through(rt, input) {
        Ok(report) => print_end(rt, report),
        Err(e) => fail(rt, name, e),
    }
}

fn inspect_file(rt: &(impl Print + Eprint + Alloc + Files), path: &[u8]) {
    let Ok(name) = str::from_utf8(path) else {
        refuse(rt, "its argument", "it is not UTF-8");
        return;
    };
    match File::open(rt, name) {
        Ok(mut file) => inspect(rt, &mut file, name),
        Err(e) => fail(rt, name, e),
    }
}

fn main(rt: HostRuntime) {
    let mut path = [0u8; 4096];
    match rt.arg(1, &mut path) {
        Ok(n) => inspect_file(&rt, &path[..n]),
        Err(FillError::TooLong) => refuse(&rt, "its argument", "File name too long"),
        Err(FillError::NotPresent) => inspect(&rt, &mut rt.stdin(), "standard input"),
    }
}
