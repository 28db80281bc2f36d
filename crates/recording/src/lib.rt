// The house's recording file (01, "Clock and recordings"): a version byte, then for each packet a 4-byte big-endian length and the packet.
// Offsets and places are 64 bits. No call reads a packet.
#![tactic(auto)]

ghost use Rattle.std.specs.Prelude.{◌≡◌, ◌+◌, ◌≤◌, length};
ghost use Rattle.laws.specs.Written.{written};
ghost use Rattle.recording.specs.Answers.{opened_in, step_in, grown_in};
ghost use Rattle.recording.specs.Recording.{opened_for, step_for, told, told_for, packet_for, started_for, start_output, grown_for, output_for};

use refusal::{Refusal, Refused};

const VERSION: u8 = 1;

// The offset of the first entry.
const FIRST: u64 = 1;

// The longest packet.
const LONGEST: usize = 65528;

// An entry: its packet is `length` bytes at `start`, and the next entry begins at `next`.
#[derive(Clone, Copy, PartialEq, Eq, Default)]
pub struct Entry {
    pub start: u64,
    pub length: u32,
    pub next: u64,
}

// Looks at the version byte alone, and gives the offset of the first entry. The place of a refusal is 0.
pub fn open(file: &[u8]) -> Result<u64, Refusal>
    ensures { opened_in result ≡ opened_for file.now }
{
    let Some(&version) = file.first() else {
        return Err(Refusal::CutOff);
    };
    if version != VERSION {
        return Err(Refusal::BadValue);
    }
    Ok(FIRST)
}

// The entry at the offset, none where the recording ends there. The version byte is not looked at.
pub fn next(file: &[u8], at: u64) -> Result<Option<Entry>, Refused>
    ensures answer { step_in result ≡ step_for file.now at }
    ensures values { told (step_in result) ≡ told_for file.now at }
{
    let end = file.len() as u64;
    if at == end {
        return Ok(None);
    }
    let cut_off = Refused {
        why: Refusal::CutOff,
        place: at,
    };
    if end < at || end - at < 4 {
        return Err(cut_off);
    }
    let length = fields::read32(file, at as usize);
    if LONGEST < length as usize {
        return Err(Refused {
            why: Refusal::Size,
            place: 0,
        });
    }
    let start = at + 4;
    if end - start < u64::from(length) {
        return Err(cut_off);
    }
    let next = start + u64::from(length);
    Ok(Some(Entry {
        start,
        length,
        next,
    }))
}

// The packet of the entry at the offset, as a part of the file: empty where `next` gives no entry.
pub fn packet<'a>(file: &'a [u8], at: u64) -> &'a [u8]
    ensures { result.now ≡ packet_for file.now at }
{
    match next(file, at) {
        Ok(Some(entry)) => &file[entry.start as usize..entry.next as usize],
        Ok(None) => &[],
        Err(_) => &[],
    }
}

// Begins a recording: the version byte goes to the front of the output. Gives the length of the recording: there the next entry goes.
pub fn start(out: &mut [u8]) -> Result<u64, Refusal>
    ensures answer { grown_in result ≡ started_for out.old }
    ensures memory { out.new ≡ start_output out.old }
{
    if out.is_empty() {
        return Err(Refusal::Size);
    }
    out[0] = VERSION;
    Ok(1)
}

// Writes the packet's entry at the offset, which is the length of the recording so far, and gives its length after that.
pub fn append(packet: &[u8], out: &mut [u8], at: u64) -> Result<u64, Refusal>
    ensures answer { grown_in result ≡ grown_for packet.now out.old at }
    ensures memory { out.new ≡ output_for packet.now out.old at }
{
    let size = packet.len();
    if LONGEST < size {
        return Err(Refusal::Size);
    }
    let need = 4 + size;
    let room = out.len();
    if room < need || ((room - need) as u64) < at {
        return Err(Refusal::Size);
    }
    let from = at as usize;
    fields::write32(out, from, size as u32);
    moves::copy(packet, out, from + 4);
    Ok(at + need as u64)
}
