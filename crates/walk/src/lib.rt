// A recording of any length walked as its bytes come in (01, "Clock and recordings"): the caller reads blocks of whatever length and hands
// them over, and each call says how many bytes it took and whether a packet is whole. The limits of the blocks make no difference
// (proofs/Blocks.antt).
#![tactic(auto)]

ghost use Rattle.std.specs.Prelude.{◌≡◌, ◌≤◌, min, length};
ghost use Rattle.moves.specs.Moves.{placed};
ghost use Rattle.recording.specs.Recording.{step_for};
ghost use Rattle.refusal.specs.Refusal.{number_of};
ghost use Rattle.walk.specs.Entries.{entry_need};
ghost use Rattle.walk.specs.State.{fed_in};
ghost use Rattle.walk.specs.Walk.{begun_for, met_by, fed_by, taken_for, grown_for, fed_for, work_for, packet_at, ended_for};

use refusal::Refusal;

// `number`: the refusal met, 0 while there is none. `at`: the offset in the file of the entry begun, modulo 2^64. `have`: how many of its
// bytes stand at the front of the work buffer. Once refused a walk takes no more.
// Kept: `number`, since `feed` and `end` take every number (fed_for, ended_for): a narrower type would ask more of callers.
// Kept: a count beside the work buffer, since that is lent for each call (no heap, and `work_for` speaks of it at its fixed length).
#[derive(Clone, Copy)]
pub struct Walk {
    pub number: u32,
    pub at: u64,
    pub have: usize,
}

// `taken`: bytes of the block; the rest is handed over again. `packet`: where an entry is complete, the size of its packet, which begins at
// index 4 of the work buffer.
#[derive(Clone, Copy)]
pub struct Fed {
    pub walk: Walk,
    pub taken: usize,
    pub packet: Option<usize>,
}

// The end of the walk: the number and place of a refusal, or 0.
// Kept: a number, since `end` gives that of the walk, whatever it is (ended_for): no Refusal has a number that is none of 01.
#[derive(Clone, Copy)]
pub struct Ended {
    pub number: u32,
    pub place: u64,
}

// Begins with the first byte of the file, or none where it has none.
pub fn begin(first: &[u8]) -> Walk
    ensures { result ≡ begun_for first.now }
{
    match recording::open(first) {
        Ok(at) => Walk {
            number: 0,
            at,
            have: 0,
        },
        Err(why) => Walk {
            number: why.number(),
            at: 0,
            have: 0,
        },
    }
}

// Takes the bytes of the block that are missing to the next thing to know: an entry's length, or its end.
pub fn feed(w: Walk, work: &mut [u8; 65532], block: &[u8]) -> Fed
    ensures answer { fed_in result ≡ fed_for w work.old block.now }
    ensures held { work.new ≡ work_for w work.old block.now }
{
    if w.number != 0 {
        return Fed {
            walk: w,
            taken: 0,
            packet: None,
        };
    }
    take_in(w, work, block)
}

// The packet of a whole entry; none where the buffer has not so many bytes.
pub fn packet(work: &[u8], size: usize) -> &[u8]
    ensures { result.now ≡ packet_at work.now size }
{
    if work.len() < 4 || work.len() - 4 < size {
        return &[];
    }
    &work[4..4 + size]
}

// No byte comes any more: bytes held are an entry that the end cuts.
#[tactic(auto, using(crate::proofs::Calls::end_refused, crate::proofs::Calls::end_cut, crate::proofs::Calls::end_well))]
pub fn end(w: Walk) -> Ended
    ensures { result ≡ ended_for w }
{
    if w.number != 0 {
        return Ended {
            number: w.number,
            place: 0,
        };
    }
    if w.have != 0 {
        return Ended {
            number: Refusal::CutOff.number(),
            place: w.at,
        };
    }
    Ended {
        number: 0,
        place: 0,
    }
}

fn take_in(w: Walk, work: &mut [u8], block: &[u8]) -> Fed
    requires { length work.old ≡ 65532 }
    ensures answer { fed_in result ≡ fed_by (step_for (grown_for w work.old block.now) 0) w.at (length (grown_for w work.old block.now)) (length (taken_for w work.old block.now)) }
    ensures held { work.new ≡ placed work.old (min w.have 65532) (taken_for w work.old block.now) }
{
    let have = w.have.min(65532);
    let need = wanted(&work[..have]);
    let n = cutting::gather(work, have, need, block);
    let end = have + n;
    judge(w.at, &work[..end], n)
}

// How many bytes an entry has to have before more can be said of it.
#[tactic(auto, using(crate::proofs::Calls::wanted_4, crate::proofs::Calls::wanted_rest))]
fn wanted(held: &[u8]) -> usize
    ensures { (result ≡ entry_need held.now) × (result ≤ 65532) }
{
    if held.len() < 4 {
        return 4;
    }
    let length = fields::read32(held, 0) as usize;
    4 + length.min(65528)
}

// By what stands at the front of the bytes held, as if they were all: an entry that they cut has more to come.
fn judge(at: u64, held: &[u8], taken: usize) -> Fed
    ensures { fed_in result ≡ fed_by (step_for held.now 0) at (length held.now) taken }
{
    let have = held.len();
    match recording::next(held, 0) {
        Ok(Some(entry)) => Fed {
            walk: Walk {
                number: 0,
                at: at.wrapping_add(entry.next),
                have: 0,
            },
            taken,
            packet: Some(entry.length as usize),
        },
        Ok(None) => Fed {
            walk: Walk {
                number: 0,
                at,
                have,
            },
            taken,
            packet: None,
        },
        Err(refused) => Fed {
            walk: Walk {
                number: met(refused.why),
                at,
                have,
            },
            taken,
            packet: None,
        },
    }
}

#[tactic(auto, using(crate::proofs::Calls::met_cut_off, crate::proofs::Calls::met_other))]
fn met(why: Refusal) -> u32
    ensures { result ≡ met_by (number_of why) }
{
    match why {
        Refusal::CutOff => 0,
        other => other.number(),
    }
}
