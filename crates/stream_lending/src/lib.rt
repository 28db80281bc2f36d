// The receiver's step by its outer call. A program that holds the record as a value runs `receiver::step_in` by this function.
#![tactic(auto)]

ghost use Rattle.std.specs.Prelude.{◌≡◌, length};
ghost use Rattle.receiver.specs.Receiver.{buffer_for};
ghost use Rattle.receiver.specs.Dropped.{told_for, reported, report_for};
ghost use Rattle.receiver.specs.Answer.{answer_of, told_of};

use receiver::{Receiver, Told};

// One packet, as `Receiver::step` has it: the record is lent to the outer call, and given back as that call left it.
pub fn step_lent(r: Receiver, p: usize, buffer: &mut [u8], packet: &[u8]) -> Told
    ensures answer { told_of result ≡ told_for p r packet.now (length buffer.old) }
    ensures values { reported (answer_of result.answer) result.dropped ≡ report_for p r packet.now (length buffer.old) }
    ensures memory { buffer.new ≡ buffer_for p r packet.now buffer.old }
{
    let mut own = r;
    let heard = receiver::step_in(&mut own, p, buffer, packet);
    Told {
        answer: heard.answer,
        dropped: heard.dropped,
        next: own,
    }
}
