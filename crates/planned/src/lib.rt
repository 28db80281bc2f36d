// The sender's calls by a record of settings with a second set (02, E10): a frame names its count, is filled by the set in force at it, and
// gives the record back. Behind the check of the whole record each is the sender's own call.
#![tactic(auto)]

ghost use Rattle.std.specs.Prelude.{◌≡◌, eqb};
ghost use Rattle.laws.specs.Pick.{pick};
ghost use Rattle.planned.specs.Planned.{plan_load_for, plan_store_for, plan_frame_for, plan_frame_out};

use hand::Three;
use plans::Plans;
use sender::{Loaded, Sender};

// The sender's answer to a frame, and the record of settings after it.
// Kept: number and values side by side; it is the sender's Framed with the record added, and a Result would be unpacked from that and packed again.
#[repr(C)]
#[derive(Clone, Copy)]
pub struct Framed {
    pub number: u32,
    pub next: Sender,
    pub packets: Three,
    pub spares: usize,
    pub filler: usize,
    pub settings: Plans,
}

// The record after a frame with this number: a refused one takes nothing over.
fn kept(number: u32, then: Plans, was: Plans) -> Plans
    ensures { result ≡ pick (eqb number 0) then was }
{
    match number {
        0 => then,
        _ => was,
    }
}

// A unit enters queue id, or is refused and nothing changes. Refused with 13: the record, the set that waits included. Then as the sender's
// load by the first set, with 17, 1, 14, 15. A load takes nothing over.
pub fn load(sender: Sender, settings: Plans, store: &mut [u8], id: usize, unit: &[u8]) -> Loaded
    ensures answer { result ≡ plan_load_for settings sender id unit.now store.old }
    ensures memory { store.new ≡ plan_store_for settings sender id unit.now store.old }
{
    match settings.check() {
        Ok(()) => sender.load(settings.now, store, id, unit),
        Err(why) => Loaded {
            number: why.number(),
            next: sender,
        },
    }
}

// The frame with this count, by the set then in force, and the record after it. Refused with 13: the record, the set that waits included.
// Then as the sender's frame by that set, with 17, 1 for the store, 1 for an output under its N (p + 3) bytes. A refused one takes nothing over.
pub fn frame(sender: Sender, settings: Plans, count: u32, store: &[u8], out: &mut [u8]) -> Framed
    ensures answer { result ≡ plan_frame_for settings count sender store.now out.old }
    ensures written { out.new ≡ plan_frame_out settings count sender store.now out.old }
{
    if let Err(why) = settings.check() {
        return Framed {
            number: why.number(),
            next: sender,
            packets: Three { a: 0, b: 0, c: 0 },
            spares: 0,
            filler: 0,
            settings,
        };
    }
    let then = settings.in_force(count);
    let sent = sender.frame(then.now, store, out);
    Framed {
        number: sent.number,
        next: sent.next,
        packets: sent.packets,
        spares: sent.spares,
        filler: sent.filler,
        settings: kept(sent.number, then, settings),
    }
}
