// The calls of the C host (01, "The C host calls dispersal and the packet check directly, on numbers and bytes"), and those by which it
// runs the shared stream itself: state, settings and answers as structs by value, stores and frames lent as pointer and length. Each has
// the library's own promise; nothing is decided here. The C side is host/keshgurvat.h.
#![tactic(auto)]

ghost use Rattle.std.specs.Prelude.{◌≡◌, length};
ghost use Rattle.dispersal.specs.Dispersal.{number_for, output_for};
ghost use Rattle.packet.specs.Calls.{check_for};
ghost use Rattle.hand.specs.Settings.{settings_for};
ghost use Rattle.receiver.specs.Answer.{answer_of};
ghost use Rattle.receiver.specs.Receiver.{buffer_for};
ghost use Rattle.receiver.specs.Dropped.{report_for};
ghost use Rattle.sender.specs.Rings.{fresh_rings, ring_load_for, ring_store_for, ring_frame_for, ring_frame_out};
ghost use Rattle.host.specs.Received.{unheard, received_by, received_for, said};

use hand::Settings;
use receiver::{Receiver, Told};
use refusal::Refusal;
use sender::{Framed, Loaded, Sender};

// What a packet brought: the number; whether a unit is complete, its id and length, all 0 where none is; the bytes of an open unit that were
// dropped (02, E5); and the record after the call.
// Kept: numbers and a flag, here and in the calls below, since C has no enum with fields (host/keshgurvat.h).
#[repr(C)]
#[derive(Clone, Copy)]
pub struct Received {
    pub number: u32,
    pub delivered: bool,
    pub id: u8,
    pub length: usize,
    pub dropped: usize,
    pub next: Receiver,
}

#[unsafe(no_mangle)]
pub extern "C" fn keshgurvat_disperse(input: &[u8], output: &mut [u8]) -> u32
    ensures answer { result ≡ number_for input.now output.old }
    ensures memory { output.new ≡ output_for input.now output.old }
{
    refusal::number(dispersal::disperse(input, output))
}

#[unsafe(no_mangle)]
pub extern "C" fn keshgurvat_packet_check(p: usize, packet: &[u8]) -> u32
    ensures { result ≡ check_for p packet.now }
{
    refusal::number(packet::check(p, packet))
}

#[unsafe(no_mangle)]
pub extern "C" fn keshgurvat_settings_check(settings: Settings) -> u32
    ensures { result ≡ settings_for settings }
{
    refusal::number(settings.check())
}

#[unsafe(no_mangle)]
pub extern "C" fn keshgurvat_sender_fresh() -> Sender
    ensures { result ≡ fresh_rings }
{
    Sender::fresh()
}

#[unsafe(no_mangle)]
pub extern "C" fn keshgurvat_load(
    state: Sender,
    settings: Settings,
    store: &mut [u8],
    id: usize,
    unit: &[u8],
) -> Loaded
    ensures answer { result ≡ ring_load_for settings state id unit.now store.old }
    ensures memory { store.new ≡ ring_store_for settings state id unit.now store.old }
{
    state.load(settings, store, id, unit)
}

#[unsafe(no_mangle)]
pub extern "C" fn keshgurvat_frame(
    state: Sender,
    settings: Settings,
    store: &[u8],
    out: &mut [u8],
) -> Framed
    ensures answer { result ≡ ring_frame_for settings state store.now out.old }
    ensures written { out.new ≡ ring_frame_out settings state store.now out.old }
{
    state.frame(settings, store, out)
}

#[unsafe(no_mangle)]
pub extern "C" fn keshgurvat_receiver_fresh() -> Receiver
    ensures { result ≡ unheard }
{
    Receiver::fresh()
}

// The answer in numbers, since an enum cannot cross to C.
impl From<Told> for Received {
    ghost from_gives = { λ told received. received ≡ received_by (answer_of told.answer) told.dropped told.next };

    fn from(told: Told) -> Received {
        let none = Received {
            number: 0,
            delivered: false,
            id: 0,
            length: 0,
            dropped: told.dropped,
            next: told.next,
        };
        match told.answer {
            Ok(None) => none,
            Ok(Some(unit)) => Received {
                delivered: true,
                id: unit.id,
                length: unit.length,
                ..none
            },
            Err(why) => Received {
                number: why.number(),
                ..none
            },
        }
    }
}

#[unsafe(no_mangle)]
pub extern "C" fn keshgurvat_receive(
    state: Receiver,
    p: usize,
    buffer: &mut [u8],
    packet: &[u8],
) -> Received
    ensures answer { result ≡ received_for p state packet.now (length buffer.old) }
    ensures values { said result ≡ report_for p state packet.now (length buffer.old) }
    ensures memory { buffer.new ≡ buffer_for p state packet.now buffer.old }
{
    let told = state.step(p, buffer, packet);
    Received::from(told)
}
