// The refusals of 01 ("Numbers given back"): why a call did nothing.
#![tactic(auto)]

ghost use Rattle.std.specs.Prelude.{◌≡◌};
ghost use Rattle.refusal.specs.Refusal.{number_in};

// A case a line of 01's table, with its number.
#[derive(Clone, Copy, PartialEq, Eq)]
pub enum Refusal {
    // an input over 65,528 bytes, an output too short, a capacity outside its range, another length than required
    Size = 1,
    // an item or an entry runs past the end
    CutOff = 2,
    // a name stands twice
    Repeated = 3,
    // a required item is missing
    Missing = 4,
    // a known item has a length that is not in the table
    ItemLength = 5,
    // a value that is not allowed, or a field too large for its bits
    BadValue = 6,
    FacCrc = 7,
    SdcCrc = 8,
    NotServed = 9,
    // a description that is not well formed
    IllFormed = 10,
    // a stream of another length than the description says
    StreamLength = 11,
    // streams that exceed the capacity
    OverCapacity = 12,
    BadSettings = 13,
    // a unit that is empty or too long, or an id over 2
    BadUnit = 14,
    // no room in the unit's queue
    NoRoom = 15,
    // a packet's check word, or its count over p - 1
    PacketCrc = 16,
    // one of the faults of a state that is handed in
    BadState = 17,
    // a timestamp without a successor in 40 bits
    NoSuccessor = 18,
}

impl Refusal {
    ghost use Rattle.refusal.specs.Refusal.{number_of};

    // 01's number.
    pub fn number(self) -> u32
        ensures { result ≡ number_of self }
    {
        self as u32
    }
}

// 01's number of an answer, for callers in C.
pub fn number(answer: Result<(), Refusal>) -> u32
    ensures { result ≡ number_in answer }
{
    match answer {
        Ok(()) => 0,
        Err(why) => why.number(),
    }
}

// A refusal with 01's place: an offset in the input for 2 and 3, else 0.
#[derive(Clone, Copy, PartialEq, Eq)]
pub struct Refused {
    pub why: Refusal,
    pub place: u64,
}

// Of every refusal but 2 and 3 the place is 0.
impl From<Refusal> for Refused {
    ghost from_gives = { λ why refused. refused ≡ record { why = why; place = 0 } };

    fn from(why: Refusal) -> Refused {
        Refused { why, place: 0 }
    }
}
