// The settings of a shared stream, and how many packets of a frame each of its three queues gets (01, "Packets, queues and
// receiver"): its share first, then spares one at a time.
#![tactic(auto)]

ghost use Rattle.std.specs.Prelude.{true, ◌≡◌, ◌+◌, ◌≤◌, ◌<◌, ◌^◌};
ghost use Rattle.refusal.specs.Refusal.{number_in};
ghost use Rattle.hand.specs.Settings.{at, total, unfit, settings_for};
ghost use Rattle.hand.specs.Hand.{low, bump, free, give, give_one, spread, plan_for, hand_for, handed_in};

use refusal::Refusal;

// One number for each queue, by its id: 0, 1, 2.
#[repr(C)]
#[derive(Clone, Copy, PartialEq, Eq, Default)]
pub struct Three {
    pub a: usize,
    pub b: usize,
    pub c: usize,
}

// p data bytes a packet, n packets a frame, and a share and a ceiling for each queue.
#[repr(C)]
#[derive(Clone, Copy, PartialEq, Eq, Default)]
pub struct Settings {
    pub p: usize,
    pub n: usize,
    pub share: Three,
    pub ceiling: Three,
}

// What is handed out so far, and whose turn it is.
#[derive(Clone, Copy, PartialEq, Eq, Default)]
pub struct Plan {
    pub packets: Three,
    pub turn: usize,
}

// The packets of a frame for each queue, the spares among them, the filler, and the turn after it.
#[derive(Clone, Copy, PartialEq, Eq, Default)]
pub struct Handed {
    pub packets: Three,
    pub spares: usize,
    pub filler: usize,
    pub turn: usize,
}

// Whether a queue's share and ceiling are outside the limits.
#[tactic(auto, unfolding(crate::specs::Settings::unfit))]
fn is_unfit(n: usize, share: usize, ceiling: usize) -> bool
    ensures { result ≡ unfit n share ceiling }
{
    ceiling < share || ceiling == 0 || n < ceiling
}

impl Three {
    // The number of queue i.
    fn at(self, i: usize) -> usize
        ensures { result ≡ at self i }
    {
        match i {
            0 => self.a,
            1 => self.b,
            _ => self.c,
        }
    }

    // The smaller of two numbers for each queue.
    fn low(self, o: Three) -> Three
        ensures { result ≡ low self o }
    {
        Three {
            a: self.a.min(o.a),
            b: self.b.min(o.b),
            c: self.c.min(o.c),
        }
    }

    // One more for queue i.
    fn bump(self, i: usize) -> Three
        requires { at self i + 1 < 2 ^ 64 }
        ensures { result ≡ bump self i }
    {
        match i {
            0 => Three {
                a: self.a + 1,
                ..self
            },
            1 => Three {
                b: self.b + 1,
                ..self
            },
            _ => Three {
                c: self.c + 1,
                ..self
            },
        }
    }

    fn sum(self) -> usize
        requires { total self < 2 ^ 64 }
        ensures { result ≡ total self }
    {
        self.a + self.b + self.c
    }
}

impl Plan {
    // Queue i is below its cap.
    #[tactic(auto, unfolding(crate::specs::Hand::free))]
    fn is_free(self, cap: Three, i: usize) -> bool
        ensures { result ≡ free cap self i }
    {
        self.packets.at(i) < cap.at(i)
    }

    // Queue i gets a packet, and the turn is the next one's.
    #[tactic(auto, unfolding(crate::specs::Hand::give, crate::specs::Hand::free), using(crate::proofs::Ways::free_room))]
    fn give(self, cap: Three, i: usize) -> Plan
        requires { (i < 3) × (free cap self i ≡ true) }
        ensures { result ≡ give self i }
    {
        Plan {
            packets: self.packets.bump(i),
            turn: (i + 1) % 3,
        }
    }

    // One spare, to the first queue from the turn that is below its cap; the plan itself where none is.
    #[tactic(auto, using(crate::proofs::Ways::one_i, crate::proofs::Ways::one_j, crate::proofs::Ways::one_k, crate::proofs::Ways::one_none))]
    fn give_one(self, cap: Three) -> Plan
        ensures { result ≡ give_one cap self }
    {
        let i = self.turn % 3;
        let j = (i + 1) % 3;
        let k = (i + 2) % 3;
        if self.is_free(cap, i) {
            self.give(cap, i)
        } else if self.is_free(cap, j) {
            self.give(cap, j)
        } else if self.is_free(cap, k) {
            self.give(cap, k)
        } else {
            self
        }
    }

    #[tactic(auto, using(crate::proofs::Steps::spread_none, crate::proofs::Ways::spread_more))]
    fn give_all(self, room: usize, cap: Three) -> Plan
        ensures { result ≡ spread room cap self }
    {
        let mut given = self;
        for _ in 0..room {
            given = given.give_one(cap);
        }
        given
    }
}

impl Settings {
    // Refused with 13: settings outside the limits.
    #[tactic(auto, unfolding(crate::specs::Settings::settings_for, crate::specs::Settings::settings_tests))]
    pub fn check(self) -> Result<(), Refusal>
        ensures { number_in result ≡ settings_for self }
    {
        let Settings {
            p,
            n,
            share,
            ceiling,
        } = self;
        // n (p + 3) is formed nowhere: it might not fit.
        if p == 0
            || 255 < p
            || n == 0
            || 8190 / (p + 3) < n
            || is_unfit(n, share.a, ceiling.a)
            || is_unfit(n, share.b, ceiling.b)
            || is_unfit(n, share.c, ceiling.c)
            || n < share.sum()
        {
            return Err(Refusal::BadSettings);
        }
        Ok(())
    }

    // A frame of these settings, whose shares leave room for spares.
    fn plan(self, waiting: Three, turn: usize) -> Plan
        requires { total self.share ≤ self.n }
        ensures { result ≡ plan_for self waiting turn }
    {
        let g = self.share.low(waiting);
        let room = self.n - g.sum();
        Plan { packets: g, turn }.give_all(room, waiting.low(self.ceiling))
    }

    // What a frame hands out where these packets wait. Refused with 13: settings outside the limits.
    pub fn hand_out(self, waiting: Three, turn: usize) -> Result<Handed, Refusal>
        ensures { handed_in result ≡ hand_for self waiting turn }
    {
        self.check()?;
        let met = self.share.low(waiting);
        let g = self.plan(waiting, turn);
        let sum = g.packets.sum();
        Ok(Handed {
            packets: g.packets,
            spares: sum - met.sum(),
            filler: self.n - sum,
            turn: g.turn,
        })
    }
}
