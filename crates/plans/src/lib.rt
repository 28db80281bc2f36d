// The settings of a shared stream with a second set of N, shares and ceilings that waits for its frame count (02, E10): which set fills a
// frame, and how another one is entered. p is the record's, for both sets.
#![tactic(auto)]

ghost use Rattle.std.specs.Prelude.{◌≡◌};
ghost use Rattle.refusal.specs.Refusal.{number_in};
ghost use Rattle.hand.specs.Hand.{handed_in};
ghost use Rattle.plans.specs.Plans.{alone, set_with, second_of, plans_for, in_force, changed_in, change_for, plan_hand_for};

use hand::{Handed, Settings, Three};
use refusal::Refusal;

// Whether a set waits; the frame count at which it takes over; its N, shares and ceilings. Where none waits the rest is not looked at.
// Kept: a flag beside the values and no Option, since `plan_tests` and the edit seen_though_none speak of what stands beside a false flag.
#[repr(C)]
#[derive(Clone, Copy, PartialEq, Eq, Default)]
pub struct Second {
    pub waits: bool,
    pub count: u32,
    pub n: usize,
    pub share: Three,
    pub ceiling: Three,
}

// The first set, with p, and the second set.
#[repr(C)]
#[derive(Clone, Copy, PartialEq, Eq, Default)]
pub struct Plans {
    pub now: Settings,
    pub second: Second,
}

impl Plans {
    // These settings, and no second set.
    pub fn of(settings: Settings) -> Plans
        ensures { result ≡ alone settings }
    {
        Plans {
            now: settings,
            second: Second::default(),
        }
    }

    // A set as settings, with the record's p.
    fn set_with(self, n: usize, share: Three, ceiling: Three) -> Settings
        ensures { result ≡ set_with self n share ceiling }
    {
        Settings {
            p: self.now.p,
            n,
            share,
            ceiling,
        }
    }

    // The second set as settings.
    fn second_set(self) -> Settings
        ensures { result ≡ second_of self }
    {
        let t = self.second;
        self.set_with(t.n, t.share, t.ceiling)
    }

    // Refused with 13: the first set, or one that waits, outside 01's limits.
    pub fn check(self) -> Result<(), Refusal>
        ensures { number_in result ≡ plans_for self }
    {
        self.now.check()?;
        if self.second.waits {
            let second = self.second_set();
            second.check()?;
        }
        Ok(())
    }

    // The record at the frame with this count: where a set waits for it, that set is the one in force, and none waits. Counts are compared
    // for equality only, so that FFFFFFFF, 0 needs nothing.
    pub fn in_force(self, count: u32) -> Plans
        ensures { result ≡ in_force count self }
    {
        if self.second.waits && self.second.count == count {
            Plans::of(self.second_set())
        } else {
            self
        }
    }

    // What the frame with this count hands out where these packets wait. Refused with 13: the record, as above.
    pub fn hand_out(self, count: u32, waiting: Three, turn: usize) -> Result<Handed, Refusal>
        ensures { handed_in result ≡ plan_hand_for self count waiting turn }
    {
        self.check()?; // of both sets
        let then = self.in_force(count);
        then.now.hand_out(waiting, turn)
    }

    // A set waits for its count, in place of one that waited before; or it is refused and nothing changes. Refused with 13: this record, or
    // the set with the record's p, outside 01's limits.
    pub fn change(
        self,
        count: u32,
        n: usize,
        share: Three,
        ceiling: Three,
    ) -> Result<Plans, Refusal>
        ensures { changed_in self result ≡ change_for self count n share ceiling }
    {
        self.check()?;
        let set = self.set_with(n, share, ceiling);
        set.check()?;
        let second = Second {
            waits: true,
            count,
            n,
            share,
            ceiling,
        };
        Ok(Plans { second, ..self })
    }
}
