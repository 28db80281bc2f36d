// One queue of units (01, "Packets, queues and receiver"): its state by value, in numbers. The bytes themselves stand in the lent store.
#![tactic(auto)]

ghost use Rattle.std.specs.Prelude.{◌≡◌, false, ◌%◌, ◌≤◌, min};
ghost use Rattle.queue.specs.Queue.{packets, units, unsent, any_empty, broken, no_units, pushed};
ghost use Rattle.queue.specs.Stored.{wrong};
ghost use Rattle.queue.specs.Taken.{head_len, drop_first, pop_for};

// Up to eight units that are not finished, in the order of loading: the bytes left of each, and how many bytes of the first are sent.
#[repr(C)]
#[derive(Clone, Copy)]
pub struct Queue {
    pub left: [u16; 8],
    pub count: usize,
    pub sent: usize,
}

fn packets_of(p: u8, x: usize) -> usize
    requires { x ≤ 65535 }
    ensures { (result ≡ packets p x) × (result ≤ x) }
{
    if p == 0 {
        0
    } else {
        x.div_ceil(usize::from(p))
    }
}

// The packets of p data bytes that x bytes take.
pub fn packets(p: u8, x: u16) -> u16
    ensures { (result ≡ packets p x) × (result ≤ x) }
{
    packets_of(p, usize::from(x)) as u16
}

impl Queue {
    // No unit.
    pub fn fresh() -> Queue
        ensures { result ≡ no_units }
    {
        Queue {
            left: [0; 8],
            count: 0,
            sent: 0,
        }
    }

    // The places of `left` that count, also where the count is wrong.
    fn used(self) -> usize
        ensures { (result ≡ min self.count 8) × (result ≤ 8) }
    {
        self.count.min(8)
    }

    // The bytes not yet sent.
    pub fn unsent(self) -> usize
        ensures { (result ≡ unsent self) × (result ≤ 524280) }
    {
        let units = &self.left[..self.used()];
        let mut bytes: usize = 0;
        for unit in units {
            bytes += usize::from(*unit);
        }
        bytes
    }

    // What is left of refusal 17 where there are at most eight units, none of them empty, and their bytes are added up.
    fn is_over(self, p: u8, bytes: usize) -> bool
        requires { (self.count ≤ 8) × (any_empty (units self) ≡ false) × (bytes ≡ unsent self) }
        ensures { result ≡ broken p self }
    {
        let sent = self.sent;
        // More sent than a unit can have is a fault with a first unit and without one, and from here on the sum fits.
        if 4096 < bytes || 4096 < sent || sent.checked_rem(usize::from(p)).unwrap_or(sent) != 0 {
            return true;
        }
        if self.count == 0 {
            return 0 < sent;
        }
        // The first unit's length is what is left and what is sent.
        4096 < usize::from(self.left[0]) + sent
    }

    // One of the faults of refusal 17, in one pass over the units.
    pub fn is_broken(self, p: u8) -> bool
        ensures { result ≡ broken p self }
    {
        let n = self.count;
        if 8 < n {
            return true;
        }
        let units = &self.left[..n];
        let mut unsent: usize = 0;
        for unit in units {
            if *unit == 0 {
                return true;
            }
            unsent += usize::from(*unit);
        }
        self.is_over(p, unsent)
    }

    // One of them, or a stored count that is not the sum of the packets that its units take; in one pass as well.
    pub fn is_wrong(self, p: u8, stored: u16) -> bool
        ensures { result ≡ wrong p self stored }
    {
        if 8 < self.count {
            return true;
        }
        let units = &self.left[..self.count];
        let mut unsent: usize = 0;
        let mut sum: usize = 0;
        for unit in units {
            let bytes = usize::from(*unit);
            if bytes == 0 {
                return true;
            }
            unsent += bytes;
            sum += packets_of(p, bytes);
        }
        usize::from(stored) != sum || self.is_over(p, unsent)
    }

    // One unit of n unsent more, where there are fewer than eight.
    pub fn pushed(self, n: u16) -> Queue
        ensures { result ≡ pushed self n }
    {
        if 8 <= self.count {
            return self;
        }
        let mut r = self;
        r.left[r.count] = n;
        r.count += 1;
        r
    }

    // The useful bytes of the next packet of p data bytes.
    pub fn head_len(self, p: usize) -> usize
        ensures { (result ≡ head_len p self) × (result ≤ p) × (result ≤ unsent self) }
    {
        if self.count == 0 {
            return 0;
        }
        usize::from(self.left[0]).min(p)
    }

    // The queue without its first unit.
    fn drop_first(self) -> Queue
        requires { 1 ≤ self.count }
        ensures { result ≡ drop_first self }
    {
        let [_, b, c, d, e, f, g, h] = self.left;
        Queue {
            left: [b, c, d, e, f, g, h, 0],
            count: self.count - 1,
            sent: 0,
        }
    }

    // The queue without its next packet of p data bytes. One with more bytes sent than a unit has stays as it is.
    pub fn pop(self, p: u16) -> Queue
        ensures { result ≡ pop_for p self }
    {
        if 4096 < self.sent || self.count == 0 {
            return self;
        }
        let x = self.left[0];
        if x <= p {
            return self.drop_first();
        }
        let mut r = self;
        r.left[0] = x - p;
        r.sent = self.sent + usize::from(p);
        r
    }
}
