// The check words of ETSI ES 201 980 (000), annex D.
#![tactic(auto)]

ghost use Rattle.std.specs.Prelude.{◌≡◌, ℕ, ◌*◌, ◌-◌, ◌^◌, ◌<◌};
ghost use Rattle.std.specs.Int.Bits.{bit_xor};
ghost use Rattle.crc.specs.Crc.{crc_of, shift, feed, bits_of};
ghost use Rattle.crc.specs.Register.{Register, register8, register16};

// CRC-8, x^8 + x^4 + x^3 + x^2 + 1.
pub fn crc8(s: &[u8]) -> u8
    ensures { result ≡ crc_of 8 0x1d s.now }
{
    check_word(s)
}

// CRC-16, x^16 + x^12 + x^5 + 1.
pub fn crc16(s: &[u8]) -> u16
    ensures { result ≡ crc_of 16 0x1021 s.now }
{
    check_word(s)
}

// A register of the check, in the number type that has just its bits. The polynomial stands in `turn`, with the top bit before it.
trait Word: Copy {
    ghost value: { Self → ℕ };

    ghost width: { ℕ };

    ghost poly: { ℕ };

    // What it starts with.
    fn ones() -> Self
        ensures { value result ≡ 2 ^ width - 1 };

    fn inverted(self) -> Self
        ensures { value result ≡ 2 ^ width - 1 - value self };

    // The byte added in the top eight places.
    fn plus(self, b: u8) -> Self
        ensures sum { value result ≡ bit_xor (value self) (b * 2 ^ (width - 8)) }
        ensures fits { value self < 2 ^ width };

    // A turn with no data.
    fn turn(self) -> Self
        ensures { value result ≡ shift width poly (value self) 0 };

    ghost sound: { Register width poly };
}

impl Word for u8 {
    ghost value = { λ x. x };

    ghost width = { 8 };

    ghost poly = { 0x1d };

    ghost sound = { register8 };

    fn ones() -> u8 {
        u8::MAX
    }

    fn inverted(self) -> u8 {
        !self
    }

    fn plus(self, b: u8) -> u8 {
        self ^ b
    }

    fn turn(self) -> u8 {
        if 0x80 <= self {
            (self << 1) ^ 0x1d
        } else {
            self << 1
        }
    }
}

impl Word for u16 {
    ghost value = { λ x. x };

    ghost width = { 16 };

    ghost poly = { 0x1021 };

    ghost sound = { register16 };

    fn ones() -> u16 {
        u16::MAX
    }

    fn inverted(self) -> u16 {
        !self
    }

    fn plus(self, b: u8) -> u16 {
        self ^ ((b as u16) << 8)
    }

    fn turn(self) -> u16 {
        if 0x8000 <= self {
            (self << 1) ^ 0x1021
        } else {
            self << 1
        }
    }
}

fn check_word<W: Word>(s: &[u8]) -> W
    ensures { W.value result ≡ crc_of W.width W.poly s.now }
{
    let mut crc = W::ones();
    for &b in s {
        crc = step(crc, b);
    }
    crc.inverted()
}

// The register after one byte: the byte is added at the top, and eight turns with no data follow. A loop of eight turns of just
// this form is known to the compiler, which makes it a lookup in a table of 256 entries.
fn step<W: Word>(crc: W, b: u8) -> W
    ensures { W.value result ≡ feed W.width W.poly (W.value crc) (bits_of b) }
{
    let mut c = crc.plus(b);
    for k in 0u8..8 {
        c = c.turn();
    }
    c
}
