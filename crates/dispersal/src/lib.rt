// Energy dispersal (01, "Dispersal"; 000, 7.2.2): data from an input to an output buffer, XORed with the dispersal bytes, which are worked out
// from the register while going along.
#![tactic(auto)]

ghost use Rattle.std.specs.Prelude.{◌≡◌, ◌/◌, ◌%◌};
ghost use Rattle.refusal.specs.Refusal.{number_in};
ghost use Rattle.dispersal.specs.Dispersal.{push, next, number_for, output_for};

use refusal::Refusal;

// The last bits of the sequence, with eight more behind them. The newest stands lowest: the low nine are the register, the nine above them
// those that left it last. Each bit is the sum modulo 2 of those 5 and 9 places before it, and so of those 10 and 18 places before it
// (x^9+x^5+1 squared is x^18+x^10+1): none of the eight needs another of them. What stands above the eighteen is of no use, and falls
// out at the top.
fn eight_more(bits: u32) -> u32
    requires { bits % 512 ≡ push (next (bits / 512 % 512)) }
    ensures register { result % 512 ≡ next (bits % 512) }
    ensures above { result % 512 ≡ push (next (result / 512 % 512)) }
{
    (bits << 8) + ((bits >> 2) ^ (bits >> 10)) % 256
}

// Writes the input, dispersed, to the front of the output. Refused: an input over 65,528 bytes, an output shorter than the input.
pub fn disperse(input: &[u8], output: &mut [u8]) -> Result<(), Refusal>
    ensures answer { number_in result ≡ number_for input.now output.old }
    ensures memory { output.new ≡ output_for input.now output.old }
{
    if 65528 < input.len() || output.len() < input.len() {
        return Err(Refusal::Size);
    }
    // Nine ones, and above them the nine bits that the rule, read backwards, gives before them: 011110000.
    let mut bits: u32 = 0x1e1ff;
    // Kept: the output goes by its index: std promises nothing of the bytes behind an adapter of iter_mut, so `memory` would not follow.
    for (i, byte) in input.iter().enumerate() {
        let more = eight_more(bits);
        output[i] = byte ^ (more % 256) as u8;
        bits = more;
    }
    Ok(())
}
