// An input read to the front of a lent slice, for the programs.
#![tactic(auto)]

ghost use Rattle.std.specs.Prelude.{◌≡◌, ◌≤◌, length};

use std::io::Read;

// Reads until the slice is full, the input ends or a read fails. Answers how many bytes stand at its front.
// Kept: a `while`. `read_exact` says nothing of how many bytes came before the end, and no iterator lends the rest of a slice.
pub fn read_full(input: &mut impl Read, into: &mut [u8]) -> usize
    ensures count { result ≤ length into.new }
    ensures room { length into.new ≡ length into.old }
{
    let mut done = 0;
    while done < into.len() {
        let Ok(n) = input.read(&mut into[done..]) else {
            break;
        };
        if n == 0 {
            break;
        }
        done += n;
    }
    done
}
