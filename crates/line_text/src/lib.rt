// Texts put into a buffer one behind the other, for the programs `layout` and `inspect` (01, "The description and the frame it
// cuts"). Each call asks for room that its caller can tell beforehand; where that is not there, nothing is written and the answer is the
// offset itself.
#![tactic(auto)]

ghost use Rattle.std.specs.Prelude.{◌≡◌, ◌++◌, ◌+◌, ◌≤◌, leb, length, take};
ghost use Rattle.line_text.specs.Decimal.{decimal, number_line, pair_line};
ghost use Rattle.line_text.specs.Line.{Placed};

// Whether two words of these lengths and so many bytes more lie within the buffer from the offset on. Any of these may be any number, so a sum
// is formed only where it has room.
fn fits(out: &[u8], at: usize, first: usize, second: usize, more: usize) -> bool
    ensures { result ≡ leb (at + (first + second + more)) (length out.now) }
{
    at.checked_add(first)
        .and_then(|end| end.checked_add(second))
        .and_then(|end| end.checked_add(more))
        .is_some_and(|end| end <= out.len())
}

// A word, at the offset; the answer is the offset behind it.
pub fn word(text: &[u8], out: &mut [u8], at: usize) -> usize
    ensures { (result ≤ at + length text.now) × Placed (length text.now) out.old at text.now out.new result }
{
    moves::put(text, out, at)
}

// The digits of a number at the front of the buffer; the answer is how many.
fn spell(n: u64, out: &mut [u8; 20]) -> usize
    ensures { (result ≤ 20) × (take result out.new ≡ decimal n) }
{
    // The last digit comes first, so they stand at the end of an array before they are put to the front.
    let mut digits = [0u8; 20];
    let mut at = 20;
    let mut rest = n;
    // Kept: the loop ends by the number that is left and counts no index up; a loop over the places would need a test and a break in its body.
    while 10 <= rest {
        at -= 1;
        digits[at] = b'0' + (rest % 10) as u8;
        rest /= 10;
    }
    at -= 1;
    digits[at] = b'0' + rest as u8;
    moves::put(&digits[at..], out, 0)
}

// A word and a number in decimal behind it. The room is that of the longest number, twenty digits, whatever the number.
pub fn named(text: &[u8], n: u64, out: &mut [u8], at: usize) -> usize
    ensures { (result ≤ at + (length text.now + 20)) × Placed (length text.now + 20) out.old at (text.now ++ decimal n) out.new result }
{
    if !fits(out, at, text.len(), 0, 20) {
        return at;
    }
    let mut digits = [0u8; 20];
    let k = spell(n, &mut digits);
    let a = moves::put(text, out, at);
    moves::put(&digits[..k], out, a)
}

// A word, a number in decimal and the end of the line.
pub fn line(text: &[u8], n: u64, out: &mut [u8], at: usize) -> usize
    ensures { (result ≤ at + (length text.now + 21)) × Placed (length text.now + 21) out.old at (number_line text.now n) out.new result }
{
    if !fits(out, at, text.len(), 0, 21) {
        return at;
    }
    let a = named(text, n, out, at);
    word(b"\n", out, a)
}

// A word and a number, twice, and the end of the line.
pub fn pair(first: &[u8], n: u64, second: &[u8], m: u64, out: &mut [u8], at: usize) -> usize
    ensures { (result ≤ at + (length first.now + length second.now + 41)) × Placed (length first.now + length second.now + 41) out.old at (pair_line first.now n second.now m) out.new result }
{
    if !fits(out, at, first.len(), second.len(), 41) {
        return at;
    }
    let a = named(first, n, out, at);
    line(second, m, out, a)
}
