// Reads two big-endian bytes of capacity and a `sdci` value from standard input, and prints the layout of the frame, or its refusal (01,
// "The description and the frame it cuts").
#![tactic(auto)]

use std::io;

fn main(rt: HostRuntime) -> io::Result<()> {
    // One byte more than the longest input, so that a longer one is seen.
    let mut input = [0u8; 65529];
    let n = reading::read_full(&mut rt.stdin(), &mut input);
    let mut out = [0u8; 1024];
    let k = layout_text::text(&input[..n], &mut out);
    rt.write_all(&out[..k])
}
