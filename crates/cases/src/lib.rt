// The framing of docs/CASES.md, for the programs that answer cases. Nothing that the product answers goes through it: what it reads and
// writes is compared, byte for byte, with the second program. So its promises say that it stays within the buffers lent, and little more.
#![tactic(auto)]

pub mod answer;
pub mod case;
pub mod input;
