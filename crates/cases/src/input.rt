// The next case of an input.
ghost use Rattle.std.specs.Prelude.{◌≤◌, length, IfOk, IfSome};

use crate::case;
use std::io::Read;

// A whole case: its body stands at the front of the slice.
#[derive(Clone, Copy)]
pub struct Case {
    pub call: u8,
    pub size: usize,
}

// A case that is cut off or too large: after it nothing more can be read.
#[derive(Clone, Copy)]
pub struct CutOff;

// None where the input has ended.
pub fn next(input: &mut impl Read, body: &mut [u8]) -> Result<Option<Case>, CutOff>
    ensures { IfOk result (λ next. IfSome next (λ case. case.size ≤ length body.old)) }
{
    let mut head = [0u8; 5];
    let got = reading::read_full(input, &mut head);
    if got == 0 {
        return Ok(None);
    }
    let size = case::wide(fields::read32(&head, 1));
    if got < head.len() || body.len() < size {
        return Err(CutOff);
    }
    if reading::read_full(input, &mut body[..size]) < size {
        return Err(CutOff);
    }
    Ok(Some(Case {
        call: head[0],
        size,
    }))
}
