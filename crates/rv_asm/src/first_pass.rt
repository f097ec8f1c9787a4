// The first pass: the lines one by one, up to the first with a fault.
ghost use Rattle.std.specs.Prelude.{◌≡◌, ◌≤◌, [], length, IfOk, OnOk, IfErr};
ghost use Rattle.rv_asm.specs.Faults.{last_line, said_in, first_faults, IsFirst};
ghost use Rattle.rv_asm.specs.PassView.{said};

use crate::AsmError;
use crate::pass::{Pass, end_cause, line_cause, nothing_said};
use std::alloc::Global;
use tam_text::split_line;

// The line behind the last LF.
fn last_line(text: &[u8]) -> u32
    requires in_range { length text.now ≤ 4294967294 }
    ensures value { result ≡ last_line text.now }
{
    let mut line = 1;
    for byte in text {
        if *byte == b'\n' {
            line += 1;
        }
    }
    line
}

/// What the lines of a text say, where none has a fault.
pub fn first_pass(alloc: Global, text: &[u8]) -> Result<Pass<'_>, AsmError>
    requires in_range { length text.now ≤ 4294967294 }
    ensures ok { IfOk result (λ pass. said pass ≡ said_in text.now) }
    ensures faultless { OnOk result (first_faults text.now ≡ []) }
    ensures refused { IfErr result (IsFirst (first_faults text.now)) }
{
    let mut pass = nothing_said(alloc);
    let mut number: u32 = 1;
    let mut rest = text;
    while !rest.is_empty() {
        let (line, after) = split_line(rest);
        if let Some(cause) = line_cause(alloc, &mut pass, number, line)? {
            return Err(AsmError::At {
                line: number,
                cause,
            });
        }
        number += 1;
        rest = after;
    }
    match end_cause(&pass) {
        Some(cause) => Err(AsmError::At {
            line: last_line(text),
            cause,
        }),
        None => Ok(pass),
    }
}
