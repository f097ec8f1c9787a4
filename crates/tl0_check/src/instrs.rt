// What is wrong with one line of a code, its number and place aside.
ghost use Rattle.std.specs.Prelude.{◌≡◌, ◌+◌, ◌&&◌, true, length, take, nat_lt, option_to_list};
ghost use Rattle.tam_word.specs.Lists.{any_of, beyond};
ghost use Rattle.tl0_code.specs.ThreadCode.{code_text, numbers_of};
ghost use Rattle.tl0_code.specs.CodeRules.{slots_in, threads_in, has_bad_inlet, has_bad_callee, has_bad_place, faults_of_instr};
ghost use Rattle.tl0_check.specs.FirstFault.{are_words};

use tl0_code::{BadCause, Code0, Instr, Program0};

// The highest place of a result or an argument.
const MAX_PLACE: u32 = 63;

const MAX_NODE: u32 = 1_023;

/// The first fault of an instruction of a code.
pub fn instr_fault(program: &Program0, own: &Code0, instr: Instr) -> Option<BadCause>
    ensures value { option_to_list result ≡ take 1 (faults_of_instr program.now own.now instr) }
    ensures words { are_words (numbers_of instr) ≡ true }
{
    if has_bad_slot(own.slots(), instr) {
        Some(BadCause::Slot)
    } else if has_bad_thread(own, instr) {
        Some(BadCause::Thread)
    } else if has_bad_inlet(program, own, instr) {
        Some(BadCause::Inlet)
    } else if has_bad_callee(program, instr) {
        Some(BadCause::Callee)
    } else if has_bad_place(own, instr) {
        Some(BadCause::Place)
    } else {
        None
    }
}

// Whether it names a slot out of range.
fn has_bad_slot(slots: u32, instr: Instr) -> bool
    ensures value { result ≡ any_of (λ s. beyond s slots) (slots_in instr) }
{
    match instr {
        Instr::Imm { d, .. } => d >= slots,
        Instr::Mov { d, a } => d >= slots || a >= slots,
        Instr::Op { d, a, b, .. } => d >= slots || a >= slots || b >= slots,
        Instr::Switch { s, .. } => s >= slots,
        Instr::Send { f, a, .. } => f >= slots || a >= slots,
        Instr::Ret { a, .. } => a >= slots,
        Instr::Ialloc { n, .. } => n >= slots,
        Instr::Ifetch { array, index, .. } => array >= slots || index >= slots,
        Instr::Istore {
            array,
            index,
            a,
            ..
        } => array >= slots || index >= slots || a >= slots,
        Instr::Fork { .. } | Instr::Falloc { .. } | Instr::Skip { .. } => false,
    }
}

// Whether it names a thread out of range.
fn has_bad_thread(own: &Code0, instr: Instr) -> bool
    ensures value { result ≡ any_of (λ t. beyond t (length own.now.threads)) (threads_in instr) }
{
    match instr {
        Instr::Fork { thread } => lacks_thread(own, thread),
        Instr::Switch { yes, no, .. } => lacks_thread(own, yes) || lacks_thread(own, no),
        _ => false,
    }
}

// Whether it names an inlet out of range or without room behind it, or sends to a place that no code has.
fn has_bad_inlet(program: &Program0, own: &Code0, instr: Instr) -> bool
    ensures value { result ≡ has_bad_inlet program.now own.now instr }
{
    match instr {
        Instr::Falloc { code, inlet } => {
            lacks_inlet(own, inlet) || lacks_room(program, own, code, inlet)
        }
        Instr::Send { inlet, .. } => inlet > MAX_PLACE,
        Instr::Ialloc { inlet, .. } | Instr::Ifetch { inlet, .. } => lacks_inlet(own, inlet),
        _ => false,
    }
}

// Whether it names a code that isn't there.
fn has_bad_callee(program: &Program0, instr: Instr) -> bool
    ensures value { result ≡ has_bad_callee program.now instr }
{
    match instr {
        Instr::Falloc { code, .. } => code as usize >= program.codes().len(),
        _ => false,
    }
}

// Whether it names a result or a node out of range.
fn has_bad_place(own: &Code0, instr: Instr) -> bool
    ensures value { result ≡ has_bad_place own.now instr }
{
    match instr {
        Instr::Ret { place, .. } => place >= own.results(),
        Instr::Ifetch { node, .. } | Instr::Istore { node, .. } => node > MAX_NODE,
        _ => false,
    }
}

/// Whether a code hasn't the thread.
pub fn lacks_thread(own: &Code0, thread: u32) -> bool
    ensures value { result ≡ beyond thread (length own.now.threads) }
{
    thread as usize >= own.threads().len()
}

// Whether a code hasn't the inlet.
fn lacks_inlet(own: &Code0, inlet: u32) -> bool
    ensures value { result ≡ beyond inlet (length own.now.inlets) }
{
    inlet as usize >= own.inlets().len()
}

// Whether behind the inlet there are fewer than the called code has results. Where that isn't there, it is told otherwise.
fn lacks_room(program: &Program0, own: &Code0, callee: u32, inlet: u32) -> bool
    ensures value { result ≡ (nat_lt callee (length program.now.codes) && beyond (inlet + (code_text program.now callee).results) (length own.now.inlets)) }
{
    match program.codes().get(callee as usize) {
        Some(callee) => {
            u64::from(inlet) + u64::from(callee.results()) >= own.inlets().len() as u64
        }
        None => false,
    }
}
