// The check of thread code, line by line.
ghost use Rattle.std.specs.Prelude.{◌≡◌, ◌+◌, ◌^◌, ◌<◌, ◌≤◌, ◌∷◌, [], None, Some, true, ◌||◌, nat_lt, length, take, map, flat_map, OnOk, IfOk, IfErr};
ghost use Rattle.std.specs.Prelude.{option_to_list};
ghost use Rattle.tam_word.specs.Lists.{where_so};
ghost use Rattle.tl0_code.specs.declared.bad_cause.BadCause.TheVariants.{Frame};
ghost use Rattle.tl0_code.specs.ThreadCode.{IsCodeText, code_text, numbers_of};
ghost use Rattle.tl0_code.specs.CodeRules.{faults_of_instr, faults_of_head, faults_of_inlet, faults_of_thread, faults_of, faults_in, first_fault, IsChecked};
ghost use Rattle.tl0_check.specs.FirstFault.{fault_told, IsFirst, faults_from, is_bad_frame, are_words, numbers_of_inlet, numbers_of_thread};

use crate::Checked0;
use crate::instrs::{instr_fault, lacks_thread};
use tl0_code::{BadCause, Code0, Inlet, Instr, Program0, Thread};

const MIN_SLOTS: u32 = 2;

const MAX_PARAMS: u32 = 64;

const MAX_RESULTS: u32 = 64;

const MAX_ENTRY_COUNT: u32 = 65_535;

/// Why thread code wasn't accepted.
#[derive(Clone, Copy, Debug, PartialEq, Eq)]
pub enum Check0Error {
    /// The first line that has a fault, by its code and its place from 0 at the code's head, and the first cause there.
    Bad {
        code: u32,
        place: u32,
        cause: BadCause,
    },
}

/// Hands on a program without a fault, or hands it back with its first fault.
///
/// docs/THREADS.md, "Which thread code is accepted".
pub fn check0(program: Program0) -> Result<Checked0, (Program0, Check0Error)>
    ensures value { IfOk result (λ checked. checked ≡ program) }
    ensures accepted { OnOk result (first_fault program ≡ None) }

    // The program comes back as it was, with its first fault.
    ensures kept { IfErr result (λ refused. refused.0 ≡ program) }
    ensures refused { IfErr result (λ refused. first_fault program ≡ Some (fault_told refused.1)) }
{
    match check_codes(&program) {
        Ok(()) => Ok(Checked0::of(program)),
        Err(error) => Err((program, error)),
    }
}

fn check_codes(program: &Program0) -> Result<(), Check0Error>
    ensures checked { OnOk result (IsChecked program.now) }
    ensures refused { IfErr result (IsFirst (faults_of program.now)) }
{
    for code in 0..program.codes().len() as u32 {
        check_code(program, code)?;
    }
    Ok(())
}

fn check_code(program: &Program0, code: u32) -> Result<(), Check0Error>
    requires in_range { code < length program.now.codes }
    ensures ok { OnOk result (faults_in program.now code ≡ []) }
    ensures words { OnOk result (IsCodeText (code_text program.now code)) }
    ensures refused { IfErr result (IsFirst (faults_in program.now code)) }
{
    let own = &program.codes()[code as usize];
    check_line(code, 0, head_fault(program, code, own))?;
    check_inlets(code, own, own.inlets())?;
    let place = own.inlets().len() as u32 + 1;
    check_threads(program, code, own, place, own.threads())
}

// The inlets stand behind the head.
fn check_inlets(code: u32, own: &Code0, inlets: &[Inlet]) -> Result<(), Check0Error>
    requires few { length inlets.now ≤ 1024 }
    ensures ok { OnOk result (faults_from code 1 (map (faults_of_inlet own.now) inlets.now) ≡ []) }
    ensures words { OnOk result (are_words (flat_map numbers_of_inlet inlets.now) ≡ true) }
    ensures refused { IfErr result (IsFirst (faults_from code 1 (map (faults_of_inlet own.now) inlets.now))) }
{
    let mut place = 1;
    let mut rest = inlets;
    while let [inlet, after @ ..] = rest {
        check_line(code, place, inlet_fault(own, *inlet))?;
        place += 1;
        rest = after;
    }
    Ok(())
}

// The threads, the first of which has its head at the place.
fn check_threads(
    program: &Program0,
    code: u32,
    own: &Code0,
    place: u32,
    threads: &[Thread],
) -> Result<(), Check0Error>
    requires few { place + length (flat_map (faults_of_thread program.now own.now) threads.now) < 2 ^ 32 }
    ensures ok { OnOk result (faults_from code place (flat_map (faults_of_thread program.now own.now) threads.now) ≡ []) }
    ensures words { OnOk result (are_words (flat_map numbers_of_thread threads.now) ≡ true) }
    ensures refused { IfErr result (IsFirst (faults_from code place (flat_map (faults_of_thread program.now own.now) threads.now))) }
{
    let mut place = place;
    let mut rest = threads;
    while let [thread, after @ ..] = rest {
        check_thread(program, code, own, place, thread)?;
        place += thread.instrs().len() as u32 + 2;
        rest = after;
    }
    Ok(())
}

// A thread whose head is at the place.
fn check_thread(
    program: &Program0,
    code: u32,
    own: &Code0,
    place: u32,
    thread: &Thread,
) -> Result<(), Check0Error>
    requires few { place + length (faults_of_thread program.now own.now thread.now) < 2 ^ 32 }
    ensures ok { OnOk result (faults_from code place (faults_of_thread program.now own.now thread.now) ≡ []) }
    ensures words { OnOk result (are_words (numbers_of_thread thread.now) ≡ true) }
    ensures refused { IfErr result (IsFirst (faults_from code place (faults_of_thread program.now own.now thread.now))) }
{
    check_line(code, place, count_fault(thread.count()))?;
    check_instrs(program, code, own, place + 1, thread.instrs())
}

// Instructions, the first of which is at the place.
fn check_instrs(
    program: &Program0,
    code: u32,
    own: &Code0,
    place: u32,
    instrs: &[Instr],
) -> Result<(), Check0Error>
    requires few { place + length instrs.now < 2 ^ 32 }
    ensures ok { OnOk result (faults_from code place (map (faults_of_instr program.now own.now) instrs.now) ≡ []) }
    ensures words { OnOk result (are_words (flat_map numbers_of instrs.now) ≡ true) }
    ensures refused { IfErr result (IsFirst (faults_from code place (map (faults_of_instr program.now own.now) instrs.now))) }
{
    let mut place = place;
    let mut rest = instrs;
    while let [instr, after @ ..] = rest {
        check_line(code, place, instr_fault(program, own, *instr))?;
        place += 1;
        rest = after;
    }
    Ok(())
}

// Refuses a line that has a fault.
fn check_line(code: u32, place: u32, fault: Option<BadCause>) -> Result<(), Check0Error>
    ensures ok { OnOk result (fault ≡ None) }
    ensures refused { IfErr result (λ error. map (λ cause. (code, place, cause)) (option_to_list fault) ≡ fault_told error ∷ []) }
{
    match fault {
        Some(cause) => Err(Check0Error::Bad { code, place, cause }),
        None => Ok(()),
    }
}

// The first fault of the head of a code.
fn head_fault(program: &Program0, code: u32, own: &Code0) -> Option<BadCause>
    ensures value { option_to_list result ≡ take 1 (faults_of_head program.now code own.now) }
{
    if has_bad_frame(own) {
        Some(BadCause::Frame)
    } else if code == 0 && program.main() as usize >= program.codes().len() {
        Some(BadCause::Main)
    } else {
        None
    }
}

// Whether the counts of a code are out of range.
fn has_bad_frame(own: &Code0) -> bool
    ensures value { result ≡ is_bad_frame own.now }
{
    own.slots() < MIN_SLOTS
        || own.inlets().len() < own.params() as usize
        || own.params() > MAX_PARAMS
        || own.results() > MAX_RESULTS
}

// The first fault of an inlet of a code.
fn inlet_fault(own: &Code0, inlet: Inlet) -> Option<BadCause>
    ensures value { option_to_list result ≡ take 1 (faults_of_inlet own.now inlet) }
    ensures words { are_words (numbers_of_inlet inlet) ≡ true }
{
    if inlet.slot >= own.slots() {
        Some(BadCause::Slot)
    } else if lacks_thread(own, inlet.thread) {
        Some(BadCause::Thread)
    } else {
        None
    }
}

// The fault of an entry count.
fn count_fault(count: u32) -> Option<BadCause>
    ensures value { option_to_list result ≡ take 1 (where_so (nat_lt count 1 || nat_lt 65535 count) Frame) }
{
    if (1..=MAX_ENTRY_COUNT).contains(&count) {
        None
    } else {
        Some(BadCause::Frame)
    }
}
