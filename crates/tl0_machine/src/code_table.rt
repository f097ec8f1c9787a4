// A checked program with what its runs look up.
ghost use Rattle.std.specs.Prelude.{◌≡◌, ◌<◌, ◌≤◌, Some, length, map, slice_get, slice_index, IfOk, IfSome, IfNone};
ghost use Rattle.tl0_code.specs.ThreadCode.{code_text, thread_at, or_thread, counts_of, greater, greatest, widest_slots, widest_threads};
ghost use Rattle.tl0_code.specs.CodeRules.{IsChecked};
ghost use Rattle.tl0_machine.specs.CodeFits.{AreNamed, IsInletNamed};
ghost use Rattle.tl0_machine.specs.ThreadStates.{lists_of};

use std::alloc::Global;
use std::marker::Model;
use tam_edge::NoMemory;
use tl0_check::Checked0;
use tl0_code::{Code0, Inlet, Instr, Thread};

/// A checked program, with the entry counts of each code as one list.
#[derive(Drop)]
pub(crate) struct CodeTable {
    code: Checked0,
    counts: Vec<Vec<u32>>,
}

impl Model for CodeTable {
    ghost use Rattle.std.specs.Prelude.{◌≡◌, map};
    ghost use Rattle.tl0_code.specs.ThreadCode.{Program, counts_of};
    ghost use Rattle.tl0_machine.specs.ThreadStates.{lists_of};

    ghost Value = { Program };

    ghost view = { λ t. t.code };

    ghost invariant = { λ t. lists_of t.counts.items ≡ map counts_of t.code.codes };
}

impl CodeTable {
    pub(crate) fn new(alloc: Global, code: Checked0) -> Result<CodeTable, NoMemory>
        ensures value { IfOk result (λ table. table ≡ code) }
    {
        let counts = all_counts(alloc, code.program().codes())?;
        Ok(CodeTable { code, counts })
    }

    /// The number of the code that begins.
    pub(crate) fn main(&self) -> u32
        ensures value { result ≡ self.now.main }
        ensures there { result < length self.now.codes }
        ensures checked { IsChecked self.now }
    {
        self.code.program().main()
    }

    /// How many params `main` has.
    pub(crate) fn params(&self) -> u32
        ensures value { result ≡ (code_text self.now self.now.main).params }
    {
        self.code(self.main()).params()
    }

    /// How many results `main` has.
    pub(crate) fn results(&self) -> u32
        ensures value { result ≡ (code_text self.now self.now.main).results }
    {
        self.code(self.main()).results()
    }

    /// The entry counts of a code, where it is there.
    pub(crate) fn counts(&self, code: u32) -> Option<&[u32]>
        ensures there { IfSome result (λ counts. code < length self.now.codes) }
        ensures value { IfSome result (λ counts. counts.now ≡ counts_of (code_text self.now code)) }
        ensures fit { IfSome result (λ counts. length counts.now ≤ widest_threads self.now) }
        ensures first { IfSome result (λ counts. 0 < slice_index counts.now 0) }
        ensures slots { IfSome result (λ counts. 2 ≤ widest_slots self.now) }
        ensures none { IfNone result (length self.now.codes ≤ code) }
    {
        let counts = self.counts.get(code as usize)?;
        let _program = self.code.program();
        Some(counts.as_slice())
    }

    /// The inlet of a code, where the code has it.
    pub(crate) fn inlet(&self, code: u32, inlet: u32) -> Option<Inlet>
        requires there { code < length self.now.codes }
        ensures value { result ≡ slice_get (code_text self.now code).inlets inlet }
        ensures named { IfSome result (λ inlet. IsInletNamed (widest_slots self.now) (widest_threads self.now) inlet) }
    {
        inlet_at(self.code(code).inlets(), inlet)
    }

    /// The instructions of a thread of a code, none where the code hasn't the thread.
    pub(crate) fn instrs(&self, code: u32, thread: u32) -> &[Instr]
        requires there { code < length self.now.codes }
        ensures value { result.now ≡ (thread_at (code_text self.now code) thread).instrs }
        ensures named { AreNamed (widest_slots self.now) (widest_threads self.now) result.now }
        ensures checked { IsChecked self.now }
    {
        instrs_at(self.code(code).threads(), thread)
    }

    /// How many slots a frame has room for.
    pub(crate) fn widest_slots(&self) -> u32
        ensures value { result ≡ widest_slots self.now }
        ensures first_slots { 2 ≤ result }
    {
        most_slots(self.code.program().codes())
    }

    /// How many threads a frame has room for.
    pub(crate) fn widest_threads(&self) -> u32
        ensures value { result ≡ widest_threads self.now }
    {
        most_threads(self.code.program().codes())
    }

    fn code(&self, code: u32) -> &Code0
        requires there { code < length self.now.codes }
        ensures value { result.now ≡ code_text self.now code }
        ensures checked { IsChecked self.now }
    {
        &self.code.program().codes()[code as usize]
    }
}

fn inlet_at(inlets: &[Inlet], inlet: u32) -> Option<Inlet>
    ensures value { result ≡ slice_get inlets.now inlet }
{
    inlets.get(inlet as usize).copied()
}

fn instrs_at(threads: &[Thread], thread: u32) -> &[Instr]
    ensures value { result.now ≡ (or_thread (slice_get threads.now thread)).instrs }
{
    match threads.get(thread as usize) {
        Some(thread) => thread.instrs(),
        None => &[],
    }
}

// The entry counts of each code.
fn all_counts(alloc: Global, codes: &[Code0]) -> Result<Vec<Vec<u32>>, NoMemory>
    ensures value { IfOk result (λ lists. lists_of lists.items ≡ map counts_of codes.now) }
{
    let mut lists = Vec::with_capacity(alloc, codes.len())?;
    for code in codes {
        lists.push(entry_counts(alloc, code.threads())?)?;
    }
    Ok(lists)
}

// The entry counts of threads.
fn entry_counts(alloc: Global, threads: &[Thread]) -> Result<Vec<u32>, NoMemory>
    ensures value { IfOk result (λ counts. counts.items ≡ map (λ t. t.count) threads.now) }
{
    let mut counts = Vec::with_capacity(alloc, threads.len())?;
    for thread in threads {
        counts.push(thread.count())?;
    }
    Ok(counts)
}

// The most slots of a code.
fn most_slots(codes: &[Code0]) -> u32
    ensures value { result ≡ greatest (map (λ c. c.slots) codes.now) }
{
    let mut most = 0;
    for code in codes {
        most = greater(most, code.slots());
    }
    most
}

// The most threads of a code.
fn most_threads(codes: &[Code0]) -> u32
    ensures value { result ≡ greatest (map (λ c. length c.threads) codes.now) }
{
    let mut most = 0;
    for code in codes {
        most = greater(most, code.threads().len() as u32);
    }
    most
}

fn greater(m: u32, n: u32) -> u32
    ensures value { result ≡ greater m n }
{
    if m < n { n } else { m }
}
