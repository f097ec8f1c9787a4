// The machine code of each instruction of thread code.
ghost use Rattle.std.specs.Prelude.{◌≡◌, ◌+◌, ◌*◌, ◌≤◌, ◌<◌, [], ◌∷◌, ◌++◌, length, slice_index, OnOk};
ghost use Rattle.tl0_code.specs.declared.instr.Instr.TheVariants.{Imm, Mov, Op as Operate, Switch, Falloc, Send, Ret, Ialloc, Ifetch, Istore, Skip};
ghost use Rattle.tam_msgs.specs.Messages.{site};
ghost use Rattle.rv_inst.specs.declared.inst.Inst.TheVariants.{Branch as Branch_inst};
ghost use Rattle.rv_inst.specs.declared.branch_name.BranchName.TheVariants.{Beq};
ghost use Rattle.rv_keep.specs.Expansions.{expanded, forks, of_two, name_of, get, load_number};
ghost use Rattle.rv_gen.specs.Sayable.{IsSayable};
ghost use Rattle.rv_gen.specs.Parts.{words_of};

use crate::frame_record::{NUMBER_AT, OWED_AT, SLOTS_AT, cell_at};
use crate::insts::{
    add, addi, branch, call_host, get, immediate, jal, jalr, load_number, lw, operate, push_insts,
    put, sw,
};
use crate::kernel::POST_AT;
use rv_inst::{BranchName, IName, RName};
use tam_edge::NoMemory;
use tam_word::Op;
use tl0_code::Instr;

// The greatest number of a node, plus 1.
const NODES: u32 = 1_024;

/// Puts the machine code of an instruction behind the words: of a code of so many slots, whose threads begin at these addresses.
///
/// docs/MACHINE.md, "Machine code".
pub fn push_instr(
    words: &mut Vec<u32>,
    slots: u32,
    starts: &[u32],
    code: u32,
    instr: &Instr,
) -> Result<(), NoMemory>
    requires few_slots { slots ≤ 1026 }
    requires few_threads { length starts.now ≤ 3074 }
    requires few_codes { code < 256 }
    requires sayable { IsSayable slots (length starts.now) instr.now }
    ensures ok { OnOk result (words.new.items ≡ words.old.items ++ words_of (expanded slots (slice_index starts.now) code instr.now)) }
{
    match instr {
        Instr::Imm { d, word } => push_imm(words, *d, *word),
        Instr::Mov { d, a } => push_mov(words, *d, *a),
        Instr::Op { op, d, a, b } => push_op(words, *op, *d, *a, *b),
        Instr::Fork { thread } => push_forks(words, slots, starts, *thread),
        Instr::Switch { s, yes, no } => push_switch(words, slots, starts, *s, *yes, *no),
        Instr::Falloc { code, inlet } => push_falloc(words, *code, *inlet),
        Instr::Send { f, inlet, a } => push_send(words, *f, *inlet, *a),
        Instr::Ret { place, a } => push_ret(words, *place, *a),
        Instr::Ialloc { n, inlet } => push_ialloc(words, *n, *inlet),
        Instr::Ifetch {
            array,
            index,
            inlet,
            node,
        } => push_ifetch(words, *array, *index, *inlet, code, *node),
        Instr::Istore {
            array,
            index,
            a,
            node,
        } => push_istore(words, *array, *index, *a, code, *node),
        Instr::Skip { n } => push_skip(words, *n),
    }
}

// The site of a node of a code.
fn site(code: u32, node: u32) -> u32
    requires few_codes { code < 256 }
    requires few_nodes { node ≤ 1023 }
    ensures value { result ≡ site code node }
{
    NODES * code + node
}

fn push_imm(words: &mut Vec<u32>, d: u32, word: u32) -> Result<(), NoMemory>
    requires few_slots { d ≤ 1026 }
    ensures ok { OnOk result (words.new.items ≡ words.old.items ++ words_of (expanded 0 (λ t. t) 0 (Imm d word))) }
{
    push_insts(words, &load_number(5, word))?;
    push_insts(words, &put(5, d))
}

fn push_mov(words: &mut Vec<u32>, d: u32, a: u32) -> Result<(), NoMemory>
    requires few_slots { d ≤ 1026 }
    requires few_operands { a ≤ 1026 }
    ensures ok { OnOk result (words.new.items ≡ words.old.items ++ words_of (expanded 0 (λ t. t) 0 (Mov d a))) }
{
    push_insts(words, &get(5, a))?;
    push_insts(words, &put(5, d))
}

fn push_op(words: &mut Vec<u32>, op: Op, d: u32, a: u32, b: u32) -> Result<(), NoMemory>
    requires few_slots { d ≤ 1026 }
    requires few_first { a ≤ 1026 }
    requires few_second { b ≤ 1026 }
    ensures ok { OnOk result (words.new.items ≡ words.old.items ++ words_of (expanded 0 (λ t. t) 0 (Operate op d a b))) }
{
    push_insts(words, &get(5, a))?;
    push_insts(words, &get(6, b))?;
    push_of_two(words, op)?;
    push_insts(words, &put(5, d))
}

// Register 5 gets the operator of registers 5 and 6.
fn push_of_two(words: &mut Vec<u32>, op: Op) -> Result<(), NoMemory>
    ensures ok { OnOk result (words.new.items ≡ words.old.items ++ words_of (of_two op)) }
{
    let of_registers = operate(name_of(op), 5, 5, 6);
    match op {
        Op::Eq => push_insts(words, &[of_registers, immediate(IName::Sltiu, 5, 5, 1)]),
        _ => push_insts(words, &[of_registers]),
    }
}

// The register instruction of an operator.
fn name_of(op: Op) -> RName
    ensures value { result ≡ name_of op }
{
    match op {
        Op::Add => RName::Add,
        Op::Sub | Op::Eq => RName::Sub,
        Op::Mul => RName::Mul,
        Op::Div => RName::Div,
        Op::Divu => RName::Divu,
        Op::Rem => RName::Rem,
        Op::Remu => RName::Remu,
        Op::And => RName::And,
        Op::Or => RName::Or,
        Op::Xor => RName::Xor,
        Op::Sll => RName::Sll,
        Op::Srl => RName::Srl,
        Op::Sra => RName::Sra,
        Op::Slt => RName::Slt,
        Op::Sltu => RName::Sltu,
    }
}

// A thread is spent once.
fn push_forks(words: &mut Vec<u32>, slots: u32, starts: &[u32], thread: u32) -> Result<(), NoMemory>
    requires few_slots { slots ≤ 1026 }
    requires few_threads { length starts.now ≤ 3074 }
    requires there { thread < length starts.now }
    ensures ok { OnOk result (words.new.items ≡ words.old.items ++ words_of (forks slots (slice_index starts.now) thread)) }
{
    push_insts(words, &[addi(10, 8, 0)])?;
    push_insts(words, &load_number(11, cell_at(slots, thread)))?;
    push_insts(words, &[add(11, 11, 8)])?;
    push_insts(words, &load_number(12, starts[thread as usize]))?;
    push_insts(words, &[jalr(1, 0, POST_AT)])
}

fn push_switch(
    words: &mut Vec<u32>,
    slots: u32,
    starts: &[u32],
    s: u32,
    yes: u32,
    no: u32,
) -> Result<(), NoMemory>
    requires few_slots { slots ≤ 1026 }
    requires few_threads { length starts.now ≤ 3074 }
    requires few_tests { s ≤ 1026 }
    requires there { yes < length starts.now }
    requires other_there { no < length starts.now }
    ensures ok { OnOk result (words.new.items ≡ words.old.items ++ words_of (expanded slots (slice_index starts.now) 0 (Switch s yes no))) }
{
    push_test(words, s)?;
    push_forks(words, slots, starts, yes)?;
    push_insts(words, &[jal(0, 32)])?;
    push_forks(words, slots, starts, no)
}

// A branch where a slot is 0, over the fork behind it.
fn push_test(words: &mut Vec<u32>, s: u32) -> Result<(), NoMemory>
    requires few_slots { s ≤ 1026 }
    ensures ok { OnOk result (words.new.items ≡ words.old.items ++ words_of (get 5 s ++ Branch_inst Beq 5 0 36 ∷ [])) }
{
    push_insts(words, &get(5, s))?;
    push_insts(words, &[branch(BranchName::Beq, 5, 0, 36)])
}

fn push_falloc(words: &mut Vec<u32>, code: u32, inlet: u32) -> Result<(), NoMemory>
    requires few_codes { code < 256 }
    ensures ok { OnOk result (words.new.items ≡ words.old.items ++ words_of (expanded 0 (λ t. t) 0 (Falloc code inlet))) }
{
    push_insts(words, &[addi(10, 0, code as i32), lw(11, NUMBER_AT, 8)])?;
    push_insts(words, &load_number(12, inlet))?;
    push_insts(words, &call_host(2))
}

fn push_send(words: &mut Vec<u32>, f: u32, inlet: u32, a: u32) -> Result<(), NoMemory>
    requires few_slots { f ≤ 1026 }
    requires few_operands { a ≤ 1026 }
    ensures ok { OnOk result (words.new.items ≡ words.old.items ++ words_of (expanded 0 (λ t. t) 0 (Send f inlet a))) }
{
    push_insts(words, &get(10, f))?;
    push_insts(words, &load_number(11, inlet))?;
    push_insts(words, &get(12, a))?;
    push_insts(words, &call_host(1))
}

fn push_ret(words: &mut Vec<u32>, place: u32, a: u32) -> Result<(), NoMemory>
    requires few_results { place < 64 }
    requires few_slots { a ≤ 1026 }
    ensures ok { OnOk result (words.new.items ≡ words.old.items ++ words_of (expanded 0 (λ t. t) 0 (Ret place a))) }
{
    push_insts(
        words,
        &[
            lw(10, SLOTS_AT, 8),
            lw(11, SLOTS_AT + 4, 8),
            addi(11, 11, place as i32),
        ],
    )?;
    push_insts(words, &get(12, a))?;
    push_insts(words, &call_host(1))
}

fn push_ialloc(words: &mut Vec<u32>, n: u32, inlet: u32) -> Result<(), NoMemory>
    requires few_slots { n ≤ 1026 }
    ensures ok { OnOk result (words.new.items ≡ words.old.items ++ words_of (expanded 0 (λ t. t) 0 (Ialloc n inlet))) }
{
    push_insts(words, &get(10, n))?;
    push_insts(words, &[lw(11, NUMBER_AT, 8)])?;
    push_insts(words, &load_number(12, inlet))?;
    push_insts(words, &call_host(3))
}

fn push_ifetch(
    words: &mut Vec<u32>,
    array: u32,
    index: u32,
    inlet: u32,
    code: u32,
    node: u32,
) -> Result<(), NoMemory>
    requires few_slots { array ≤ 1026 }
    requires few_indexes { index ≤ 1026 }
    requires few_codes { code < 256 }
    requires few_nodes { node ≤ 1023 }
    ensures ok { OnOk result (words.new.items ≡ words.old.items ++ words_of (expanded 0 (λ t. t) code (Ifetch array index inlet node))) }
{
    push_element(words, array, index)?;
    push_insts(words, &[lw(12, NUMBER_AT, 8)])?;
    push_numbers(words, inlet, site(code, node))?;
    push_insts(words, &call_host(4))
}

// Registers 13 and 14 get numbers.
fn push_numbers(words: &mut Vec<u32>, inlet: u32, site: u32) -> Result<(), NoMemory>
    ensures ok { OnOk result (words.new.items ≡ words.old.items ++ words_of (load_number 13 inlet ++ load_number 14 site)) }
{
    push_insts(words, &load_number(13, inlet))?;
    push_insts(words, &load_number(14, site))
}

// Registers 10 and 11 get an array and an index.
fn push_element(words: &mut Vec<u32>, array: u32, index: u32) -> Result<(), NoMemory>
    requires few_slots { array ≤ 1026 }
    requires few_indexes { index ≤ 1026 }
    ensures ok { OnOk result (words.new.items ≡ words.old.items ++ words_of (get 10 array ++ get 11 index)) }
{
    push_insts(words, &get(10, array))?;
    push_insts(words, &get(11, index))
}

fn push_istore(
    words: &mut Vec<u32>,
    array: u32,
    index: u32,
    a: u32,
    code: u32,
    node: u32,
) -> Result<(), NoMemory>
    requires few_slots { array ≤ 1026 }
    requires few_indexes { index ≤ 1026 }
    requires few_operands { a ≤ 1026 }
    requires few_codes { code < 256 }
    requires few_nodes { node ≤ 1023 }
    ensures ok { OnOk result (words.new.items ≡ words.old.items ++ words_of (expanded 0 (λ t. t) code (Istore array index a node))) }
{
    push_element(words, array, index)?;
    push_insts(words, &get(12, a))?;
    push_insts(words, &load_number(13, site(code, node)))?;
    push_insts(words, &call_host(5))
}

fn push_skip(words: &mut Vec<u32>, n: u32) -> Result<(), NoMemory>
    ensures ok { OnOk result (words.new.items ≡ words.old.items ++ words_of (expanded 0 (λ t. t) 0 (Skip n))) }
{
    push_insts(words, &[lw(5, OWED_AT, 8)])?;
    push_insts(words, &load_number(6, n))?;
    push_insts(words, &[operate(RName::Sub, 5, 5, 6), sw(5, OWED_AT, 8)])
}
