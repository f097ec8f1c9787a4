// The kernel: the words before all threads, by parts.
ghost use Rattle.std.specs.Prelude.{ℕ, ◌≡◌, ◌≤◌, ◌++◌, map, OnOk};
ghost use Rattle.rv_keep.specs.Expansions.{load_number};
ghost use Rattle.rv_keep.specs.Kernel.{addressed, opening, resting, polling, beginning, filling, delivering, post, running, stopping, clearing, kernel};
ghost use Rattle.rv_gen.specs.Parts.{words_of};

use crate::frame_record::{HEAD_AT, LINK_AT, NEXT_AT, NUMBER_AT, OWED_AT, SLOTS_AT, TABLE_AT};
use crate::insts::{add, addi, branch, jal, jalr, load_number, lw, operate, push_insts, slli, sw};
use rv_inst::{BranchName, Inst, RName};
use tam_edge::NoMemory;

/// How many words it has.
pub const KERNEL_WORDS: u32 = 105;
/// Where its routine stands that spends one of a thread's entry count.
pub const POST_AT: i32 = 248;
/// Where a thread stops.
pub const STOP_AT: i32 = 356;

/// Puts the words of the kernel behind the others: for the addresses of the first frame and of the code table, the bytes of a frame, and the
/// number of `main`.
///
/// docs/MACHINE.md, "Machine code".
pub fn push_kernel(
    words: &mut Vec<u32>,
    frames: u32,
    stride: u32,
    table: u32,
    main: u32,
) -> Result<(), NoMemory>
    requires few_codes { main ≤ 256 }
    ensures ok { OnOk result (words.new.items ≡ words.old.items ++ words_of (kernel frames stride table main)) }
{
    push_opening(words, frames, stride, table, main)?;
    push_insts(words, &resting())?;
    push_insts(words, &polling())?;
    push_beginning(words)?;
    push_insts(words, &filling())?;
    push_delivering(words)?;
    push_insts(words, &post())?;
    push_insts(words, &running())?;
    push_insts(words, &stopping())?;
    push_insts(words, &clearing())
}

// The opening: then the kernel begins a frame of `main`.
fn push_opening(
    words: &mut Vec<u32>,
    frames: u32,
    stride: u32,
    table: u32,
    main: u32,
) -> Result<(), NoMemory>
    requires few_codes { main ≤ 256 }
    ensures ok { OnOk result (words.new.items ≡ words.old.items ++ words_of (opening frames stride table main)) }
{
    push_insts(words, &load_number(19, frames))?;
    push_insts(words, &load_number(20, stride))?;
    push_insts(words, &load_number(21, table))?;
    push_insts(words, &opening_behind(main))
}

// Once registers 19 to 21 have the addresses and the bytes of a frame.
fn opening_behind(main: u32) -> [Inst; 8]
    requires few_codes { main ≤ 256 }
    ensures value { (f s t : ℕ) → load_number 19 f ++ load_number 20 s ++ load_number 21 t ++ result ≡ opening f s t main }
{
    [
        addi(8, 0, 0),
        addi(9, 0, 0),
        addi(18, 0, 0),
        addi(11, 0, 0),
        addi(12, 0, main as i32),
        addi(13, 0, -1),
        addi(14, 0, 0),
        jal(0, 48),
    ]
}

// A frame whose list is empty is no longer current.
fn resting() -> [Inst; 3]
    ensures value { result ≡ resting }
{
    [
        lw(5, HEAD_AT, 8),
        branch(BranchName::Bne, 5, 0, 8),
        addi(8, 0, 0),
    ]
}

// The poll, and what it says is to be done.
fn polling() -> [Inst; 8]
    ensures value { result ≡ polling }
{
    [
        operate(RName::Or, 10, 8, 9),
        addi(17, 0, 0),
        Inst::Ecall,
        branch(BranchName::Beq, 10, 0, -12),
        addi(5, 0, 1),
        branch(BranchName::Beq, 10, 5, 228),
        addi(5, 0, 2),
        branch(BranchName::Beq, 10, 5, 100),
    ]
}

// A frame is begun.
fn push_beginning(words: &mut Vec<u32>) -> Result<(), NoMemory>
    ensures ok { OnOk result (words.new.items ≡ words.old.items ++ words_of beginning) }
{
    push_insts(words, &addressed())?;
    push_insts(words, &beginning_behind())
}

// Once register 10 has its address.
fn beginning_behind() -> [Inst; 13]
    ensures value { addressed ++ result ≡ beginning }
{
    [
        slli(5, 12, 2),
        add(5, 5, 21),
        lw(5, 0, 5),
        sw(0, HEAD_AT, 10),
        sw(11, NUMBER_AT, 10),
        lw(6, 0, 5),
        sw(6, TABLE_AT, 10),
        sw(13, SLOTS_AT, 10),
        sw(14, SLOTS_AT + 4, 10),
        lw(6, 4, 5),
        add(6, 6, 10),
        addi(11, 6, 0),
        jal(0, 232),
    ]
}

// Its entry counts are filled in; then thread 0 is spent once, and the kernel polls.
fn filling() -> [Inst; 9]
    ensures value { result ≡ filling }
{
    [
        lw(12, 12, 5),
        addi(5, 5, 16),
        lw(28, 0, 5),
        sw(28, 0, 6),
        addi(5, 5, 4),
        addi(6, 6, 8),
        addi(7, 7, -1),
        branch(BranchName::Bne, 7, 0, -20),
        jal(0, 48),
    ]
}

// A word is delivered.
fn push_delivering(words: &mut Vec<u32>) -> Result<(), NoMemory>
    ensures ok { OnOk result (words.new.items ≡ words.old.items ++ words_of delivering) }
{
    push_insts(words, &addressed())?;
    push_insts(words, &delivering_behind())
}

// Once register 10 has the address of its frame.
fn delivering_behind() -> [Inst; 11]
    ensures value { addressed ++ result ≡ delivering }
{
    [
        lw(5, TABLE_AT, 10),
        slli(6, 12, 4),
        add(5, 5, 6),
        lw(6, 0, 5),
        add(6, 6, 10),
        sw(13, 0, 6),
        lw(11, 4, 5),
        add(11, 11, 10),
        lw(12, 8, 5),
        jal(1, 8),
        jal(0, -176),
    ]
}

// One of a thread's entry count is spent.
fn post() -> [Inst; 17]
    ensures value { result ≡ post }
{
    [
        lw(5, 0, 11),
        addi(5, 5, -1),
        sw(5, 0, 11),
        branch(BranchName::Bne, 5, 0, 52),
        sw(12, 0, 11),
        lw(6, HEAD_AT, 10),
        sw(6, NEXT_AT, 11),
        sw(11, HEAD_AT, 10),
        branch(BranchName::Bne, 6, 0, 32),
        branch(BranchName::Beq, 10, 8, 28),
        sw(0, LINK_AT, 10),
        branch(BranchName::Bne, 18, 0, 12),
        addi(9, 10, 0),
        jal(0, 8),
        sw(10, LINK_AT, 18),
        addi(18, 10, 0),
        jalr(0, 1, 0),
    ]
}

// The latest ready thread of the current frame is run, or one of the front frame of the queue.
fn running() -> [Inst; 10]
    ensures value { result ≡ running }
{
    [
        branch(BranchName::Bne, 8, 0, 20),
        addi(8, 9, 0),
        lw(9, LINK_AT, 8),
        branch(BranchName::Bne, 9, 0, 8),
        addi(18, 0, 0),
        lw(11, HEAD_AT, 8),
        lw(6, NEXT_AT, 11),
        sw(6, HEAD_AT, 8),
        lw(5, 0, 11),
        jalr(0, 5, 0),
    ]
}

// A thread stops: its frame owes one less, and is given back where it owes nothing.
fn stopping() -> [Inst; 8]
    ensures value { result ≡ stopping }
{
    [
        lw(5, OWED_AT, 8),
        addi(5, 5, -1),
        sw(5, OWED_AT, 8),
        branch(BranchName::Bne, 5, 0, -312),
        lw(10, NUMBER_AT, 8),
        addi(17, 0, 6),
        Inst::Ecall,
        jal(0, -328),
    ]
}

// A frame that is begun owes its threads, and its slots but the first two are 0.
fn clearing() -> [Inst; 8]
    ensures value { result ≡ clearing }
{
    [
        lw(7, 8, 5),
        sw(7, OWED_AT, 10),
        addi(28, 10, SLOTS_AT + 8),
        branch(BranchName::Beq, 28, 6, 16),
        sw(0, 0, 28),
        addi(28, 28, 4),
        jal(0, -12),
        jal(0, -256),
    ]
}

// Where register 11 has a frame's number, register 10 gets its address.
fn addressed() -> [Inst; 2]
    ensures value { result ≡ addressed }
{
    [operate(RName::Mul, 10, 11, 20), add(10, 10, 19)]
}
