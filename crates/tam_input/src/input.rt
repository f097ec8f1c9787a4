// What is read before a job is answered: its words, its order file and its own file.
ghost use Rattle.std.specs.Prelude.{◌≡◌, ◌≤◌, [], length, map, string_bytes, Some, None, IfSome, IfNone, IfOk, IfErr};
ghost use Rattle.tam_edge.specs.Faults.{CountsEndWhole};
ghost use Rattle.tam_words.specs.Jobs.{asked, Job as Asks};
ghost use Rattle.tam_input.specs.Told.{told, ForSome, GivesEnds, OfSome};
ghost use Rattle.tam_input.specs.Refusing.{IsOrder, Refuses, file_count, most_bytes, text_file, unless_read};
ghost use Rattle.tam_input.specs.Inputs.{IsInput, IsFault, IsReadOut, Names, NamesFile, KeepsNamed, ReadsOut, request_of};
ghost use Rattle.tam_input.specs.Inputs.{RefusesFile, IsTextOf, RefusesText, IsOrderIn, RefusesOrder};

use crate::Refusal;
use std::alloc::Global;
use tam_edge::{Files, read_whole};
use tam_msgs::Order;
use tam_text::is_same;
use tam_words::{Job, Mode, read_words};

// The most bytes of an order file and of a graph's text.
const MOST_BYTES: u32 = 1_048_576;

// The most bytes of a text of thread code, of an assembly text and of an image.
const MOST_CODE_BYTES: u32 = 67_108_864;

/// A job with its order list and the bytes of its file.
#[derive(Drop)]
pub struct Input {
    pub job: Job,
    pub order: Order,
    pub text: Vec<u8>,
}

/// Reads what the words ask for: the order file, where one is named, and then the job's file, where its mode reads one. Where they are one, it is
/// read once, and the second holds what the first left of it, which is nothing.
///
/// docs/FORMATS.md, "Command line".
pub fn read_input<F: Files>(
    alloc: Global,
    words: &[String],
    files: &mut F,
) -> Result<Input, Refusal>
    // Some bytes of each file, which agree with all that is told, are what was read, or what is refused.
    ensures found { IfOk result (λ input. ForSome (F.left files.old) (λ contents. IsInput (asked (map string_bytes words.now)) contents
        (told F.left F.faults F.ends files.old) (told F.left F.faults F.ends files.new) (request_of input.job input.order) input.text.items)) }
    ensures few { IfOk result (λ input. length input.text.items ≤ most_bytes input.job.mode) }
    ensures refused { IfErr result (λ refusal. ForSome (F.left files.old) (λ contents. Refuses (asked (map string_bytes words.now)) contents
        (told F.left F.faults F.ends files.old) (told F.left F.faults F.ends files.new) refusal)) }

    // Nothing changes of a file that isn't named, and what is answered was read to its end.
    ensures files { KeepsNamed (Names (asked (map string_bytes words.now))) (told F.left F.faults F.ends files.old)
        (told F.left F.faults F.ends files.new) (IsFault result) }
    ensures read_out { IfOk result (λ _. ReadsOut (Names (asked (map string_bytes words.now))) (F.left files.old) (F.left files.new)) }
{
    let job = read_words(alloc, words)?;
    read_job(alloc, job, files)
}

// Reads the files of a job.
fn read_job<F: Files>(alloc: Global, job: Job, files: &mut F) -> Result<Input, Refusal>
    ensures found { IfOk result (λ input. ForSome (F.left files.old) (λ contents. IsInput (Asks job) contents
        (told F.left F.faults F.ends files.old) (told F.left F.faults F.ends files.new) (request_of input.job input.order) input.text.items)) }
    ensures few { IfOk result (λ input. length input.text.items ≤ most_bytes input.job.mode) }
    ensures refused { IfErr result (λ refusal. ForSome (F.left files.old) (λ contents. Refuses (Asks job) contents
        (told F.left F.faults F.ends files.old) (told F.left F.faults F.ends files.new) refusal)) }
    ensures files { KeepsNamed (NamesFile job) (told F.left F.faults F.ends files.old) (told F.left F.faults F.ends files.new) (IsFault result) }
    ensures read_out { IfOk result (λ _. ReadsOut (NamesFile job) (F.left files.old) (F.left files.new)) }
{
    let mut job = job;
    let order = read_order(alloc, &mut job, files)?;
    let text = read_text(alloc, &job, files)?;
    Ok(Input { job, order, text })
}

// The order list of a job. The empty one is left in it.
fn read_order<F: Files>(alloc: Global, job: &mut Job, files: &mut F) -> Result<Order, Refusal>
    ensures kept { job.new ≡ record job.old { order = [] } }
    ensures found { IfOk result (λ order. ForSome (F.left files.old) (λ contents. IsOrder job.old contents order)) }
    ensures refused { IfErr result (λ refusal. ForSome (F.left files.old) (λ contents. Refuses (Asks job.old) contents
        (told F.left F.faults F.ends files.old) (told F.left F.faults F.ends files.new) refusal)) }
    ensures ended { IfOk result (λ _. GivesEnds (told F.left F.faults F.ends files.old) (told F.left F.faults F.ends files.new)
        (file_count job.old.order_file)) }
    ensures files { KeepsNamed (λ file. job.old.order_file ≡ Some file) (told F.left F.faults F.ends files.old)
        (told F.left F.faults F.ends files.new) (IsFault result) }
    ensures read_out { IfOk result (λ _. ReadsOut (λ file. job.old.order_file ≡ Some file) (F.left files.old) (F.left files.new)) }
{
    let order = job.take_order();
    match job.order_file() {
        Some(file) => read_order_file(alloc, file, files),
        None => Ok(order),
    }
}

// The order list in a file.
fn read_order_file<F: Files>(alloc: Global, file: &str, files: &mut F) -> Result<Order, Refusal>
    ensures found { IfOk result (λ order. IsOrderIn (F.left files.old file.now) order) }
    ensures read_out { IfOk result (λ _. IsReadOut (F.left files.old file.now) (F.left files.new file.now)) }
    ensures refused { IfErr result (λ refusal. RefusesOrder (told F.left F.faults F.ends files.old) (told F.left F.faults F.ends files.new) file.now refusal) }
    ensures ended { IfOk result (λ _. GivesEnds (told F.left F.faults F.ends files.old) (told F.left F.faults F.ends files.new) 1) }
    ensures files { KeepsNamed (λ other. file.now ≡ other) (told F.left F.faults F.ends files.old) (told F.left F.faults F.ends files.new) (IsFault result) }
{
    let text = read_file(alloc, file, MOST_BYTES, files)?;
    Ok(Order::read(alloc, &text)?)
}

// The text of a job whose order list was read.
fn read_text<F: Files>(alloc: Global, job: &Job, files: &mut F) -> Result<Vec<u8>, Refusal>
    ensures few { IfOk result (λ text. length text.items ≤ most_bytes job.now.mode) }
    ensures content { IfOk result (λ text. IsTextOf (F.left files.old) (text_file job.now) text.items) }
    ensures read_out { IfOk result (λ _. ReadsOut (λ file. text_file job.now ≡ Some file) (F.left files.old) (F.left files.new)) }
    ensures refused { IfErr result (λ refusal. RefusesText (told F.left F.faults F.ends files.old) (told F.left F.faults F.ends files.new) (text_file job.now)
        (most_bytes job.now.mode) refusal) }
    ensures ended { IfOk result (λ _. GivesEnds (told F.left F.faults F.ends files.old) (told F.left F.faults F.ends files.new)
        (file_count (text_file job.now))) }
    ensures endless { IfErr result (λ _. GivesEnds (told F.left F.faults F.ends files.old) (told F.left F.faults F.ends files.new) 0) }
    ensures files { KeepsNamed (λ file. text_file job.now ≡ Some file) (told F.left F.faults F.ends files.old) (told F.left F.faults F.ends files.new)
        (IsFault result) }
{
    match text_file(job) {
        Some(file) => read_file(alloc, file, most_bytes(job.mode()), files),
        None => Ok(Vec::new(alloc)),
    }
}

// The file whose text a job reads, behind its order file.
fn text_file(job: &Job) -> Option<&str>
    ensures found { IfSome result (λ file. text_file job.now ≡ Some file.now) }
    ensures absent { IfNone result (text_file job.now ≡ None) }
{
    if !job.mode().reads_file() {
        return None;
    }
    let name = job.name();
    match job.order_file() {
        Some(file) => unless_same(file, name),
        None => Some(name),
    }
}

// A file, if it isn't the one that was read.
fn unless_same<'a>(read: &str, name: &'a str) -> Option<&'a str>
    ensures found { IfSome result (λ file. unless_read (Some read.now) name.now ≡ Some file.now) }
    ensures absent { IfNone result (unless_read (Some read.now) name.now ≡ None) }
{
    if is_same(read.as_bytes(), name.as_bytes()) {
        None
    } else {
        Some(name)
    }
}

// The most bytes of the text that a mode reads: none where it reads no file.
fn most_bytes(mode: Mode) -> u32
    ensures value { result ≡ most_bytes mode }
{
    match mode {
        Mode::Graph
        | Mode::Tl0
        | Mode::Rv32
        | Mode::Check
        | Mode::EmitDg
        | Mode::Sets
        | Mode::Parts
        | Mode::EmitTl0
        | Mode::EmitAsm
        | Mode::EmitImage => MOST_BYTES,
        Mode::Assemble | Mode::ExecTl0 | Mode::ExecRv32 => MOST_CODE_BYTES,
        Mode::Make => 0,
    }
}

// All that is left of a file, at most so many bytes.
fn read_file<F: Files>(
    alloc: Global,
    file: &str,
    most: u32,
    files: &mut F,
) -> Result<Vec<u8>, Refusal>
    ensures few { IfOk result (λ bytes. length bytes.items ≤ most) }
    ensures content { IfOk result (λ bytes. OfSome (F.left files.old file.now) (λ content. bytes.items ≡ content)) }
    ensures read_out { IfOk result (λ _. IsReadOut (F.left files.old file.now) (F.left files.new file.now)) }
    ensures refused { IfErr result (λ refusal. RefusesFile (told F.left F.faults F.ends files.old) (told F.left F.faults F.ends files.new) file.now
        most refusal) }
    ensures ended { CountsEndWhole (F.ends files.old) (F.ends files.new) result }
    ensures files { KeepsNamed (λ other. file.now ≡ other) (told F.left F.faults F.ends files.old) (told F.left F.faults F.ends files.new) (IsFault result) }
{
    Ok(read_whole(alloc, files, file, most)?)
}
