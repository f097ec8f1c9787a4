// What is answered to the file of an image.
ghost use Rattle.std.specs.Prelude.{◌≡◌, ◌^◌, ℕ, List};
ghost use Rattle.tam_words.specs.declared.mode.Mode.TheVariants.{ExecRv32};
ghost use Rattle.tam_input.specs.Inputs.{request_of};
ghost use Rattle.rv_image.specs.ImageFiles.{image_bytes};
ghost use Rattle.rv_image.specs.ImageLaws.{AreBelow};
ghost use Rattle.tam.specs.Answers.{AnswerTo};
ghost use Rattle.tam.specs.Machines.{LeavesMachine, HandsOver};
ghost use Rattle.tam.specs.Headline.{IsDone};

use crate::outcome::answer_exec;
use crate::refusal::{image_cause_name, refused_byte_line};
use crate::say::{say, say_made, say_no_memory};
use rv_image::{Image, ImageError, read_image};
use rv_machine::Rv;
use std::alloc::Global;
use tam_edge::Sink;
use tam_input::Ending;
use tam_msgs::Order;
use tam_run::run_image;
use tam_words::Job;

/// Answers the file of an image with its run.
///
/// docs/FORMATS.md, "Command line"; docs/MACHINE.md, "Image file" and "The host".
pub fn answer_image_file<K: Sink>(
    alloc: Global,
    file: &[u8],
    job: &Job,
    order: Order,
    machine: &mut Option<Rv>,
    out: &mut K,
) -> Ending
    requires mode { job.now.mode ≡ ExecRv32 }
    ensures done { IsDone (AnswerTo (request_of job.now order) file.now) result
        (K.taken out.old) (K.taken out.new) (K.faults out.old) (K.faults out.new) }
    ensures machine { HandsOver (LeavesMachine (request_of job.now order) file.now) result machine.old machine.new }
{
    match read_image(alloc, file) {
        Ok(image) => run_read(alloc, &image, job, order, machine, out),
        Err(ImageError::Bad { at, cause }) => {
            say_made(
                refused_byte_line(alloc, at, image_cause_name(cause)),
                Ending::Refused,
                out,
            )
        }
        Err(ImageError::NoMemory) => say_no_memory(out),
    }
}

// Runs an image that was read on the job's arguments, within its limits.
fn run_read<K: Sink>(
    alloc: Global,
    image: &Image,
    job: &Job,
    order: Order,
    machine: &mut Option<Rv>,
    out: &mut K,
) -> Ending
    requires mode { job.now.mode ≡ ExecRv32 }
    ensures done { (bytes : List ℕ) → bytes ≡ image_bytes image.now → IsDone (AnswerTo (request_of job.now order) bytes) result
        (K.taken out.old) (K.taken out.new) (K.faults out.old) (K.faults out.new) }
    ensures machine { (bytes : List ℕ) → bytes ≡ image_bytes image.now
        → HandsOver (LeavesMachine (request_of job.now order) bytes) result machine.old machine.new }
{
    are_words(image.words());
    let args = job.args();
    if args.len() != image.params() as usize {
        return say(b"usage ArgsCount\n", Ending::Usage, out);
    }
    let exec = run_image(alloc, image, args, order, job.limits(), machine, out);
    answer_exec(exec, out)
}

// What a word is, of each of some words.
fn are_words(words: &[u32])
    ensures below { AreBelow (2 ^ 32) words.now }
{}
