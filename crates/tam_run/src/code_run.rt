// One run of thread code or of machine code, from its opening to its text.
ghost use Rattle.std.specs.Prelude.{◌≡◌, ◌<◌, length};
ghost use Rattle.tam_msgs.specs.Messages.{AreLimits};
ghost use Rattle.tl0_code.specs.ThreadCode.{code_text};
ghost use Rattle.tl0_code.specs.ThreadRuns.{thread_told};
ghost use Rattle.tam_run.specs.Accounts.{image_account, plain_account};
ghost use Rattle.tam_run.specs.HandedOut.{HandsOutExec};
ghost use Rattle.tam_run.specs.Writing.{Executes, CountsExec};

use crate::following::follow;
use crate::image_run::ImageRun;
use crate::{Exec, Outcome};
use rv_image::Image;
use rv_machine::Rv;
use std::alloc::Global;
use tam_edge::Sink;
use tam_msgs::{Limits, Order, Stop};
use tl0_check::Checked0;
use tl0_code::Program0;
use tl0_machine::Machine0;

// How many results `main` has.
fn main_results(program: &Program0) -> u32
    requires there { program.now.main < length program.now.codes }
    ensures value { result ≡ (code_text program.now program.now.main).results }
{
    program.codes()[program.main() as usize].results()
}

/// Runs thread code that no rule refuses on arguments under an order list, and writes the text of its run, one write for each line.
///
/// docs/FORMATS.md, "The text of a run".
pub fn run_code<K: Sink>(
    alloc: Global,
    code: Checked0,
    args: &[u32],
    order: Order,
    limits: Limits,
    out: &mut K,
) -> Exec
    requires one_each { length args.now ≡ (code_text code code.main).params }
    requires limits { AreLimits limits }
    ensures text { Executes (plain_account (thread_told code args.now order limits)) (K.taken out.old) (K.taken out.new) result }
    ensures counted { CountsExec (K.faults out.old) (K.faults out.new) result }
{
    let results = main_results(code.program());
    match Machine0::new(alloc, code, args, limits) {
        Ok(mut machine) => follow(alloc, &mut machine, results, order, out),
        Err(error) => Exec::Run(Outcome::Stopped(Stop::from(error))),
    }
}

/// Runs machine code on arguments under an order list, and writes the text of its run, one write for each line. Where neither want of memory nor a fault
/// of a write broke that off, the machine that was run is handed out.
///
/// docs/FORMATS.md, "The text of a run".
pub fn run_image<K: Sink>(
    alloc: Global,
    image: &Image,
    args: &[u32],
    order: Order,
    limits: Limits,
    machine: &mut Option<Rv>,
    out: &mut K,
) -> Exec
    requires one_each { length args.now ≡ image.now.params }
    requires limits { AreLimits limits }
    ensures text { Executes (image_account image.now args.now order limits) (K.taken out.old) (K.taken out.new) result }
    ensures counted { CountsExec (K.faults out.old) (K.faults out.new) result }
    ensures machine { HandsOutExec (image_account image.now args.now order limits).machine machine.old machine.new result }
{
    let mut run = match ImageRun::new(alloc, image, args, limits) {
        Ok(run) => run,
        Err(error) => return Exec::Run(Outcome::Stopped(Stop::from(error))),
    };
    let results = run.results();
    let exec = follow(alloc, &mut run, results, order, out);
    if exec.is_whole() {
        *machine = Some(run.into_machine());
    }
    exec
}
