// Lines into a sink: one write for each.
ghost use Rattle.std.specs.Prelude.{◌≡◌, ◌++◌, ◌∷◌, [], Err, OnOk, OnErr, MatchResult};
ghost use Rattle.std.specs.Io.KnownBytes.{Appends};
ghost use Rattle.tam_edge.specs.Faults.{CountsPut};
ghost use Rattle.tam_edge.specs.Whole.{AppendsPrefix};
ghost use Rattle.tam_msgs.specs.Runs.{result_line};
ghost use Rattle.tam_run.specs.LineLists.{bytes_of};
ghost use Rattle.tam_run.specs.Writing.{Puts, CountsPuts};

use crate::{Broken, lines};
use std::alloc::{AllocError, Global};
use tam_edge::{Failed, Sink, write_whole};

// Writes lines, one behind another.
fn write_lines<K: Sink>(out: &mut K, lines: &[Vec<u8>]) -> Result<(), Failed>
    ensures ok { OnOk result (Appends (K.taken out.old) (K.taken out.new) (bytes_of lines.now)) }
    ensures err { OnErr result (AppendsPrefix (K.taken out.old) (K.taken out.new) (bytes_of lines.now)) }
    ensures counted { CountsPut (K.faults out.old) (K.faults out.new) result }
{
    for line in lines {
        write_whole(out, line)?;
    }
    Ok(())
}

/// Writes lines that were made, if they were.
pub fn put_lines<K: Sink>(made: Result<Vec<Vec<u8>>, AllocError>, out: &mut K) -> Result<(), Broken>
    ensures text { MatchResult made (λ lines. Puts (K.taken out.old) (K.taken out.new) (bytes_of lines.items) result)
        (λ _. (result ≡ Err Broken.NoMemory) × (K.taken out.new ≡ K.taken out.old)) }
    ensures counted { CountsPuts (K.faults out.old) (K.faults out.new) result }
{
    write_lines(out, &made?)?;
    Ok(())
}

// Writes a line that was made, if it was.
fn put_line<K: Sink>(made: Result<Vec<u8>, AllocError>, out: &mut K) -> Result<(), Broken>
    ensures text { MatchResult made (λ line. Puts (K.taken out.old) (K.taken out.new) line.items result)
        (λ _. (result ≡ Err Broken.NoMemory) × (K.taken out.new ≡ K.taken out.old)) }
    ensures counted { CountsPuts (K.faults out.old) (K.faults out.new) result }
{
    write_whole(out, &made?)?;
    Ok(())
}

/// Writes the line of a result, and notes it.
pub fn print_result<K: Sink>(
    alloc: Global,
    printed: &mut Vec<(u32, u32)>,
    place: u32,
    word: u32,
    out: &mut K,
) -> Result<(), Broken>
    ensures noted { OnOk result (printed.new.items ≡ printed.old.items ++ (place, word) ∷ []) }
    ensures text { Puts (K.taken out.old) (K.taken out.new) (result_line (place, word)) result }
    ensures counted { CountsPuts (K.faults out.old) (K.faults out.new) result }
{
    printed.push((place, word))?;
    put_line(lines::result_line(alloc, place, word), out)
}
