// The lines behind those of the results.
ghost use Rattle.std.specs.Prelude.{◌≡◌, ◌++◌, ◌∷◌, ◌==◌, map, filter, IsOk, IfOk, OnOk, IfSome};
ghost use Rattle.tam_word.specs.Lists.{below, any_of, where_so};
ghost use Rattle.tam_msgs.specs.Runs.{line, end_text, missing_line, is_without};
ghost use Rattle.tam_msgs.specs.Runs as Runs;
ghost use Rattle.tam_run.specs.Accounts.{told_of, closing_lines};
ghost use Rattle.tam_run.specs.Ends.{end_of_stop};
ghost use Rattle.tam_run.specs.LineLists.{texts_of};
ghost use Rattle.tam_run.specs.Tallies.{tally_lines};

use crate::Tally;
use crate::lines::{missing_line, push_line, push_tally, stop_line};
use std::alloc::{AllocError, Global};
use tam_msgs::Stop;

/// Whether a result of that place was printed.
pub fn is_printed(printed: &[(u32, u32)], place: u32) -> bool
    ensures value { result ≡ any_of (λ pair. pair.0 == place) printed.now }
{
    let mut rest = printed;
    while let [pair, after @ ..] = rest {
        if pair.0 == place {
            return true;
        }
        rest = after;
    }
    false
}

// Adds the line of a result, if it has none.
fn push_if_missing(
    alloc: Global,
    lines: &mut Vec<Vec<u8>>,
    printed: &[(u32, u32)],
    place: u32,
) -> Result<(), AllocError>
    ensures ok { OnOk result (texts_of lines.new.items ≡ texts_of lines.old.items ++ map missing_line (where_so (is_without printed.now place) place)) }
{
    if !is_printed(printed, place) {
        push_line(lines, missing_line(alloc, place)?)?;
    }
    Ok(())
}

/// Adds the lines of the results below a number that have none.
pub fn push_missing(
    alloc: Global,
    lines: &mut Vec<Vec<u8>>,
    printed: &[(u32, u32)],
    results: u32,
) -> Result<(), AllocError>
    ensures ok { OnOk result (texts_of lines.new.items ≡ texts_of lines.old.items ++ map missing_line (filter (is_without printed.now) (below results))) }
{
    for place in 0..results {
        push_if_missing(alloc, lines, printed, place)?;
    }
    Ok(())
}

/// The lines behind the results of a quiet run, whose `main` has so many results.
pub fn quiet_lines(
    alloc: Global,
    results: u32,
    printed: &[(u32, u32)],
    tally: Tally,
) -> Result<Vec<Vec<u8>>, AllocError>
    ensures value { IfOk result (λ lines. texts_of lines.items
        ≡ closing_lines (told_of printed.now Runs.Quiet results tally.counts) tally.instructions) }
{
    let mut lines = Vec::new(alloc);
    push_line(&mut lines, Vec::from_slice(alloc, b"quiet\n")?)?;
    push_missing(alloc, &mut lines, printed, results)?;
    push_tally(alloc, &mut lines, tally)?;
    Ok(lines)
}

/// The lines behind the results of a run that stopped so.
pub fn stopped_lines(alloc: Global, stop: Stop, tally: Tally) -> Result<Vec<Vec<u8>>, AllocError>
    ensures value { IfOk result (λ lines. IfSome (end_of_stop stop) (λ how. texts_of lines.items ≡ line (end_text how) ∷ tally_lines tally)) }
{
    end_lines(alloc, stop_line(alloc, stop), tally)
}

/// The lines behind the results of a run that didn't become quiet, by the line of its end.
pub fn end_lines(
    alloc: Global,
    end: Result<Vec<u8>, AllocError>,
    tally: Tally,
) -> Result<Vec<Vec<u8>>, AllocError>
    ensures value { IfOk result (λ lines. IfOk end (λ first. texts_of lines.items ≡ first.items ∷ tally_lines tally)) }
    ensures made { IsOk result → IsOk end }
{
    let mut lines = Vec::new(alloc);
    push_line(&mut lines, end?)?;
    push_tally(alloc, &mut lines, tally)?;
    Ok(lines)
}
