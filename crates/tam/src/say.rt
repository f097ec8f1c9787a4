// A text under an ending.
ghost use Rattle.std.specs.Prelude.{◌≡◌, ◌≢◌, MatchResult};
ghost use Rattle.tam_input.specs.declared.ending.Ending.TheVariants.{NoMemory, WriteFault};
ghost use Rattle.tam_input.specs.Refusing.{no_memory_line};
ghost use Rattle.tam.specs.Headline.{IsSaid};

use tam_edge::{Sink, write_whole};
use tam_input::Ending;

/// Writes a text, and answers the ending, or that of a write fault.
pub fn say<K: Sink>(text: &[u8], ending: Ending, out: &mut K) -> Ending
    requires no_fault { ending ≢ WriteFault }
    ensures said { IsSaid ending text.now result (K.taken out.old) (K.taken out.new) (K.faults out.old) (K.faults out.new) }
{
    match write_whole(out, text) {
        Ok(()) => ending,
        Err(_) => Ending::WriteFault,
    }
}

/// Says that memory was wanted.
pub fn say_no_memory<K: Sink>(out: &mut K) -> Ending
    ensures said { IsSaid NoMemory no_memory_line result (K.taken out.old) (K.taken out.new) (K.faults out.old) (K.faults out.new) }
{
    say(b"no memory\n", Ending::NoMemory, out)
}

/// Writes a text that was made, if it was, and answers the ending; else says that memory was wanted.
pub fn say_made<E: Drop, K: Sink>(made: Result<Vec<u8>, E>, ending: Ending, out: &mut K) -> Ending
    requires no_fault { ending ≢ WriteFault }
    ensures said { MatchResult made
        (λ text. IsSaid ending text.items result (K.taken out.old) (K.taken out.new) (K.faults out.old) (K.faults out.new))
        (λ _. IsSaid NoMemory no_memory_line result (K.taken out.old) (K.taken out.new) (K.faults out.old) (K.faults out.new)) }
{
    match made {
        Ok(text) => say(&text, ending, out),
        Err(_) => say_no_memory(out),
    }
}
