// The canonical text of a graph.
ghost use Rattle.std.specs.Prelude.{◌≡◌, ◌++◌, length, true, IfOk, OnOk};
ghost use Rattle.tam_graph.specs.Texts.{canonical};
ghost use Rattle.tam_graph.specs.Reading.{IsCodeOfText, Reads, is_short};
ghost use Rattle.tam_print.specs.PrintedLines.{code_text};

use crate::block::{blocks_of, push_block};
use crate::laws::law_canonical;
use crate::line::{push_alone, push_one};
use std::alloc::{AllocError, Global};
use tam_edge::NoMemory;
use tam_graph::{Code, Graph};

/// The canonical text of a graph.
///
/// docs/FORMATS.md, "Graph text".
pub fn print(alloc: Global, g: &Graph) -> Result<Vec<u8>, NoMemory>
    ensures value { IfOk result (λ text. text.items ≡ canonical g.now) }

    // It reads as the same graph, where no block has more vertices than a text may give it.
    ensures reads { IfOk result (λ text. is_short g.now ≡ true → Reads text.items g.now) }
{
    Ok(text_of(alloc, g)?)
}

// The text, where there is memory for it.
fn text_of(alloc: Global, g: &Graph) -> Result<Vec<u8>, AllocError>
    ensures value { IfOk result (λ text. text.items ≡ canonical g.now) }
    ensures reads { IfOk result (λ text. is_short g.now ≡ true → Reads text.items g.now) }
{
    law_canonical();
    let mut text = Vec::from_slice(alloc, b"dg 1\n")?;
    for n in 0..g.codes() {
        push_code(alloc, &mut text, g, g.code(n))?;
    }
    Ok(text)
}

// Adds the lines of a code.
fn push_code(alloc: Global, text: &mut Vec<u8>, g: &Graph, code: &Code) -> Result<(), AllocError>
    requires of_text { IsCodeOfText (length g.now.codes) code.now }
    ensures ok { OnOk result (text.new.items ≡ text.old.items ++ code_text g.now code.now) }
{
    let blocks = blocks_of(alloc, code)?;
    push_one(text, b"code", code.name().bytes())?;
    push_block(text, g, code, &blocks, 0, code.owners().len())?;
    push_alone(text, b"end")
}
