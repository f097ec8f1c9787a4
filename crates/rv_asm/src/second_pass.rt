// The second pass: the words one by one, up to the first whose label isn't there or too far.
ghost use Rattle.std.specs.Prelude.{◌≡◌, ◌≤◌, [], length, map, IfOk, OnOk, IfErr};
ghost use Rattle.rv_image.specs.ImageFiles.{max_words};
ghost use Rattle.rv_asm.specs.Faults.{distance, word_at, second_pass, IsFirst};
ghost use Rattle.rv_asm.specs.Reading.{words_at};
ghost use Rattle.rv_asm.specs.Sound.{codes_of, all_there};
ghost use Rattle.rv_asm.specs.PassView.{labels_seen, placed_seen};

use crate::jump::inst_by;
use crate::pass::{Draft, Placed, find};
use crate::{AsmCause, AsmError};
use indexmap::IndexMap;
use rv_inst::encode;
use std::alloc::Global;

// The bytes from a word to a label, by the numbers of words before them.
fn distance(at: u32, to: u32) -> u32
    ensures value { result ≡ distance at to }
{
    to.wrapping_sub(at).wrapping_mul(4)
}

// The word of what stands behind so many words.
fn word_at(labels: &IndexMap<&[u8], u32>, at: u32, placed: &Placed<'_>) -> Result<u32, AsmCause>
    ensures value { result ≡ word_at (labels_seen labels.now.entries) at (placed_seen placed.now).1 }
{
    match placed.draft {
        Draft::Word(word) => Ok(word),
        Draft::Goto(jump) => {
            let Some(to) = find(labels, placed.label) else {
                return Err(AsmCause::UnknownName);
            };
            let Some(inst) = inst_by(jump, distance(at, to)) else {
                return Err(AsmCause::Offset);
            };
            Ok(encode(&inst))
        }
    }
}

/// The words, where each has one.
pub fn words_of(
    alloc: Global,
    labels: &IndexMap<&[u8], u32>,
    placed: &[Placed<'_>],
) -> Result<Vec<u32>, AsmError>
    requires few { length placed.now ≤ max_words }
    ensures ok { IfOk result (λ words. all_there words.items ≡ words_at (labels_seen labels.now.entries) 0 (codes_of (map placed_seen placed.now))) }
    ensures len { IfOk result (λ words. length words.items ≡ length placed.now) }
    ensures faultless { OnOk result (second_pass (labels_seen labels.now.entries) 0 (map placed_seen placed.now) ≡ []) }
    ensures refused { IfErr result (IsFirst (second_pass (labels_seen labels.now.entries) 0 (map placed_seen placed.now))) }
{
    let mut words = Vec::new(alloc);
    let mut at: u32 = 0;
    let mut rest = placed;
    while let [first, after @ ..] = rest {
        match word_at(labels, at, first) {
            Ok(word) => words.push(word)?,
            Err(cause) => {
                return Err(AsmError::At {
                    line: first.line,
                    cause,
                });
            }
        }
        at += 1;
        rest = after;
    }
    Ok(words)
}
