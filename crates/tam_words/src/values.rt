// The values of options.
ghost use Rattle.std.specs.Prelude.{◌≡◌, ℕ, List, map, option_map, IfOk, IfErr, IfSome, IfNone, Some, None};
ghost use Rattle.std.specs.Borrow.{Bor};
ghost use Rattle.std.specs.List.{slice_split};
ghost use Rattle.tam_words.specs.declared.usage_cause.UsageCause.TheVariants.{Args, Order as Bad_order};
ghost use Rattle.tam_words.specs.Options.{all_words, args_of, is_comma, short_order_of, limit_of};
ghost use Rattle.tam_words.specs.Jobs.{some_or};
ghost use Rattle.tam_words.specs.Tells.{TellsOf};

use crate::usage_cause::UsageCause;
use crate::words_error::WordsError;
use std::alloc::{AllocError, Global};
use tam_msgs::Order;
use tam_word::{read_number, read_word};

// The most bytes of an order list.
const MOST_ORDER_BYTES: usize = 1_048_576;

/// The words of a list that is empty or joined by commas.
pub fn read_args(alloc: Global, text: &[u8]) -> Result<Vec<u32>, WordsError>
    ensures found { IfOk result (λ args. args_of text.now ≡ Some args.items) }
    ensures refused { IfErr result (TellsOf (some_or Args (args_of text.now))) }
{
    match words_of(alloc, text)? {
        Some(args) => Ok(args),
        None => Err(WordsError::Usage(UsageCause::Args)),
    }
}

/// The order of a list that isn't too long.
pub fn read_order(alloc: Global, text: &[u8]) -> Result<Order, WordsError>
    ensures found { IfOk result (λ order. short_order_of text.now ≡ Some order) }
    ensures refused { IfErr result (TellsOf (some_or Bad_order (short_order_of text.now))) }
{
    if text.len() > MOST_ORDER_BYTES {
        return Err(WordsError::Usage(UsageCause::Order));
    }
    Ok(Order::read(alloc, text)?)
}

/// The number that a text spells, if it is one from the least to the most; the usual one where there is no text.
pub fn read_limit(text: Option<&str>, usual: u32, least: u32, most: u32) -> Option<u32>
    ensures value { result ≡ limit_of usual least most (option_map (λ (text : Bor (List ℕ)). text.now) text.entry) }
{
    match text {
        None => Some(usual),
        Some(text) => match read_number(text.as_bytes(), most) {
            Some(number) if number >= least => Some(number),
            _ => None,
        },
    }
}

// The words of a list that is empty or joined by commas, if each is one.
fn words_of(alloc: Global, text: &[u8]) -> Result<Option<Vec<u32>>, AllocError>
    ensures found { IfOk result (λ found. IfSome found (λ args. args_of text.now ≡ Some args.items)) }
    ensures absent { IfOk result (λ found. IfNone found (args_of text.now ≡ None)) }
{
    match text {
        [] => Ok(Some(Vec::new(alloc))),
        [_, ..] => {
            let parts = parts_of(alloc, text)?;
            all_words(alloc, &parts)
        }
    }
}

fn is_comma(byte: u8) -> bool
    ensures value { result ≡ is_comma byte }
{
    byte == b','
}

// What stands between commas.
fn parts_of(alloc: Global, text: &[u8]) -> Result<Vec<&[u8]>, AllocError>
    ensures value { IfOk result (λ parts. map (λ part. part.now) parts.items ≡ slice_split is_comma text.now) }
{
    text.split(|byte| is_comma(*byte)).collect(alloc)
}

// The words that the texts stand for, if each stands for one.
fn all_words(alloc: Global, texts: &[&[u8]]) -> Result<Option<Vec<u32>>, AllocError>
    ensures found { IfOk result (λ found. IfSome found (λ words. all_words (map (λ text. text.now) texts.now) ≡ Some words.items)) }
    ensures absent { IfOk result (λ found. IfNone found (all_words (map (λ text. text.now) texts.now) ≡ None)) }
{
    let mut words = Vec::new(alloc);
    let mut rest = texts;
    while let [text, after @ ..] = rest {
        match read_word(text) {
            Some(word) => words.push(word)?,
            None => return Ok(None),
        }
        rest = after;
    }
    Ok(Some(words))
}
