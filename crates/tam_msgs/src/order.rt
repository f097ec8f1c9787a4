// The order in which a run goes on.
ghost use Rattle.std.specs.Prelude.{◌≡◌, ◌<◌, ◌≤◌, ◌∷◌, [], ◌++◌, ℕ, List, length, false, Ok, Err, IfOk, IfNone, option_to_list, MatchOption};
ghost use Rattle.std.specs.List.{slice_split, position};
ghost use Rattle.tam_msgs.specs.Runs.{choice};
ghost use Rattle.tam_msgs.specs.Orders.{order_of, item_of, is_joint, items_from, without_last_line_feed};
ghost use Rattle.tam_msgs.specs.declared.item.Item.{Item};
ghost use Rattle.tam_msgs.specs.declared.order.OrderError.TheVariants.{Bad, NoMemory as Wants_memory};

use crate::choice::Choice;
use crate::item::Item;
use std::alloc::{AllocFailed, Global};
use std::marker::Model;
use tam_word::read_number;

/// Why a text is no order list: the number, from 0, of its first item that isn't one.
#[derive(Clone, Copy, Debug, PartialEq, Eq)]
pub enum OrderError {
    Bad { place: u32 },
    NoMemory,
}

impl<T: Drop> From<AllocFailed<T>> for OrderError {
    ghost from_gives = { λ _ error. error ≡ Wants_memory };

    fn from(_failed: AllocFailed<T>) -> OrderError {
        OrderError::NoMemory
    }
}

/// An order list, seen as the items that are left.
#[derive(Drop)]
pub struct Order {
    items: Vec<Item>,
    next: usize,
}

impl Model for Order {
    ghost use Rattle.std.specs.Prelude.{List, drop};
    ghost use Rattle.tam_msgs.specs.declared.item.Item.{Item};

    ghost Value = { List Item };

    ghost view = { λ order. drop order.next order.items.items };
}

impl Order {
    /// No items. Takes no memory.
    pub fn none(alloc: Global) -> Order
        ensures empty { result ≡ [] }
    {
        Order {
            items: Vec::new(alloc),
            next: 0,
        }
    }

    /// The order list of a text: none, or items joined by one `,` or one LF each, with one more LF allowed behind the last. An item is
    /// `r` or a number in plain decimal up to 4294967295. Want of memory may hide a bad item.
    ///
    /// docs/FORMATS.md, "Order lists".
    pub fn read(alloc: Global, text: &[u8]) -> Result<Order, OrderError>
        requires short { length text.now ≤ 1048576 }
        ensures ok { IfOk result (λ order. order_of text.now ≡ Ok order) }
        ensures bad { (place : ℕ) → result ≡ Err (Bad place) → order_of text.now ≡ Err place }
    {
        if text.is_empty() {
            return Ok(Order::none(alloc));
        }
        match read_items(alloc, without_last_line_feed(text)) {
            Ok(items) => Ok(Order { items, next: 0 }),
            Err(error) => Err(error),
        }
    }

    /// Chooses what comes next, by whether something is ready and how many messages are pending, and goes on by an item.
    ///
    /// docs/FORMATS.md, "Order lists".
    pub fn choose(&mut self, ready: bool, pending: u64) -> Choice
        ensures value { (result, self.new) ≡ choice self.old ready pending }
    {
        if !ready && pending == 0 {
            return Choice::Quiet;
        }
        choice_by(self.next_item(), ready, pending)
    }

    fn next_item(&mut self) -> Option<Item>
        ensures value { self.old ≡ option_to_list result ++ self.new }
        ensures none_left { IfNone result (self.new ≡ []) }
    {
        if self.next >= self.items.len() {
            return None;
        }
        let item = self.items[self.next];
        self.next += 1;
        Some(item)
    }
}

// What comes next by the next item, where something is left to do.
fn choice_by(item: Option<Item>, ready: bool, pending: u64) -> Choice
    requires value { ready ≡ false → 0 < pending }
    ensures value { (rest : List Item) → IfNone item (rest ≡ []) → (result, rest) ≡ choice (option_to_list item ++ rest) ready pending }
{
    match item {
        Some(Item::Place(k)) if pending > 0 => Choice::Deliver((u64::from(k) % pending) as u32),
        _ => if ready {
            Choice::Run
        } else {
            Choice::Deliver(0)
        },
    }
}

fn without_last_line_feed(text: &[u8]) -> &[u8]
    requires some { 0 < length text.now }
    ensures value { result.now ≡ without_last_line_feed text.now }
    ensures within { length result.now ≤ length text.now }
{
    let last = text.len() - 1;
    if text[last] == b'\n' {
        &text[..last]
    } else {
        text
    }
}

// The items of the pieces between the joints.
#[tactic(auto, using(crate::proofs::OrderPieces::piece_read))]
fn read_items(alloc: Global, text: &[u8]) -> Result<Vec<Item>, OrderError>
    requires short { length text.now ≤ 1048576 }
    ensures ok { IfOk result (λ v. items_from 0 (slice_split is_joint text.now) ≡ Ok v.items) }
    ensures bad { (place : ℕ) → result ≡ Err (Bad place) → items_from 0 (slice_split is_joint text.now) ≡ Err place }
{
    let mut items = Vec::new(alloc);
    let mut rest = text;
    loop {
        let (piece, behind) = split_piece(rest);
        let Some(item) = item_of(piece) else {
            return Err(OrderError::Bad {
                place: items.len() as u32,
            });
        };
        items.push(item)?;
        let Some(after) = behind else {
            return Ok(items);
        };
        rest = after;
    }
}

// The first piece, and what stands behind its joint, where there is one.
fn split_piece(text: &[u8]) -> (&[u8], Option<&[u8]>)
    ensures pieces { MatchOption result.1 (slice_split is_joint text.now ≡ result.0.now ∷ [])
        (λ behind. slice_split is_joint text.now ≡ result.0.now ∷ slice_split is_joint behind.now) }
    ensures shorter { MatchOption result.1 (0 ≤ length text.now) (λ behind. length behind.now < length text.now) }
{
    match first_joint(text) {
        None => (text, None),
        Some(len) => (&text[..len], Some(&text[len + 1..])),
    }
}

fn first_joint(text: &[u8]) -> Option<usize>
    ensures value { result ≡ position is_joint text.now }
{
    text.iter().position(|byte| is_joint(*byte))
}

fn is_joint(byte: u8) -> bool
    ensures value { result ≡ is_joint byte }
{
    byte == b',' || byte == b'\n'
}

// The item that a piece spells.
fn item_of(piece: &[u8]) -> Option<Item>
    ensures value { result ≡ item_of piece.now }
{
    match piece {
        [b'r'] => Some(Item::Ready),
        _ => read_number(piece, u32::MAX).map(Item::Place),
    }
}

#[cfg(test)]
mod tests {
    use super::*;
    use std::test::Fail;

    #[test]
    fn texts_of_orders(rt: HostRuntime) {
        let bad = |place: u32| Some(OrderError::Bad { place });
        let cases: [(&[u8], Option<OrderError>); 12] = [
            (b"", None),
            (b"r", None),
            (b"0,4294967295,r", None),
            (b"r\n12,r\n", None),
            (b"\n", bad(0)),
            (b"r\n\n", bad(1)),
            (b"r,", bad(1)),
            (b"r,\n", bad(1)),
            (b",r", bad(0)),
            (b"0,01", bad(1)),
            (b"4294967296", bad(0)),
            (b"r,r,R", bad(2)),
        ];
        for (text, error) in cases {
            assert_eq!(rt; Order::read(rt.alloc(), text).err(), error, "at {text:?}");
        }
    }

    // The rule of docs/FORMATS.md, "Order lists", by hand.
    #[test]
    fn an_order_chooses(rt: HostRuntime) -> Result<(), Fail> {
        let mut order = Order::read(rt.alloc(), b"r,5,7,r,3")?;
        let cases = [
            (true, 2, Choice::Run),
            (true, 3, Choice::Deliver(2)),
            (true, 0, Choice::Run),
            (false, 0, Choice::Quiet),
            (false, 4, Choice::Deliver(0)),
            (true, 2, Choice::Deliver(1)),
            (true, 9, Choice::Run),
            (false, 9, Choice::Deliver(0)),
        ];
        for (ready, pending, choice) in cases {
            assert_eq!(rt; order.choose(ready, pending), choice, "{ready} {pending}");
        }
        Ok(())
    }
}
