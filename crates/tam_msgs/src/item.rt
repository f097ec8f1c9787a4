// The items of an order list.

/// An item of an order list: run what is ready, or deliver a message, by a number that is taken modulo the count of pending ones.
///
/// docs/FORMATS.md, "Order lists".
#[derive(Clone, Copy, Debug, PartialEq, Eq)]
pub enum Item {
    Ready,
    Place(u32),
}
