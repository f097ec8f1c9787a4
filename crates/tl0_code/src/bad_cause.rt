// Why a code of threads is refused.

/// Which rule a line of a code breaks, in the order in which the causes of one line come.
///
/// docs/THREADS.md, "Which thread code is accepted".
#[derive(Clone, Copy, Debug, PartialEq, Eq)]
pub enum BadCause {
    /// Fewer than 2 slots, more params than inlets, more than 64 params or results, or an entry count outside 1 to 65,535.
    Frame,
    /// `main` isn't a code.
    Main,
    Slot,
    Thread,
    /// An inlet that isn't there, or one of a caller that hasn't room for the results behind it; of a `send`, a place above 63.
    Inlet,
    Callee,
    /// A result that isn't there, or a node above 1,023.
    Place,
}
