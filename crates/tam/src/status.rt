// How the program ends.

/// How the program ends: its exit code.
///
/// docs/FORMATS.md, "Command line".
#[derive(Clone, Copy, Debug, PartialEq, Eq)]
pub struct Status {
    pub code: u8,
}
