// What an activation has got.

/// The code of an activation, for each node the word that it has got, and for each block whether it was entered. A shorter list says no of the rest.
#[derive(Clone, Copy)]
pub struct Contents<'a> {
    pub code: u32,
    pub words: &'a [Option<u32>],
    pub entered: &'a [bool],
}
