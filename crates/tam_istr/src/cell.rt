// One cell.
use crate::Reader;

/// A cell: empty, with those who wait for its word, the first to come first, or filled by a store at a site.
#[derive(Drop)]
pub(crate) enum Cell {
    Empty { readers: Vec<Reader> },
    Filled { word: u32, site: u32 },
}
