//! The law on canonical texts, as the contract of a function with an empty body.
ghost use Rattle.std.specs.Prelude.{◌≡◌, true};
ghost use Rattle.tam_graph.specs.Graphs.{Graph};
ghost use Rattle.tam_graph.specs.Texts.{canonical};
ghost use Rattle.tam_graph.specs.Reading.{IsOfText, Reads, is_short};

/// The canonical text of a graph as a text writes it, with no larger blocks than a text's, reads as the graph.
pub fn law_canonical()
    ensures reads { (g : Graph) → IsOfText g → is_short g ≡ true → Reads (canonical g) g }
{}
