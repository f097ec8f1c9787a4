//! The law on the large inputs, as the contract of a function with an empty body.
ghost use Rattle.tam_make.specs.MadeGraphs.{MadeTextsAreAccepted};

/// The text of a large input reads as an accepted graph, whose `main` takes one word.
pub fn law_made()
    ensures accepted { MadeTextsAreAccepted }
{}
