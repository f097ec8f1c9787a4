//! Laws over the definitions that are proved, as contracts of functions with an empty body.
ghost use Rattle.tl0_text.specs.Reading.{TextsReadExactly};

/// A text up to the longest that is read reads as a program exactly where it has no fault, and the program is the one that its lines say.
pub fn law_read()
    ensures exactly { TextsReadExactly }
{}
