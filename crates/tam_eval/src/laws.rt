//! Laws of runs of graphs that are proved, as contracts of functions with an empty body.

ghost use Rattle.tam_eval.specs.GraphLaws.{GraphRunsAreJournals, GivenBackStays, LiveAreFew, EnoughIsNotRefused};

/// A run of an accepted graph is a legal journal over one class per vertex, with the same words printed, and quiet exactly where the journal is.
pub fn law_graph()
    ensures journals { GraphRunsAreJournals }
    ensures stays { GivenBackStays }
    ensures few { LiveAreFew }

    // An activation is refused only where some delivery of a wish finds as many live as may be.
    ensures enough { EnoughIsNotRefused }
{}
