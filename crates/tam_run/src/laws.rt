//! The law of runs, as the contract of a function with an empty body.

ghost use Rattle.tam_run.specs.GraphNames.{GraphNamesAreLive, GraphEndNamesAreLive};
ghost use Rattle.tam_run.specs.RightRuns.{RunsAreBorneOut, RunsAreRight, RoomIsQuiet, LiveRoomIsQuiet, QuietRunsAgree, QuietLevelsAgree};
ghost use Rattle.tam_run.specs.RightRuns.{NoResultIsMissing, MachineTellsThreads, TextsAreTold};

use tam_fits::laws::{law_images, law_room};
use tl0_keep::laws::{law_quiet, law_threads};

/// Each run of an accepted graph, at every level, is borne out by a journal. A run that is borne out is right; where the limits leave room it is quiet,
/// also where they have room for the live activations alone; quiet runs agree, also of two levels, and no result that the rules give is missing. What the
/// machine's run tells is what the threads' run tells, and the text of each level is that of its definition.
pub fn law_runs()
    ensures borne { RunsAreBorneOut }
    ensures right { RunsAreRight }
    ensures room { RoomIsQuiet }
    ensures live { LiveRoomIsQuiet }
    ensures agree { QuietRunsAgree }
    ensures levels_agree { QuietLevelsAgree }
    ensures not_missing { NoResultIsMissing }
    ensures machine { MachineTellsThreads }
    ensures texts { TextsAreTold }
{
    law_threads();
    law_quiet();
    law_images();
    law_room();
}

/// Whom a state of a run of a graph names, or the state that its end leaves, by a message on its way or by a reader that waits, has begun and isn't given back.
pub fn law_named()
    ensures named { GraphNamesAreLive }
    ensures at_ends { GraphEndNamesAreLive }
{}
