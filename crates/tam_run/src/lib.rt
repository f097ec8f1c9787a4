//! Runs of an accepted graph at a level, of checked thread code and of images, with the text that they write and the machine that they leave; and the thread
//! code and the machine code of an accepted graph.
//!
//! Over the crates of graphs, partitions, messages, levels, thread code and machine code. The program's top call stands on this crate.
//! Read `specs/Writing.antt` first: what a run wrote, by how it ended. Then `src/following.rt`, the loop of every level, and `specs/RightRuns.antt`: that each
//! run is right.
#![tactic(auto)]

mod broken;
mod code_run;
mod compiling;
mod exec;
mod finishing;
mod following;
mod graph_run;
mod halt;
mod image_run;
mod last_lines;
mod laws;
mod level;
mod level_run;
mod lines;
mod outcome;
mod tally;
mod thread_run;
mod whole_run;
mod writing;

use broken::Broken;
pub use code_run::{run_code, run_image};
pub use compiling::{compile, compile_image};
pub use exec::Exec;
use halt::{Cause, Halt};
pub use laws::law_runs;
pub use level::Level;
pub use outcome::Outcome;
use tally::Tally;
pub use whole_run::run;
