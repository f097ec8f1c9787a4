//! The words of the command line: the job that they ask for, or the first thing that is wrong with them.
//!
//! Over `clap`, the edge, words of 32 bits, messages, and the shapes of large inputs. The crate of what is read before a job is answered stands on
//! this crate, and so does the program.
//! Read `specs/Command.antt` first, the command that `clap` matches the words with, then `specs/Names.antt`, the names of modes, shapes and causes,
//! `specs/Options.antt`, what the values of options are, and `specs/Jobs.antt`, what all words ask for. Then `src/reading.rt`.
//!
//! The words are one simple command of `clap`: MODE, NAME and perhaps COUNT, in this order, and the options `--args`, `--order`, `--order-file`,
//! `--budget`, `--frames` and `--cells`, which may stand anywhere. Each has one value, as `--args=2,3` or as the next word, and comes at most once. There is
//! no help flag, no version flag, and no short form of an option. What is wrong is told by one cause, the first that holds of these:
//!
//! - `Words`: `clap` doesn't match the words. MODE or NAME is missing, or there is a fourth word in a place, an unknown option, an option without a
//!   value, or one that comes twice. A word that begins with `-` is an option, and no value: but for `-` alone, and for each word behind `--`;
//! - `Mode`: MODE is no mode, which are `graph`, `tl0`, `rv32`, `check`, `emit-dg`, `sets`, `parts`, `emit-tl0`, `emit-asm`, `emit-image`, `assemble`,
//!   `exec-tl0`, `exec-rv32` and `make`;
//! - `Extra`: COUNT stands at another mode than `make`, or an option at another mode than `graph`, `tl0`, `rv32`, `exec-tl0` and `exec-rv32`, or
//!   `--order` beside `--order-file`;
//! - `Shape`: in `make` NAME is neither `ladder` nor `wave`;
//! - `Count`: in `make` there is no count, or it isn't `0|[1-9][0-9]*`, or not within 1 to 200 for a ladder, 1 to 60 for a wave;
//! - `Args`: the text of `--args` is neither empty nor words joined by commas;
//! - `Order`: the text of `--order` has more than 1,048,576 bytes or is no order list;
//! - `Budget`, `Frames`, `Cells`: the text isn't `0|[1-9][0-9]*`, or the number isn't within 0 to 4294967295, 1 to 16384, 0 to 4194304.
//!
//! Where an option isn't there, a job has no arguments, the empty order, no order file, the budget 1000000, 4096 frames and 1048576 cells. NAME and the
//! name of an order file may be anything, also empty.
#![tactic(auto)]

mod command;
mod job;
mod mode;
mod reading;
mod shapes;
mod usage_cause;
mod values;
mod words_error;

pub use job::Job;
pub use mode::Mode;
pub use reading::read_words;
pub use shapes::shape_name;
pub use usage_cause::UsageCause;
pub use words_error::WordsError;
