//! Whole images of thread code and their runs, computed: the words, what a run prints, how it ends, and its numbers of events and instructions.
//!
//! Over the crates of thread code, of RV32IM and of machine code. No crate stands on this one: it shows that the definitions of
//! `rv_keep` say what an independent program wrote.
//! Read `specs/ImageExamples.antt` and `specs/RunExamples.antt`; `specs/EveryExamples.antt` has every instruction and every operator.
#![tactic(auto)]
