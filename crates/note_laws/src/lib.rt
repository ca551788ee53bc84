//! Laws of the notes of a schedule: how many there are, and when jobs complete.
//!
//! Wherever the schedule meets its deadlines, each job that is due within the run has exactly one `Done` note, at a
//! position not after its deadline. A schedule has at most one more decision than releases and completions together,
//! and no more completions than releases. It has at most seven notes for each job and three more
//! (`specs/LineCounts.antt`). The kernel's calls have these bounds in their contracts for each run.
#![tactic(auto)]
