//! Laws of the text of a run: when its lines say that jobs complete, and that its trace is within the limits of traces.
//!
//! The text of a run is split into its lines. Wherever the schedule meets its deadlines, each job that is due within
//! the run has exactly one `done` line, at a position not after its deadline (`specs/DoneLines.antt`).
//!
//! The trace of a run of an admitted plan is within the limits of traces (`specs/RunTraces.antt`). There no demand
//! exceeds its task's worst case, and the ticks and the released jobs are within their limits. Its notes are few
//! enough, and its numbers and the energy of each task fit in their types.
#![tactic(auto)]
