//! The laws of cycle-conserving RM.
//!
//! The two conditions bound the work of each level by what is left of its allotments and by the backlog of the static
//! schedule with every job at its worst case. Every run of an RM plan keeps them if that schedule meets its deadlines.
#![tactic(auto)]
