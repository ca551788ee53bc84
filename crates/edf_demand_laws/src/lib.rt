//! Deadlines up to the periods under EDF at one speed: what the processor demand says about every schedule (Baruah,
//! Rosier and Howell 1990).
//!
//! The crate has only lemmas. If the demand of each span fits into what the speed does in it, every schedule is
//! met. If the demand of some span doesn't, the schedule of worst cases isn't met. The deadlines of one
//! hyperperiod decide for all spans.
#![tactic(auto)]
