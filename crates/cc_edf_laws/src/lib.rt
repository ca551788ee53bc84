//! The laws of cycle-conserving EDF (Pillai and Shin 2001).
//!
//! A task is charged with its worst case while its job is incomplete, and then with what the job had. The two
//! conditions are on a plan and a state: the rates pay for what is due by each tick, and the entry in force meets the
//! sum of the rates. Every run of a plan that passes the test under EDF keeps them.
#![tactic(auto)]
