//! The laws of the governor of look-ahead EDF (Pillai and Shin 2001), and its published demand.
//!
//! Its two conditions bound the work due by each tick at the highest speed under EDF; the governor that always runs at
//! the highest speed has the same ones. What runs before the earliest deadline is the demand. The rest is spread over
//! the time after it, at rates that the highest speed has room for.
#![tactic(auto)]
