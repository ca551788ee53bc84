//! The two governors whose speed is one number: `none`, always the highest speed, and `static`, static scaling.
//!
//! Both serve both schedulers, keep nothing that a run changes, and take no memory. Their published demands depend
//! only on the plan, each choice meets its demand, and under each scheduler every deadline of their schedules is met.
#![tactic(auto)]

mod fixed;
mod full;

pub use fixed::Static;
pub use full::Full;
