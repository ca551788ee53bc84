//! The law of a replay: notes of a schedule are those of the schedule for the demand list that they fix.
//!
//! Notes fix the demand of each job that completes in them; each other job has its worst case. A schedule depends on a
//! job's demand only once the job completes. So the schedule for that list is the same tick for tick, and so are its
//! notes. Notes are therefore those of a schedule for some demand list exactly if they are those for the list that
//! they fix. The schedules for two lists have the same notes exactly if each job that completes needs the same by
//! both, and each other released job needs more by the second list than it has had.
#![tactic(auto)]
