// The refusal that a status is.
ghost use Rattle.std.specs.Prelude.{◌≡◌};
ghost use Rattle.rtdvs_c.specs.Numbers.{task_field_cause, task_refusal, machine_field_cause, machine_refusal, deadline_refusal, text_refusal, denied_refusal, refusal_of};

use crate::causes::*;
use crate::number_types::{Refusal, no_refusal, refused_at, short_by};
use deadline_list::DeadlineFault;
use dvs_base::MOST_JOBS;
use freq_table::{MachineFault, MachineField};
use rtdvs_top::{Denied, Status, TextFault};
use task_model::{Field, TaskFault};

fn task_field_cause(field: Field) -> u64
    ensures { result ≡ task_field_cause field }
{
    match field {
        Field::Period => PERIOD,
        Field::Worst => WORST_CASE,
        Field::Offset => OFFSET,
        Field::Task | Field::Entry | Field::Name => NO_CAUSE,
    }
}

fn task_refusal(why: TaskFault) -> Refusal
    ensures { result ≡ task_refusal why }
{
    match why {
        TaskFault::NoTasks => refused_at(NO_TASKS, 0),
        TaskFault::TooMany { .. } => refused_at(TOO_MANY_TASKS, 0),
        TaskFault::Range { place, field } => refused_at(task_field_cause(field), u64::from(place)),
        TaskFault::Hyper => refused_at(HYPERPERIOD, 0),
        TaskFault::NotToml
        | TaskFault::UnknownKey { .. }
        | TaskFault::Missing { .. }
        | TaskFault::Kind { .. }
        | TaskFault::BadName { .. }
        | TaskFault::SameName { .. }
        | TaskFault::NoMemory => no_refusal(),
    }
}

fn machine_field_cause(field: MachineField) -> u64
    ensures { result ≡ machine_field_cause field }
{
    match field {
        MachineField::Idle => IDLE,
        MachineField::Charge => CHARGE,
        MachineField::Speed => SPEED,
        MachineField::Millivolts => MILLIVOLTS,
        MachineField::Point | MachineField::Entry => NO_CAUSE,
    }
}

fn machine_refusal(why: MachineFault) -> Refusal
    ensures { result ≡ machine_refusal why }
{
    match why {
        MachineFault::NoPoints => refused_at(NO_POINTS, 0),
        MachineFault::TooMany { .. } => refused_at(TOO_MANY_POINTS, 0),
        MachineFault::Range { place, field } => {
            refused_at(machine_field_cause(field), u64::from(place))
        }
        MachineFault::NotRising { place } => refused_at(NOT_RISING, u64::from(place)),
        MachineFault::NotToml
        | MachineFault::UnknownKey { .. }
        | MachineFault::Missing { .. }
        | MachineFault::Kind { .. }
        | MachineFault::NoMemory => no_refusal(),
    }
}

fn deadline_refusal(why: DeadlineFault) -> Refusal
    ensures { result ≡ deadline_refusal why }
{
    match why {
        DeadlineFault::Range { row } => refused_at(DEADLINE, row),
        DeadlineFault::Header
        | DeadlineFault::Fields { .. }
        | DeadlineFault::UnknownTask { .. }
        | DeadlineFault::BadNumber { .. }
        | DeadlineFault::Repeated { .. }
        | DeadlineFault::NoMemory => no_refusal(),
    }
}

fn text_refusal(why: TextFault) -> Refusal
    ensures { result ≡ text_refusal why }
{
    match why {
        TextFault::Tasks(why) => task_refusal(why),
        TextFault::Machine(why) => machine_refusal(why),
        TextFault::Deadlines(why) => deadline_refusal(why),
        TextFault::TooLong { .. }
        | TextFault::Demands(_)
        | TextFault::Trace(_)
        | TextFault::Requests(_)
        | TextFault::Server { .. } => no_refusal(),
    }
}

fn denied_refusal(why: Denied) -> Refusal
    ensures { result ≡ denied_refusal why }
{
    match why {
        Denied::Edf { num, cap } => short_by(EDF_TEST, 0, num, cap),
        Denied::Rm { task, num, cap } => short_by(RM_TEST, u64::from(task) + 1, num, cap),
        Denied::Offset { task } => refused_at(FIRST_RELEASE, u64::from(task) + 1),
        Denied::Response { task, num, cap } => {
            short_by(NO_RESPONSE, u64::from(task) + 1, num, cap)
        }
        Denied::Demand { at, num, cap } => short_by(DEMAND, at, num, cap),
        Denied::Units { num, cap } => short_by(UNITS, 0, num, cap),
    }
}

/// The refusal that a status is: of numbers that are refused, that a test denies, or of too many jobs; otherwise none.
pub(crate) fn refusal_of(status: Status) -> Refusal
    ensures { result ≡ refusal_of status }
{
    match status {
        Status::NotAdmitted(why) => denied_refusal(why),
        Status::Text(why) => text_refusal(why),
        Status::Limit { jobs } => short_by(JOBS, 0, u128::from(jobs), u128::from(MOST_JOBS)),
        Status::Done
        | Status::Words(_)
        | Status::Load { .. }
        | Status::OverWorst { .. }
        | Status::Differs { .. }
        | Status::Write
        | Status::NoMemory => no_refusal(),
    }
}
