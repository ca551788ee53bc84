// Faults as statuses.
ghost use Rattle.std.specs.Prelude.{◌≡◌};
ghost use Rattle.statuses.specs.Refused.{IsRefusedAs, task_status, machine_status, demand_status, trace_status, deadline_status, request_status};
ghost use Rattle.statuses.specs.declared.status.Status.TheVariants as status;

use crate::{Status, TextFault};
use deadline_list::DeadlineFault;
use demand_list::DemandFault;
use dvs_base::{Failed, NoMemory};
use freq_table::MachineFault;
use request_list::RequestFault;
use task_model::TaskFault;
use trace_reader::TraceFault;

impl From<NoMemory> for Status {
    ghost from_gives = { λ _ s. s ≡ status.NoMemory };

    fn from(_why: NoMemory) -> Status {
        Status::NoMemory
    }
}

impl From<Failed> for Status {
    ghost from_gives = { λ _ s. s ≡ status.Write };

    fn from(_why: Failed) -> Status {
        Status::Write
    }
}

impl From<TaskFault> for Status {
    ghost from_gives = { λ why s. IsRefusedAs (task_status why) s };

    fn from(why: TaskFault) -> Status {
        match why {
            TaskFault::NoMemory => Status::NoMemory,
            why => Status::Text(TextFault::Tasks(why)),
        }
    }
}

impl From<MachineFault> for Status {
    ghost from_gives = { λ why s. IsRefusedAs (machine_status why) s };

    fn from(why: MachineFault) -> Status {
        match why {
            MachineFault::NoMemory => Status::NoMemory,
            why => Status::Text(TextFault::Machine(why)),
        }
    }
}

impl From<DemandFault> for Status {
    ghost from_gives = { λ why s. s ≡ demand_status why };

    fn from(why: DemandFault) -> Status {
        match why {
            DemandFault::NoMemory => Status::NoMemory,
            DemandFault::OverWorst {
                task,
                job,
                units,
                worst,
            } => Status::OverWorst {
                task,
                job,
                units,
                worst,
            },
            why => Status::Text(TextFault::Demands(why)),
        }
    }
}

impl From<TraceFault> for Status {
    ghost from_gives = { λ why s. IsRefusedAs (trace_status why) s };

    fn from(why: TraceFault) -> Status {
        match why {
            TraceFault::NoMemory => Status::NoMemory,
            why => Status::Text(TextFault::Trace(why)),
        }
    }
}

impl From<DeadlineFault> for Status {
    ghost from_gives = { λ why s. IsRefusedAs (deadline_status why) s };

    fn from(why: DeadlineFault) -> Status {
        match why {
            DeadlineFault::NoMemory => Status::NoMemory,
            why => Status::Text(TextFault::Deadlines(why)),
        }
    }
}

impl From<RequestFault> for Status {
    ghost from_gives = { λ why s. IsRefusedAs (request_status why) s };

    fn from(why: RequestFault) -> Status {
        match why {
            RequestFault::NoMemory => Status::NoMemory,
            why => Status::Text(TextFault::Requests(why)),
        }
    }
}
