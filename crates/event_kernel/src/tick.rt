// The work of one tick.
ghost use Rattle.std.specs.Prelude.{◌≡◌};
ghost use Rattle.sched_model.specs.Plan.{count};
ghost use Rattle.sched_model.specs.States.{CanRun};
ghost use Rattle.agenda.specs.Agenda.{IsFirstUndone};
ghost use Rattle.event_kernel.specs.Current.{IsCurrent};
ghost use Rattle.event_kernel.specs.Tickwork.{after_service};
ghost use Rattle.event_kernel.specs.Settings.{IsInSpan, HasWorked};

use crate::in_force::InForce;
use crate::jobs::{holder_of, lacking};
use crate::progress::{Progress, Setting};
use crate::span_trace::Moment;
use governor::Governor;

impl<G: Governor> Progress<G> {
    /// Runs `units` of the first incomplete job, and completes it if `ends`. The governor and the agenda hear of it.
    pub(crate) fn serve(&mut self, set: &Setting<'_>, task: u32, units: u64, ends: bool)
        requires can { CanRun self.old.state task units }
        requires first { IsFirstUndone set.now.plan.now self.old.state (count set.now.plan.now) task }
        requires current { IsCurrent G.stands set.now self.old }
        ensures state { self.new.state ≡ after_service self.old.state task units ends }
        ensures current { IsCurrent G.stands set.now self.new }
        ensures trace { self.new.trace ≡ self.old.trace }
    {
        self.governor.ran(set.plan, &self.state, task, units);
        self.agenda.serve(set.plan, &self.state, task, units);
        self.state.run(task, units);
        if ends {
            self.governor.finished(set.plan, &self.state, task);
            self.agenda.complete(set.plan, &self.state, task);
            self.state.finish(task);
        }
    }

    /// Runs the units of one tick; whether a job completes in it.
    pub(crate) fn work(&mut self, set: &Setting<'_>, force: InForce) -> bool
        requires at { IsInSpan set.now G.demand force self.old.state.now self.old.state self.old.trace }
        requires current { IsCurrent G.stands set.now self.old }
        ensures worked { HasWorked set.now G.demand self.old.state.now self.new.state self.new.trace result }
        ensures current { IsCurrent G.stands set.now self.new }
    {
        let plan = set.plan;
        let now = self.now();
        let mut rest = force.speed;
        let mut completed = false;
        while rest > 0 {
            let state = &self.state;
            let Some(task) = self.agenda.first_ready(plan, state) else {
                break;
            };
            let lacks = lacking(set, state, &self.needs, task);
            let share = rest.min(lacks);
            let holder = holder_of(state, Some(task));
            let moment = Moment { plan, state, force };
            self.trace.enter(moment, holder, share);
            self.serve(set, task, share, share == lacks);
            completed |= share == lacks;
            rest -= share;
        }
        let state = &self.state;
        self.trace.idle(Moment { plan, state, force }, rest);
        self.advance(now + 1);
        completed
    }
}
