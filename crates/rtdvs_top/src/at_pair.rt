// The one match over the pairs of a scheduler and a governor kind.

pub(crate) use cc_edf::CcEdf;
pub(crate) use cc_rm::CcRm;
pub(crate) use dvs_base::{GovernorKind, Scheduler};
pub(crate) use look_ahead::LookAhead;
pub(crate) use static_gov::{Full, Static};

// Calls a function that is generic over the governor, at the governor of a pair. The brackets have the function's other
// type arguments.
macro_rules! at_pair {
    ($scheduler:expr, $kind:expr, $work:ident, [$($more:ty),*], $($given:expr),*) => {
        match ($scheduler, $kind) {
            (_, $crate::at_pair::GovernorKind::Plain) => {
                $work::<$crate::at_pair::Full $(, $more)*>($($given),*)
            }
            (_, $crate::at_pair::GovernorKind::Fixed) => {
                $work::<$crate::at_pair::Static $(, $more)*>($($given),*)
            }
            ($crate::at_pair::Scheduler::Edf, $crate::at_pair::GovernorKind::Cycle) => {
                $work::<$crate::at_pair::CcEdf $(, $more)*>($($given),*)
            }
            ($crate::at_pair::Scheduler::Rm, $crate::at_pair::GovernorKind::Cycle) => {
                $work::<$crate::at_pair::CcRm $(, $more)*>($($given),*)
            }
            ($crate::at_pair::Scheduler::Edf, $crate::at_pair::GovernorKind::Ahead) => {
                $work::<$crate::at_pair::LookAhead $(, $more)*>($($given),*)
            }
            ($crate::at_pair::Scheduler::Rm, $crate::at_pair::GovernorKind::Ahead) => unreachable!(),
        }
    };
}

pub(crate) use at_pair;
