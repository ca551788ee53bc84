// The files of a plan.
use test_inputs::example::{PAPER_DEMANDS, PAPER_MACHINE, PAPER_TASKS};

// A task file, a machine file and a demand file, and their name in messages.
#[derive(Clone, Copy)]
pub(crate) struct Case<'a> {
    pub(crate) tasks: &'a [u8],
    pub(crate) machine: &'a [u8],
    pub(crate) demands: &'a [u8],
    pub(crate) words: &'a str,
}

// The example of Pillai and Shin 2001, with its demands.
pub(crate) const EXAMPLE: Case<'static> = Case {
    tasks: PAPER_TASKS,
    machine: PAPER_MACHINE,
    demands: PAPER_DEMANDS,
    words: "the example",
};

impl<'a> Case<'a> {
    // These files with `words` as their name in messages.
    pub(crate) fn asked(self, words: &'a str) -> Case<'a> {
        Case {
            tasks: self.tasks,
            machine: self.machine,
            demands: self.demands,
            words,
        }
    }
}
