// Endings that a call doesn't have: the comparison sees each.
use crate::call::NO_FAULTS;
use crate::hostile::example::{ADMIT, ADMITTED};
use std::process::{ExitCode, Termination};
use std::test::Fail;
use test_inputs::Ending;

#[test]
fn each_wrong_ending_is_seen(rt: HostRuntime) -> Result<(), Fail> {
    let right = Ending {
        code: 0,
        out: ADMITTED,
        notes: "",
        faults: [0, 0, 0],
    };
    ADMIT.ends(&rt, NO_FAULTS, right)?;
    let wrongs = [
        Ending { code: 1, ..right },
        Ending { out: "", ..right },
        Ending {
            notes: "no memory\n",
            ..right
        },
        Ending {
            faults: [1, 0, 0],
            ..right
        },
        Ending {
            faults: [0, 1, 0],
            ..right
        },
        Ending {
            faults: [0, 0, 1],
            ..right
        },
    ];
    for wrong in wrongs {
        let found = ADMIT.ends(&rt, NO_FAULTS, wrong).report(&rt);
        assert!(rt; found == ExitCode::FAILURE);
    }
    Ok(())
}
