// The end of a run.
ghost use Rattle.std.specs.Prelude.{◌≡◌};
ghost use Rattle.dvs_base.specs.declared.note.Note.TheVariants.{End};

use dvs_base::{Note, Totals};
use energy::Account;

/// What a run of `ticks` ticks ends with: the totals of its account, and the `End` note.
pub(crate) fn ending(ticks: u64, account: &Account) -> (Totals, Note)
    ensures totals { result.0 ≡ account.now.totals }
    ensures note { result.1 ≡ End ticks account.now.totals.run account.now.totals.idle }
{
    let totals = account.totals();
    let end = Note::End {
        ticks,
        run: totals.run,
        idle: totals.idle,
    };
    (totals, end)
}
