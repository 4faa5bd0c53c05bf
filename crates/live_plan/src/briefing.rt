//! What workers learn before a batch: all plans that are published or may be published in it.
ghost use Rattle.std.specs.Prelude.{◌≡◌, ◌<◌, ℕ, length, slice_index_or, OnOk, OnErr};
ghost use Rattle.live_plan.specs.Batches.{AllPairs, Follows, Lasts, SeesMore};
ghost use Rattle.live_plan.specs.Tellers.{told_by, plans_of, due_of};

use crate::live_place::LivePlace;
use crate::teller::Teller;
use crate::worker::Worker;
use sccp_base::OutOfMemory;

/// Gives the worker a new reader, if one can be had, and the publisher's last plan.
pub(crate) fn brief(worker: &mut Worker<LivePlace>, teller: &mut Teller) -> Result<(), OutOfMemory>
    requires { worker.old.place.nodes ≡ teller.old.nodes }
    ensures lasts { Lasts (length (plans_of teller.old)) worker.old worker.new }
    ensures follows { OnOk result (Follows (due_of teller.old) worker.new) }
    ensures number { OnOk result (worker.new.kept.number ≡ length (plans_of teller.old)) }
    ensures seen { OnOk result (worker.new.place.passed ≡ length (plans_of teller.old)) }
    ensures err { OnErr result (worker.new ≡ worker.old) }
    ensures sees { SeesMore (plans_of teller.old) (plans_of teller.old) worker.old worker.new }
    ensures told { told_by teller.new ≡ told_by teller.old }
    ensures nodes { teller.new.nodes ≡ teller.old.nodes }
{
    let entry = teller.last_entry()?;
    worker.place.brief(teller);
    worker.kept = entry;
    Ok(())
}

/// Briefs all workers.
pub(crate) fn brief_all(
    workers: &mut [Worker<LivePlace>],
    teller: &mut Teller,
) -> Result<(), OutOfMemory>
    requires { (i : ℕ) (d : _) → i < length workers.old → (slice_index_or workers.old i d).place.nodes ≡ teller.old.nodes }
    ensures lasts { AllPairs (Lasts (length (plans_of teller.old))) workers.old workers.new }
    ensures follows { OnOk result ((i : ℕ) (d : _) → i < length workers.old
        → Follows (due_of teller.old) (slice_index_or workers.new i d)) }
    ensures number { OnOk result ((i : ℕ) (d : _) → i < length workers.old
        → (slice_index_or workers.new i d).kept.number ≡ length (plans_of teller.old)) }
    ensures seen { OnOk result ((i : ℕ) (d : _) → i < length workers.old
        → (slice_index_or workers.new i d).place.passed ≡ length (plans_of teller.old)) }
    ensures sees { AllPairs (SeesMore (plans_of teller.old) (plans_of teller.old)) workers.old workers.new }
    ensures told { told_by teller.new ≡ told_by teller.old }
    ensures nodes { teller.new.nodes ≡ teller.old.nodes }
{
    for k in 0..workers.len() {
        brief(&mut workers[k], teller)?;
    }
    Ok(())
}
