//! Lists that grow while a text is read.
ghost use Rattle.std.specs.Prelude.{◌≡◌, [], ◌∷◌, ◌++◌, OnOk, IfErr};
ghost use Rattle.plan_model.specs.declared.plan_fault.PlanFault.{PlanFault};

use plan_model::PlanFault;
use sccp_base::List;

/// Puts an item at the end of a list that a plan text is read into.
pub(crate) fn put<T: Drop>(list: &mut List<T>, item: T) -> Result<(), PlanFault>
    ensures ok { OnOk result (list.new ≡ list.old ++ item ∷ []) }
    ensures err { IfErr result (λ fault. fault ≡ PlanFault.OutOfMemory) }
{
    match list.push(item) {
        Ok(()) => Ok(()),
        Err(_) => Err(PlanFault::OutOfMemory),
    }
}
