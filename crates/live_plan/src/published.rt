//! What is published: only the last plan.
ghost use Rattle.std.specs.Arc.{arc_value};

use left_right::Absorb;
use plan_check::Accepted;
use sccp_base::List;
use std::alloc::AllocError;
use std::snapshot::Snapshot;
use std::sync::Arc;

/// The last plan with its number, and the batch in which it is shown. Also the plans that were still to be published when the
/// batch began: these take no room, since a snapshot has no bytes.
#[derive(Drop)]
pub struct Shown {
    pub batch: u64,
    pub number: u32,
    pub plan: Arc<Accepted>,
    pub coming: Snapshot<List<Accepted>>,
}

/// The published value, which both copies share. An operation on it is the whole next value. So an operation that is left
/// over after lack of memory is overwritten by the next one.
#[derive(Drop)]
pub struct Published {
    pub shown: Arc<Shown>,
}

impl Absorb<Published> for Published {
    type State = Shown;

    ghost state = { λ p. arc_value p.shown };

    ghost applied = { λ _ op. arc_value op.shown };

    fn absorb_first(
        &mut self,
        operation: &Published,
        _other: &Published,
    ) -> Result<(), AllocError> {
        let Ok(shown) = Arc::try_clone(&operation.shown) else {
            return Err(AllocError);
        };
        self.shown = shown;
        Ok(())
    }
}
