//! What is kept while messages are judged.
ghost use Rattle.std.specs.Prelude.{◌≡◌, ◌≤◌, length, IfOk, OnErr};
ghost use Rattle.relay_watch.specs.Judging.{IsJudged};
ghost use Rattle.relay_watch.specs.Kept.{nothing_kept, summary_of};
ghost use Rattle.relay_watch.specs.Watching.{IsWatched};

use crate::counting::first_tallies;
use crate::ending::summary;
use crate::event::Event;
use crate::judging::step;
use crate::keeping::Keeping;
use crate::line::Line;
use crate::summary::Summary;
use crate::waiting::Waiting;
use plan_model::Plan;
use sccp_base::OutOfMemory;
use std::alloc::Global;
use std::marker::Model;

/// What is kept: the arrivals that wait, at most 16,384, and the last 1,024 answered ones, both in their order; which arrivals an
/// unexplained message names; and counts of each relay. Contracts see it as what is `Kept`.
#[derive(Drop)]
pub struct Watch {
    alloc: Global,
    kept: Keeping,
}

impl Model for Watch {
    ghost use Rattle.relay_watch.specs.Kept.{Kept};
    ghost use Rattle.relay_watch.specs.declared.keeping.Keeping.{Keeping};

    ghost Value = { Kept };

    ghost use Rattle.relay_watch.specs.Arrivals.{AreWaiting};
    ghost use Rattle.relay_watch.specs.Keepings.{kept_in};
    ghost use Rattle.relay_watch.specs.Whys.{AreAnswered};

    ghost view = { λ w. kept_in w.kept };

    ghost invariant = { λ w. AreWaiting w.kept.waiting.items × AreAnswered w.kept.answered.items };
}

impl Watch {
    /// Nothing waits, and nothing was counted. Each later call takes the same plan. The error is want of memory.
    pub fn new(alloc: Global, plan: &Plan) -> Result<Self, OutOfMemory>
        ensures { IfOk result (λ w. w ≡ nothing_kept plan.now) }
    {
        Ok(Watch {
            alloc,
            kept: Keeping {
                waiting: Vec::new(alloc),
                answered: Vec::new(alloc),
                named: Vec::new(alloc),
                relays: first_tallies(alloc, plan)?,
                events: 0,
                unexplained: 0,
            },
        })
    }

    /// Those that wait: because of them nothing was sent.
    pub fn waiting(&self) -> &[Waiting]
        ensures value { result.now ≡ self.now.waiting }
        ensures few { length self.now.waiting ≤ 16384 }
    {
        self.kept.waiting.as_slice()
    }

    /// Judges a captured message.
    ///
    /// A message that a relay of the plan sent is explained by the first of the waiting arrivals because of which the plan lets
    /// the relay send that message to that point, and this arrival waits no more. If none does, management or a user of the relay
    /// sent it, or it is unexplained, and the verdict says why. A message that arrives at a relay begins to wait, if the relay may
    /// send something because of it. If then more than 16,384 wait, the oldest is given up. If memory runs out, nothing changes.
    pub fn judge(&mut self, plan: &Plan, event: &Event) -> Result<Line, OutOfMemory>
        ensures judged { IfOk result (λ line. IsJudged plan.now self.old.waiting event.now line self.new.waiting) }
        ensures watched { IfOk result (λ line. IsWatched plan.now self.old event.now line self.new) }
        ensures few { length self.new.waiting ≤ 16384 }
        ensures err { OnErr result (self.new ≡ self.old) }
    {
        step(self.alloc, &mut self.kept, plan, event)
    }

    /// What is left at the end of a capture. Of the arrivals that still wait, each that is due and that no unexplained message names is
    /// unanswered. The error is want of memory.
    pub fn finish(self) -> Result<Summary, OutOfMemory>
        ensures { IfOk result (λ summary. summary ≡ summary_of self) }
    {
        summary(self.alloc, self.kept)
    }
}
