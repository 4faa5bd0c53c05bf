//! A capture that is judged as it is read.
ghost use Rattle.std.specs.Prelude.{◌≡◌, ◌++◌, [], List, ℕ, true, IfOk};
ghost use Rattle.sccp_conform.specs.Reports.{answer_for, heard_work, IsReport};
ghost use Rattle.sccp_conform.specs.Steps.{IsPartly, AreAll};
ghost use Rattle.sccp_work.specs.Ending.{Works};
ghost use Rattle.sccp_work.specs.Moment.{Moment, with_sink};
ghost use Rattle.sccp_work.specs.declared.status.Status.{Status};
ghost use Rattle.watch_items.specs.Captures.{Heard, ahead, heard};

use crate::judging::{finish, put_items, vouch};
use crate::report::Report;
use capture_trace::Ending;
use plan_model::Plan;
use relay_watch::Watch;
use sccp_base::{List, OutOfMemory};
use sccp_io::Sink;
use sccp_report::Text;
use sccp_work::{Status, Stop, print_last};
use std::alloc::Global;
use watch_items::CaptureItems;

/// What is kept of a capture that was read in part: of its octets what `CaptureItems` keeps, of its messages what `Watch` keeps, and the
/// text that will be printed.
#[derive(Drop)]
pub struct Partly {
    alloc: Global,
    capture: CaptureItems,
    watch: Watch,
    text: Text,
}

impl Partly {
    /// Nothing was read. The error is want of memory.
    pub fn new(alloc: Global, plan: &Plan) -> Result<Partly, OutOfMemory>
        ensures { IfOk result (λ p. IsPartly plan.now heard p.capture p.watch p.text) }
    {
        let capture = CaptureItems::new(alloc)?;
        match Watch::new(alloc, plan) {
            Ok(watch) => Ok(Partly {
                alloc,
                capture,
                watch,
                text: Text::new(alloc),
            }),
            Err(refused) => {
                drop(capture);
                Err(refused)
            }
        }
    }

    /// Takes the next octets, and judges the messages of the packets that they complete. The answer is whether the file is damaged: then
    /// its other octets do not count.
    pub fn feed(&mut self, plan: &Plan, piece: &[u8]) -> Result<bool, OutOfMemory>
        ensures goes_on { IfOk result (λ stops. (whole : List ℕ → Heard)
            → IsPartly plan.now whole self.old.capture self.old.watch self.old.text
            → IsPartly plan.now (λ rest. whole (piece.now ++ rest)) self.new.capture self.new.watch self.new.text) }
        ensures stops { IfOk result (λ stops. stops ≡ true → (rest : List ℕ) → ahead self.new.capture rest ≡ ahead self.new.capture []) }
    {
        let mut items = List::new(self.alloc);
        match self.capture.feed(piece, &mut items) {
            Ok(stops) => {
                let put = put_items(&mut self.text, plan, &mut self.watch, items.as_slice());
                drop(items);
                put?;
                Ok(stops)
            }
            Err(refused) => {
                drop(items);
                Err(refused)
            }
        }
    }

    /// Takes the end of the file, and appends the lines of what is not a message that are left.
    fn end(&mut self, plan: &Plan) -> Result<Ending, OutOfMemory>
        ensures { IfOk result (λ ending. (whole : List ℕ → Heard)
            → IsPartly plan.now whole self.old.capture self.old.watch self.old.text
            → AreAll plan.now (whole []) ending self.new.watch self.new.text) }
    {
        let mut items = List::new(self.alloc);
        match self.capture.finish(&mut items) {
            Ok(ending) => {
                let put = put_items(&mut self.text, plan, &mut self.watch, items.as_slice());
                drop(items);
                put?;
                Ok(ending)
            }
            Err(refused) => {
                drop(items);
                Err(refused)
            }
        }
    }

    /// The report on a file that ends so.
    fn report(self, plan: &Plan, ending: Ending) -> Result<Report, OutOfMemory>
        ensures { IfOk result (λ r. (h : Heard) → AreAll plan.now h ending self.watch self.text → IsReport plan.now h r) }
    {
        vouch();
        let Partly {
            alloc: _,
            capture,
            watch,
            mut text,
        } = self;
        drop(capture);
        let status = finish(&mut text, plan, watch)?;
        Ok(Report {
            status: answer_for(ending, status),
            text: text.into_octets(),
        })
    }
}

/// The answer on a file that ends so, by that on its messages.
fn answer_for(ending: Ending, status: Status) -> Status
    ensures { result ≡ answer_for ending status }
{
    match ending {
        Ending::Whole => status,
        Ending::Cut => status,
        Ending::Damaged => Status::BadCapture,
    }
}

/// The report on a capture, of which all was read.
fn last_report(mut partly: Partly, plan: &Plan) -> Result<Report, OutOfMemory>
    ensures { IfOk result (λ r. (whole : List ℕ → Heard) → IsPartly plan.now whole partly.capture partly.watch partly.text
        → IsReport plan.now (whole []) r) }
{
    match partly.end(plan) {
        Ok(ending) => partly.report(plan, ending),
        Err(refused) => {
            drop(partly);
            Err(refused)
        }
    }
}

/// Prints the report on a capture, of which all was read. No file is read, so the clause holds whatever the files show.
pub fn print_end<K: Sink>(partly: Partly, plan: &Plan, out: &mut K) -> Result<Status, Stop>
    ensures { (any : Moment) (whole : List ℕ → Heard) → IsPartly plan.now whole partly.capture partly.watch partly.text
        → Works (heard_work plan.now (whole [])) result
        (with_sink any K.taken K.faults out.old) (with_sink any K.taken K.faults out.new) }
{
    // The call ensures that the plan is sound, which the clause needs.
    let _nodes = plan.nodes();
    let report = last_report(partly, plan)?;
    print_last(out, report.text.as_slice(), report.status)
}
