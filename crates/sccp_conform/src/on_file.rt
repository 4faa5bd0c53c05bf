//! The loop over a file of captured messages.
ghost use Rattle.std.specs.Prelude.{◌≡◌, ◌++◌, List, ℕ, true};
ghost use Rattle.sccp_conform.specs.Reports.{file_work, octets_work};
ghost use Rattle.sccp_conform.specs.Steps.{FeedsAll, IsPartly, left_work, with_files};
ghost use Rattle.sccp_work.specs.Ending.{Works};
ghost use Rattle.sccp_work.specs.Moment.{Moment, moment};
ghost use Rattle.sccp_work.specs.Pieces.{GoesOn};
ghost use Rattle.sccp_work.specs.Work.{Work, read_on};
ghost use Rattle.watch_items.specs.Captures.{Heard};
ghost use Rattle.watch_items.specs.Front.{is_capture};

use crate::judging::print_report;
use crate::long_text::print_too_long;
use crate::partly::{Partly, print_end};
use plan_model::Plan;
use sccp_io::{Files, Sink};
use sccp_work::{Status, Stop, stopped};
use std::alloc::Global;
use watch_items::is_capture;

/// How many octets are taken at a time.
const PIECE: usize = 65_536;

/// The most octets of a text.
const MOST_OCTETS: usize = 1_048_576;

/// Takes what is left of a capture, up to its end or to what is damaged, and judges its messages.
fn feed_all<F: Files>(partly: &mut Partly, plan: &Plan, files: &mut F) -> Result<(), Stop>
    ensures { (any first : Moment) (work : Work) (whole : List ℕ → Heard)
        → IsPartly plan.now whole partly.old.capture partly.old.watch partly.old.text
        → GoesOn work (λ rest. left_work plan.now (whole rest)) (F.left files.old) first
        (with_files any F.contents F.sound F.faults files.old)
        → FeedsAll plan.now work result partly.new.capture partly.new.watch partly.new.text first
        (with_files any F.contents F.sound F.faults files.new) }
{
    let mut piece = [0u8; PIECE];
    for _turn in 0..u64::MAX {
        let taken = match files.take(&mut piece) {
            Ok(taken) => taken,
            Err(fault) => return Err(stopped(fault)),
        };
        if taken == 0 {
            return Ok(());
        }
        let stops = partly.feed(plan, &piece[..taken])?;
        if stops {
            return Ok(());
        }
    }
    Err(Stop::Memory)
}

/// Takes these octets of a capture, and then all that is left of the file.
fn read_capture<F: Files>(
    partly: &mut Partly,
    plan: &Plan,
    front: &[u8],
    files: &mut F,
) -> Result<(), Stop>
    ensures { (any first : Moment) (work : Work) (whole : List ℕ → Heard)
        → IsPartly plan.now whole partly.old.capture partly.old.watch partly.old.text
        → GoesOn work (λ rest. left_work plan.now (whole (front.now ++ rest))) (F.left files.old) first
        (with_files any F.contents F.sound F.faults files.old)
        → FeedsAll plan.now work result partly.new.capture partly.new.watch partly.new.text first
        (with_files any F.contents F.sound F.faults files.new) }
{
    let stops = partly.feed(plan, front)?;
    if stops {
        return Ok(());
    }
    feed_all(partly, plan, files)
}

/// Judges the messages of a capture that begins with these octets, which were taken from the file.
fn judge_capture<F: Files, K: Sink>(
    alloc: Global,
    plan: &Plan,
    front: &[u8],
    files: &mut F,
    out: &mut K,
) -> Result<Status, Stop>
    requires { is_capture front.now ≡ true }
    ensures { (first : Moment) (work : Work)
        → GoesOn work (λ rest. read_on (octets_work plan.now (front.now ++ rest))) (F.left files.old) first
        (moment F.contents F.sound F.faults K.taken K.faults files.old out.old)
        → Works work result first (moment F.contents F.sound F.faults K.taken K.faults files.new out.new) }
{
    let mut partly = Partly::new(alloc, plan)?;
    match read_capture(&mut partly, plan, front, files) {
        Ok(()) => print_end(partly, plan, out),
        Err(stop) => {
            drop(partly);
            Err(stop)
        }
    }
}

/// Judges the messages of a file against a plan: of a capture, or of a text of DATA messages. Nothing is printed before the whole file is
/// read and judged. After what is damaged in a capture nothing more is read.
pub fn judge_file<F: Files, K: Sink>(
    alloc: Global,
    plan: &Plan,
    name: &str,
    files: &mut F,
    out: &mut K,
) -> Result<Status, Stop>
    ensures { Works (file_work plan.now name.now) result
        (moment F.contents F.sound F.faults K.taken K.faults files.old out.old)
        (moment F.contents F.sound F.faults K.taken K.faults files.new out.new) }
{
    if let Err(fault) = files.begin(name) {
        return Err(stopped(fault));
    }
    let mut octets = Vec::new(alloc);
    let mut piece = [0u8; PIECE];
    while octets.len() <= MOST_OCTETS {
        let taken = match files.take(&mut piece) {
            Ok(taken) => taken,
            Err(fault) => return Err(stopped(fault)),
        };
        if taken == 0 {
            return print_report(alloc, plan, &octets, out);
        }
        octets.extend_from_slice(&piece[..taken])?;
        if is_capture(&octets) {
            return judge_capture(alloc, plan, &octets, files, out);
        }
    }
    print_too_long(alloc, out)
}
