//! The lines of a packet.
ghost use Rattle.std.specs.Prelude.{◌≡◌, ◌++◌, map, IfOk, OnOk};
ghost use Rattle.packet_layers.specs.Values.{found_as};
ghost use Rattle.capture_trace.specs.Items.{found_step};
ghost use Rattle.capture_trace.specs.Words.{text_of, text_of_lines};
ghost use Rattle.capture_trace.specs.Traced.{all_found, standing};

use crate::chunks::take_chunk;
use crate::counts::{Counts, counted};
use crate::items::put_carried;
use crate::kind::Kind;
use crate::subject::Subject;
use packet_layers::Found;
use plan_model::Plan;
use sccp_base::OutOfMemory;
use std::alloc::Global;
use user_messages::{Gatherer, Place};

/// Appends the line of one thing that a packet carries.
#[tactic(auto, unfolding(crate::specs::Items::found_step))]
fn put_found(
    alloc: Global,
    text: &mut Vec<u8>,
    plan: &Plan,
    gatherer: &mut Gatherer,
    packet: u64,
    found: &Found<'_>,
) -> Result<Kind, OutOfMemory>
    ensures gathered { OnOk result (gatherer.new ≡ (found_step plan.now packet gatherer.old (found_as found.now)).gathered) }
    ensures kind { IfOk result (λ kind. kind ≡ (found_step plan.now packet gatherer.old (found_as found.now)).item.kind) }
    ensures text { OnOk result (text.new.items ≡ text.old.items
        ++ text_of (found_step plan.now packet gatherer.old (found_as found.now)).item.line) }
{
    if let Found::Chunk(chunk, data) = found {
        let place = Place {
            packet,
            chunk: *chunk,
        };
        return take_chunk(alloc, text, plan, gatherer, place, data);
    }
    let subject = Subject {
        packet,
        chunk: None,
    };
    put_carried(alloc, text, plan, subject, found)
}

/// Appends the lines of what a packet carries, in its order, and gives the counts after it.
pub fn put_all(
    alloc: Global,
    text: &mut Vec<u8>,
    plan: &Plan,
    gatherer: &mut Gatherer,
    counts: &Counts,
    found: &[Found<'_>],
) -> Result<Counts, OutOfMemory>
    ensures now { IfOk result (λ after.
        standing after gatherer.new ≡ (all_found plan.now (map found_as found.now) (standing counts.now gatherer.old)).now) }
    ensures text { OnOk result (text.new.items ≡ text.old.items
        ++ text_of_lines (all_found plan.now (map found_as found.now) (standing counts.now gatherer.old)).lines) }
{
    let mut now = *counts;
    for one in found {
        let kind = put_found(alloc, text, plan, gatherer, now.packets, one)?;
        now = counted(kind, &now)?;
    }
    Ok(now)
}
