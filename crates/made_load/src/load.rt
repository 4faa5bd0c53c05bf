//! Messages that are made and sent one after another.
ghost use Rattle.std.specs.Prelude.{◌≡◌, ◌<◌, ◌+◌, ◌-◌, ◌^◌, length, IfOk, OnOk};
ghost use Rattle.relay_net.specs.Journeys.{held_at, journey};
ghost use Rattle.relay_net.specs.States.{markings_of};
ghost use Rattle.made_load.specs.Relays.{load_plan};
ghost use Rattle.made_load.specs.Loads.{all_passed, all_sent, before_message, begun, counted, part_counts, sent, turn, turned, IsAfter};
ghost use Rattle.made_load.specs.Loads.{IsRoomy};
ghost use Rattle.made_load.specs.Messages.{origin};
ghost use Rattle.made_load.specs.Draws.{after, drawn};

use crate::counts::Counts;
use crate::draws::Draws;
use crate::fate::passed;
use crate::messages::{made_octets, origin};
use crate::rows::end_point;
use plan_check::Accepted;
use plan_model::Plan;
use relay_net::{Happening, Net, journey};
use sccp_base::{Mark, Marking, OutOfMemory, PointCode};
use sccp_manage::Event;
use std::alloc::Global;
use std::marker::Model;

/// The state of the sending: what was drawn last, what the relays keep, and what was counted.
#[derive(Drop)]
struct Load {
    draws: Draws,
    net: Net,
    counts: Counts,
}

impl Model for Load {
    ghost use Rattle.made_load.specs.Loads.{Load as Sending};

    ghost Value = { Sending };

    ghost view = { λ l. record { at = l.draws; states = l.net; counts = l.counts } };
}

/// The marking that a relay holds.
fn marking_at(net: &Net, relay: u8) -> &Marking
    requires { relay < length net.now }
    ensures { result.now ≡ held_at (markings_of net.now) relay }
{
    net.states()[usize::from(relay)].marking()
}

/// The event at a relay that it loses a point or, if it has lost it, that the point is there again.
fn turn(net: &Net, relay: u8, point: PointCode) -> Event
    requires { relay < length net.now }
    ensures { result ≡ turn net.now relay point }
{
    if marking_at(net, relay).holds(Mark::PointCode(point)) {
        Event::Resume(point)
    } else {
        Event::Pause(point)
    }
}

/// The relay that a drawn value names loses or finds the destination that the value names.
fn turn_drawn(plan: &Plan, net: &mut Net, value: u16) -> Result<(), OutOfMemory>
    requires nodes { length plan.now.nodes ≡ 8 }
    requires states { length net.old ≡ 8 }
    ensures { OnOk result (net.new ≡ turned plan.now net.old value) }
{
    let relay = (value / 10 % 8) as u8;
    let event = turn(net, relay, end_point((value % 10) as u8));
    net.apply(plan, relay, Happening::Managed(event))?;
    Ok(())
}

/// Sends the octets of a message on their journey, and counts it.
fn carry(
    alloc: Global,
    accepted: &Accepted,
    net: &Net,
    octets: &[u8],
    counts: &mut Counts,
) -> Result<(), OutOfMemory>
    requires nodes { length accepted.now.plan.nodes ≡ 8 }
    requires states { length net.now ≡ 8 }
    requires room { IsRoomy counts.old }
    ensures { OnOk result (counts.new ≡ counted (journey accepted.now.plan (markings_of net.now) 0 origin octets.now) counts.old) }
{
    let journey = journey(alloc, accepted, net.states(), 0, origin(), octets)?;
    let (nodes, fate) = passed(journey);
    counts.add(nodes, fate);
    Ok(())
}

impl Load {
    /// The load before the first message.
    fn begin(alloc: Global, number: u32, plan: &Plan) -> Result<Load, OutOfMemory>
        ensures { IfOk result (λ load. load ≡ begun number plan.now) }
    {
        Ok(Load {
            draws: Draws::new(number),
            net: Net::new(alloc, plan)?,
            counts: Counts::none(),
        })
    }

    /// Before every sixty-fourth message, lets a drawn relay lose or find a drawn destination.
    fn prepare(&mut self, plan: &Plan, place: u32) -> Result<(), OutOfMemory>
        requires nodes { length plan.now.nodes ≡ 8 }
        requires states { length self.old.states ≡ 8 }
        ensures { OnOk result (self.new ≡ before_message plan.now place self.old) }
    {
        if place % 64 == 63 {
            let value = self.draws.draw();
            turn_drawn(plan, &mut self.net, value)?;
        }
        Ok(())
    }

    /// Makes the message at a place, and sends it on its journey.
    fn send(&mut self, alloc: Global, accepted: &Accepted, place: u32) -> Result<(), OutOfMemory>
        requires nodes { length accepted.now.plan.nodes ≡ 8 }
        requires after { IsAfter place self.old }
        ensures { OnOk result (self.new ≡ sent accepted.now.plan place self.old) }
    {
        let octets = made_octets(place, &mut self.draws);
        carry(alloc, accepted, &self.net, &octets, &mut self.counts)
    }

    /// Makes and sends the messages from a place up to another. Each is made when it is sent, and not kept.
    fn send_all(
        &mut self,
        alloc: Global,
        accepted: &Accepted,
        from: u32,
        upto: u32,
    ) -> Result<(), OutOfMemory>
        requires nodes { length accepted.now.plan.nodes ≡ 8 }
        requires after { IsAfter from self.old }
        ensures { OnOk result (self.new ≡ all_sent accepted.now.plan (upto - from) from self.old) }
    {
        for place in from..upto {
            self.prepare(accepted.plan(), place)?;
            self.send(alloc, accepted, place)?;
        }
        Ok(())
    }

    /// Passes over the messages up to a place without sending them: only their draws and the changes of relays happen.
    fn pass_all(&mut self, plan: &Plan, upto: u32) -> Result<(), OutOfMemory>
        requires nodes { length plan.now.nodes ≡ 8 }
        requires states { length self.old.states ≡ 8 }
        ensures { OnOk result (self.new ≡ all_passed plan.now upto 0 self.old) }
    {
        for place in 0..upto {
            self.prepare(plan, place)?;
            self.draws.pass();
        }
        Ok(())
    }
}

/// The counts of the messages from a place up to another, over the relays of an accepted plan, which is the number's. The
/// error is want of memory.
pub(crate) fn part_counts(
    alloc: Global,
    accepted: &Accepted,
    number: u32,
    from: u32,
    upto: u32,
) -> Result<Counts, OutOfMemory>
    requires { accepted.now.plan ≡ load_plan number }
    ensures { IfOk result (λ counts. counts ≡ part_counts number from (upto - from)) }
{
    let mut load = Load::begin(alloc, number, accepted.plan())?;
    load.pass_all(accepted.plan(), from)?;
    load.send_all(alloc, accepted, from, upto)?;
    Ok(load.counts)
}
