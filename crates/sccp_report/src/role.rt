//! What a line of a trace is to a replay: a message to route, a later plan, or an event at a node.
ghost use Rattle.std.specs.Prelude.{◌≡◌, ◌<◌, length, IfOk, IfSome};
ghost use Rattle.std.specs.Option.{option_copied, option_map};
ghost use Rattle.sccp_message.specs.Reading.{reading};
ghost use Rattle.sccp_message.specs.Reads.{Reads};
ghost use Rattle.sccp_message.specs.Unitdata.{called_of};
ghost use Rattle.sccp_report.specs.Roles.{StandsIn, alone, as_role, event_role, incoming, named, is_for_management, role_by_called};
ghost use Rattle.sccp_report.specs.Roles.{role_of, role_of_message, status_at};

use crate::message_parts::management_data;
use plan_model::Plan;
use relay_net::Happening;
use sccp_address::Address;
use sccp_base::{Name, Octets, OutOfMemory, PointCode};
use sccp_couple::vouch_short;
use sccp_manage::Event;
use sccp_message::{DecodeFault, Message, decode};
use std::alloc::Global;
use trace_text::Line;

/// What is to happen at a node, which is given by its place in the plan.
#[derive(Drop)]
pub struct Due {
    pub node: u8,
    pub what: Happening,
}

/// What a line of a trace is to a replay.
#[derive(Drop)]
pub enum Role {
    /// A connectionless message that is to be routed: the node that it arrives at, the point that it is from, its octets.
    Routed {
        entry: u8,
        origin: PointCode,
        octets: Octets,
    },
    /// A later plan, in the file of this name.
    Later(Octets),
    /// Nothing happens: a skipped line, a message that does not read, or one for a node that the plan does not have.
    Aside,
    /// The line ends the batch before it, and then this happens, if anything.
    Alone(Option<Due>),
}

fn is_for_management(address: &Address) -> bool
    ensures { result ≡ is_for_management address.now }
{
    match address.ssn {
        Some(ssn) => address.by_ssn && ssn == 1,
        None => false,
    }
}

// A message for management, by its data. A service message has none that count, and nothing happens.
fn management_role(
    alloc: Global,
    plan: &Plan,
    entry: u8,
    origin: PointCode,
    payload: Option<&Octets>,
) -> Result<Role, OutOfMemory>
    requires entry { entry < length plan.now.nodes }
    ensures stands { IfOk result (λ role. StandsIn plan.now (as_role role)) }
    ensures value { IfOk result (λ role. as_role role ≡ alone (option_map (status_at entry origin) (option_copied payload.entry))) }
{
    match payload {
        Some(payload) => {
            let what = Happening::Managed(Event::Status {
                from: origin,
                payload: payload.try_clone(alloc)?,
            });
            Ok(Role::Alone(Some(Due { node: entry, what })))
        }
        None => Ok(Role::Alone(None)),
    }
}

// The role of a message that reads, by its called address.
fn role_of_message(
    alloc: Global,
    plan: &Plan,
    entry: u8,
    origin: PointCode,
    octets: &Octets,
    message: Message,
) -> Result<Role, OutOfMemory>
    requires entry { entry < length plan.now.nodes }
    requires reads { Reads octets.now message }
    ensures stands { IfOk result (λ role. StandsIn plan.now (as_role role)) }
    ensures value { IfOk result (λ role. as_role role ≡ role_by_called (incoming entry origin octets.now) message (called_of message)) }
{
    match message.called() {
        Some(address) => {
            if is_for_management(address) {
                let role = management_role(alloc, plan, entry, origin, management_data(&message));
                drop(message);
                return role;
            }
            drop(message);
            Ok(Role::Routed {
                entry,
                origin,
                octets: octets.try_clone(alloc)?,
            })
        }
        None => {
            vouch_short(octets.as_slice(), &message);
            Ok(Role::Alone(Some(Due {
                node: entry,
                what: Happening::Connected { origin, message },
            })))
        }
    }
}

// The role of octets that arrive at a node of the plan.
fn role_of_octets(
    alloc: Global,
    plan: &Plan,
    entry: u8,
    origin: PointCode,
    octets: &Octets,
) -> Result<Role, OutOfMemory>
    requires entry { entry < length plan.now.nodes }
    ensures stands { IfOk result (λ role. StandsIn plan.now (as_role role)) }
    ensures value { IfOk result (λ role. as_role role ≡ role_of_message (incoming entry origin octets.now) (reading octets.now)) }
{
    match decode(alloc, octets.as_slice()) {
        Ok(message) => role_of_message(alloc, plan, entry, origin, octets, message),
        Err(DecodeFault::OutOfMemory) => Err(OutOfMemory),
        Err(_) => Ok(Role::Aside),
    }
}

// The place of the node of a name.
fn node_named(plan: &Plan, name: &Name) -> Option<u8>
    ensures value { result ≡ named plan.now name.now }
    ensures within { IfSome result (λ node. node < length plan.now.nodes) }
{
    plan.node_named(name)
}

// An event at the node of a name.
fn event_role(plan: &Plan, name: &Name, event: Event) -> Role
    ensures stands { StandsIn plan.now (as_role result) }
    ensures value { as_role result ≡ event_role plan.now name.now event }
{
    match node_named(plan, name) {
        Some(node) => Role::Alone(Some(Due {
            node,
            what: Happening::Managed(event),
        })),
        None => Role::Alone(None),
    }
}

/// What a line of a trace is to a replay over the nodes of a plan.
///
/// A message is read once. One that is routed on subsystem number 1 is for SCCP management; its data are the status
/// message, if its type is UDT, XUDT or LUDT. Each other connectionless message is to be routed. One of a
/// connection-oriented type is for the connection sections of its node.
pub fn role_of(alloc: Global, plan: &Plan, line: &Line) -> Result<Role, OutOfMemory>
    // Its nodes are those of the plan, and what is to happen at them can happen.
    ensures stands { IfOk result (λ role. StandsIn plan.now (as_role role)) }
    ensures value { IfOk result (λ role. as_role role ≡ role_of plan.now line.now) }
{
    match line {
        Line::Msg {
            node,
            origin,
            octets,
        } => match node_named(plan, node) {
            Some(entry) => role_of_octets(alloc, plan, entry, *origin, octets),
            None => Ok(Role::Aside),
        },
        Line::Pause(node, pc) => Ok(event_role(plan, node, Event::Pause(*pc))),
        Line::Resume(node, pc) => Ok(event_role(plan, node, Event::Resume(*pc))),
        Line::NoSccp(node, pc) => Ok(event_role(plan, node, Event::NoSccp(*pc))),
        Line::Up(node, ssn) => Ok(event_role(plan, node, Event::Up(*ssn))),
        Line::Down(node, ssn) => Ok(event_role(plan, node, Event::Down(*ssn))),
        Line::Tick(node) => Ok(event_role(plan, node, Event::Tick)),
        Line::Plan(file) => Ok(Role::Later(file.try_clone(alloc)?)),
        Line::Fence => Ok(Role::Alone(None)),
        Line::Skip => Ok(Role::Aside),
    }
}
