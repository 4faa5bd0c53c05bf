//! Plans: the relays of a network, and the covers.
ghost use Rattle.std.specs.Prelude.{◌≡◌, ◌<◌, IsTrue, ◌↔◌, OnOk, IfOk, IfErr, [], ◌∷◌, length, All, Option};
ghost use Rattle.std.specs.List.{position, Any};
ghost use Rattle.plan_model.specs.Covered.{Covered, Covers};

use crate::cover::Cover;
use crate::faults::{first_fault, place_of_name, place_of_point};
use crate::limits::Limits;
use crate::node::Node;
use crate::plan_fault::PlanFault;
use crate::spot::Spot;
use sccp_base::{List, Name, OutOfMemory, PointCode};
use std::alloc::Global;
use std::marker::Model;

/// The relays of a network and what is covered.
#[derive(Drop)]
pub struct Plan {
    limits: Limits,
    nodes: List<Node>,
    covers: List<Cover>,
}

impl Model for Plan {
    ghost use Rattle.plan_model.specs.Network.{Network, IsPlan, network_within};

    ghost Value = { Network };

    ghost view = { λ p. network_within p.limits p.nodes p.covers };

    ghost invariant = { λ p. IsPlan (network_within p.limits p.nodes p.covers) };
}

impl Plan {
    ghost use Rattle.plan_model.specs.Network.{IsPlan, IsNode, network, network_within, has_name, has_point, node_of, point_of};
    ghost use Rattle.plan_model.specs.Faults.{plan_fault, plan_fault_within, HasFewDigits};

    /// A plan of these nodes and covers under the standard limits, or the first test that they fail: `Limit`, `Repeated`,
    /// `UnknownNode`, `RelayToSelf`, `NoCover`, `BadCover`. Each test goes over all of them before the next begins. It takes no
    /// memory.
    ///
    /// Each node's subsystems, and those that its rows and their targets name, lie from 2 to 255. Neither its subsystems nor
    /// its concerned points repeat. Each cover's least and most are at most 32.
    pub fn build(nodes: List<Node>, covers: List<Cover>) -> Result<Plan, PlanFault>
        requires nodes { All IsNode nodes }
        requires covers { All HasFewDigits covers }
        ensures plan { IfOk result (λ plan. plan ≡ network nodes covers) }
        ensures sound { OnOk result (IsPlan (network nodes covers)) }
        ensures faultless { OnOk result (plan_fault nodes covers ≡ None) }
        ensures fault { IfErr result (λ fault. plan_fault nodes covers ≡ Some fault) }
    {
        Plan::build_within(Limits::standard(), nodes, covers)
    }

    /// A plan of these nodes and covers under limits, or the first test that they fail, as for `build`.
    pub fn build_within(
        limits: Limits,
        nodes: List<Node>,
        covers: List<Cover>,
    ) -> Result<Plan, PlanFault>
        requires nodes { All IsNode nodes }
        requires covers { All HasFewDigits covers }
        ensures plan { IfOk result (λ plan. plan ≡ network_within limits nodes covers) }
        ensures sound { OnOk result (IsPlan (network_within limits nodes covers)) }
        ensures faultless { OnOk result (plan_fault_within limits nodes covers ≡ None) }
        ensures fault { IfErr result (λ fault. plan_fault_within limits nodes covers ≡ Some fault) }
    {
        match first_fault(limits, nodes.as_slice(), covers.as_slice()) {
            Some(fault) => Err(fault),
            None => Ok(Plan {
                limits,
                nodes,
                covers,
            }),
        }
    }

    /// The plan of the nodes of a plan, under its limits, with one of its covers. Nothing of the nodes is copied. If memory runs
    /// out, both are given up.
    pub fn alone(
        alloc: Global,
        limits: Limits,
        nodes: List<Node>,
        cover: Cover,
    ) -> Result<Plan, OutOfMemory>
        requires { IsPlan (network_within limits nodes (cover ∷ [])) }
        ensures { IfOk result (λ plan. plan ≡ network_within limits nodes (cover ∷ [])) }
    {
        let mut covers = List::new(alloc);
        match covers.push(cover) {
            Ok(()) => Ok(Plan {
                limits,
                nodes,
                covers,
            }),
            Err(fault) => {
                drop(covers);
                drop(nodes);
                Err(fault)
            }
        }
    }

    /// The nodes and the covers, each in their order.
    pub fn into_parts(self) -> (List<Node>, List<Cover>)
        ensures nodes { result.0 ≡ self.nodes }
        ensures covers { result.1 ≡ self.covers }
        ensures sound { IsPlan self }
    {
        (self.nodes, self.covers)
    }

    /// The limits that it was made under.
    pub fn limits(&self) -> Limits
        ensures { result ≡ self.now.limits }
    {
        self.limits
    }

    /// The nodes in their order.
    pub fn nodes(&self) -> &List<Node>
        ensures value { result.now ≡ self.now.nodes }
        ensures sound { IsPlan self.now }
    {
        &self.nodes
    }

    /// The covers in their order.
    pub fn covers(&self) -> &List<Cover>
        ensures value { result.now ≡ self.now.covers }
        ensures sound { IsPlan self.now }
    {
        &self.covers
    }

    /// The place of the node with this point code.
    pub fn node_at(&self, pc: PointCode) -> Option<u8>
        ensures { result ≡ position (has_point pc) self.now.nodes }
    {
        let place = place_of_point(self.nodes.as_slice(), pc)?;
        Some(place as u8)
    }

    /// The place of the node with this name.
    pub fn node_named(&self, name: &Name) -> Option<u8>
        ensures { result ≡ position (has_name name.now) self.now.nodes }
    {
        let place = place_of_name(self.nodes.as_slice(), name)?;
        Some(place as u8)
    }

    /// The place of the node with a point code that some node has.
    pub fn relay_at(&self, pc: PointCode) -> u8
        requires { node_of self.now.nodes pc < length self.now.nodes }
        ensures { result ≡ node_of self.now.nodes pc }
    {
        match self.node_at(pc) {
            Some(node) => node,
            None => unreachable!(),
        }
    }

    /// The point code of the node at a place, or 0 if the plan has no node there.
    pub fn point_of(&self, node: u8) -> PointCode
        ensures { result ≡ point_of self.now node }
    {
        match self.nodes.as_slice().get(usize::from(node)) {
            Some(node) => node.pc,
            None => PointCode::new(0).unwrap(),
        }
    }

    /// Whether some cover has the spot.
    pub fn covered(&self, spot: &Spot) -> bool
        ensures { IsTrue result ↔ Covered self.now spot.now }
    {
        any_covers(self.covers.as_slice(), spot)
    }
}

/// Whether some cover of the plan has the spot. Such a cover has the spot's node, selector and subsystem number. The spot's
/// digits are decimal, begin with the cover's prefix, and number from its least to its most.
pub fn covered(plan: &Plan, spot: &Spot) -> bool
    ensures { IsTrue result ↔ Covered plan.now spot.now }
{
    plan.covered(spot)
}

fn any_covers(covers: &[Cover], spot: &Spot) -> bool
    ensures { IsTrue result ↔ Any (λ cover. Covers cover spot.now) covers.now }
{
    covers.iter().any(|cover| cover.has(spot))
}
