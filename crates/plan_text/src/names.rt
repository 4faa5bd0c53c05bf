//! The names of the nodes of a text, in an order.
ghost use Rattle.std.specs.Prelude.{◌≡◌, if◌then◌else◌, ℕ, List, Some, None, OnOk, IfErr};
ghost use Rattle.std.specs.BTreeMap.{get_by};
ghost use Rattle.std.specs.Ordering.{nat_cmp};
ghost use Rattle.std.specs.Cmp.Lexicographic.{slice_cmp};
ghost use Rattle.std.specs.Option.{option_or};
ghost use Rattle.std.specs.Str.{bytes_eq};
ghost use Rattle.plan_model.specs.declared.plan_fault.PlanFault.{PlanFault};

use crate::document::text_at;
use plan_model::PlanFault;
use std::alloc::Global;
use std::collections::BTreeMap;
use std::marker::Model;
use toml::Value;

/// The nodes of a text, with the place of the first one of each name.
#[derive(Drop)]
pub(crate) struct Names<'a> {
    nodes: &'a [Value],
    places: BTreeMap<&'a [u8], usize>,
}

impl<'a> Model for Names<'a> {
    ghost use Rattle.std.specs.Prelude.{◌≡◌, ℕ, List, map};
    ghost use Rattle.std.specs.Ordering.{nat_cmp};
    ghost use Rattle.std.specs.BTreeMap.{get_by};
    ghost use Rattle.std.specs.Cmp.Lexicographic.{slice_cmp};
    ghost use Rattle.std.specs.List.{position};
    ghost use Rattle.std.specs.Coded.{coded_list};
    ghost use Rattle.toml.specs.declared.value.Value.{Value as Written};
    ghost use Rattle.toml.specs.contracts.value.Value as e;
    ghost use Rattle.toml.specs.View.{view as seen};
    ghost use Rattle.plan_text.specs.Targets.{is_named};

    ghost Value = { List Written };

    ghost coded = { coded_list e.the_row.coded };

    ghost view = { λ n. n.nodes.now };

    ghost invariant = { λ n. (name : List ℕ) → get_by (λ k. slice_cmp nat_cmp name k.now) n.places
        ≡ position (is_named name) (map seen n.nodes.now) };
}

impl<'a> Names<'a> {
    ghost use Rattle.std.specs.Prelude.{◌≡◌, ◌<◌, IfOk, IfErr, IfSome, map, length, option_map};
    ghost use Rattle.std.specs.List.{find, position};
    ghost use Rattle.toml.specs.View.{view};
    ghost use Rattle.plan_model.specs.declared.plan_fault.PlanFault.{PlanFault};
    ghost use Rattle.plan_text.specs.Targets.{is_named};

    /// The names of these nodes.
    pub(crate) fn of(alloc: Global, nodes: &'a [Value]) -> Result<Names<'a>, PlanFault>
        ensures names { IfOk result (λ names. names ≡ nodes.now) }
        ensures err { IfErr result (λ fault. fault ≡ PlanFault.OutOfMemory) }
    {
        let mut places = BTreeMap::new(alloc);
        for (place, node) in nodes.iter().enumerate() {
            put_first(&mut places, text_at(node, "name").as_bytes(), place)?;
        }
        Ok(Names { nodes, places })
    }

    /// The place of the first node of a name.
    pub(crate) fn place(&self, name: &[u8]) -> Option<usize>
        ensures place { result ≡ position (is_named name.now) (map view self.now) }
        ensures inside { IfSome result (λ i. i < length self.now) }
    {
        self.places.get(name).copied()
    }

    /// The first node of a name.
    pub(crate) fn node(&self, name: &[u8]) -> Option<&'a Value>
        ensures { option_map (λ found. view found.now) result ≡ find (is_named name.now) (map view self.now) }
    {
        match self.place(name) {
            Some(place) => Some(&self.nodes[place]),
            None => None,
        }
    }

    /// The number of nodes.
    pub(crate) fn count(&self) -> usize
        ensures { result ≡ length self.now }
    {
        self.nodes.len()
    }
}

/// Puts a place under a name that has none.
fn put_first<'a>(
    places: &mut BTreeMap<&'a [u8], usize>,
    name: &'a [u8],
    place: usize,
) -> Result<(), PlanFault>
    ensures first { OnOk result ((q : List ℕ) → get_by (λ k. slice_cmp nat_cmp q k.now) places.new
        ≡ option_or (get_by (λ k. slice_cmp nat_cmp q k.now) places.old) (if bytes_eq name.now q then Some place else None)) }
    ensures err { IfErr result (λ fault. fault ≡ PlanFault.OutOfMemory) }
{
    if places.get(name).is_some() {
        return Ok(());
    }
    match places.insert(name, place) {
        Ok(_) => Ok(()),
        Err(_) => Err(PlanFault::OutOfMemory),
    }
}
