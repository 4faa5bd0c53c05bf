//! A section of a pcapng file.
ghost use Rattle.std.specs.Prelude.{◌≡◌, IfOk, OnOk};
ghost use Rattle.capture_file.specs.Units.{empty_section};
ghost use Rattle.capture_file.specs.Views.{changed};

use crate::order::Order;
use crate::step::Change;
use sccp_base::{List, OutOfMemory};
use std::alloc::Global;

/// What was read so far of a section of a pcapng file: the order of its numbers, the link types of its interfaces in their
/// order, and the snap length of the first one.
#[derive(Drop)]
pub struct Section {
    pub order: Order,
    pub links: List<u16>,
    pub snap: u32,
}

impl Section {
    /// A section without interfaces. It takes no memory.
    pub fn new(alloc: Global, order: Order) -> Section
        ensures { result ≡ empty_section order }
    {
        Section {
            order,
            links: List::new(alloc),
            snap: 0,
        }
    }

    /// The same section once more.
    pub fn copy(&self, alloc: Global) -> Result<Section, OutOfMemory>
        ensures { IfOk result (λ s. s ≡ self.now) }
    {
        let links = Vec::from_slice(alloc, self.links.as_slice())?;
        Ok(Section {
            order: self.order,
            links: List::from_vec(links),
            snap: self.snap,
        })
    }

    /// Takes over what a unit changes.
    pub fn change(&mut self, alloc: Global, change: Change) -> Result<(), OutOfMemory>
        ensures { OnOk result (self.new ≡ changed change self.old) }
    {
        match change {
            Change::Stays => {}
            Change::NewSection(order) => *self = Section::new(alloc, order),
            Change::NewInterface(link, snap) => {
                if self.links.as_slice().is_empty() {
                    self.snap = snap;
                }
                self.links.push(link)?;
            }
        }
        Ok(())
    }
}
