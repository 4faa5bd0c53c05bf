//! A growing list of octets.
ghost use Rattle.std.specs.Prelude.{◌≡◌, [], ◌∷◌, ◌++◌, length, take, drop, OnOk, OnErr, IfOk};
ghost use Rattle.std.specs.Borrow.{Lends, sem, Array, u8 as byte};
ghost use Rattle.sccp_base.specs.contracts.octets.Octets.{the_row};

use crate::out_of_memory::OutOfMemory;
use std::alloc::Global;
use std::marker::Model;

/// A growing list of octets, which contracts see as that list.
#[derive(Drop)]
pub struct Octets {
    items: Vec<u8>,
}

impl Model for Octets {
    ghost use Rattle.std.specs.Prelude.{ℕ, List};

    ghost Value = { List ℕ };

    ghost view = { λ o. o.items.items };
}

impl Octets {
    /// No octets. It takes no memory.
    pub fn new(alloc: Global) -> Self
        ensures { result ≡ [] }
    {
        Octets {
            items: Vec::new(alloc),
        }
    }

    /// Puts an octet at the end. If memory runs out, the octets stay as they were.
    pub fn push(&mut self, item: u8) -> Result<(), OutOfMemory>
        ensures ok { OnOk result (self.new ≡ self.old ++ item ∷ []) }
        ensures err { OnErr result (self.new ≡ self.old) }
    {
        self.items.push(item)?;
        Ok(())
    }

    /// These octets, in the same memory.
    pub fn from_vec(items: Vec<u8>) -> Self
        ensures { result ≡ items.items }
    {
        Octets { items }
    }

    /// Gives the octets back as a vector, in the same memory.
    pub fn into_vec(self) -> Vec<u8>
        ensures { result.items ≡ self }
    {
        self.items
    }

    /// The octets in order.
    pub fn as_slice(&self) -> &[u8]
        ensures { result.now ≡ self.now }
    {
        self.items.as_slice()
    }

    /// The octets, to be written over. Their number stays.
    pub fn as_mut_slice(&mut self) -> &mut [u8]
        ensures* writes_back { sem 𝓛 (Lends the_row (Array byte 0) self.entry result
            (λ w. take (length self.entry.now) (w ++ drop (length w) self.entry.now))) }
        ensures value { result.now ≡ self.old }
    {
        self.items.as_mut_slice()
    }

    /// The same octets in memory of their own.
    pub fn try_clone(&self, alloc: Global) -> Result<Octets, OutOfMemory>
        ensures { IfOk result (λ copy. copy ≡ self.now) }
    {
        Ok(Octets {
            items: Vec::from_slice(alloc, self.items.as_slice())?,
        })
    }
}
