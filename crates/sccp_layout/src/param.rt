//! Optional parameters.
ghost use Rattle.std.specs.Prelude.{◌≡◌, ◌<◌, IfOk};
ghost use Rattle.std.specs.Option.{SomeIff};
ghost use Rattle.sccp_layout.specs.Parameter.{parameter};

use sccp_base::{List, Octets, OutOfMemory};
use std::alloc::Global;
use std::marker::Model;

/// An optional parameter: its name, which is not 0, and its contents (Q.713 section 3).
#[derive(Drop)]
pub struct Param {
    name: u8,
    octets: Octets,
}

impl Model for Param {
    ghost use Rattle.std.specs.Prelude.{◌<◌};
    ghost use Rattle.sccp_layout.specs.Parameter.{Parameter};

    ghost Value = { Parameter };

    ghost view = { λ p. record { name = p.name; octets = p.octets } };

    ghost invariant = { λ p. 0 < p.name };
}

impl Param {
    /// The parameter of a name and contents. `None` for the name 0, which is the end of optional parameters.
    pub fn new(name: u8, octets: Octets) -> Option<Param>
        ensures { SomeIff result (0 < name) (parameter name octets) }
    {
        if name == 0 {
            None
        } else {
            Some(Param { name, octets })
        }
    }

    /// The name, from 1 to 255.
    pub fn name(&self) -> u8
        ensures same { result ≡ self.now.name }
        ensures named { 0 < self.now.name }
    {
        self.name
    }

    /// The contents, without name and length.
    pub fn octets(&self) -> &[u8]
        ensures { result.now ≡ self.now.octets }
    {
        self.octets.as_slice()
    }

    /// The same parameter in memory of its own.
    pub fn try_clone(&self, alloc: Global) -> Result<Param, OutOfMemory>
        ensures { IfOk result (λ copy. copy ≡ self.now) }
    {
        let octets = self.octets.try_clone(alloc)?;
        Ok(Param {
            name: self.name,
            octets,
        })
    }
}

/// The same parameters in memory of their own.
pub fn copied_params(alloc: Global, params: &List<Param>) -> Result<List<Param>, OutOfMemory>
    ensures { IfOk result (λ copy. copy ≡ params.now) }
{
    let mut copy = List::new(alloc);
    for param in params.as_slice() {
        copy.push(param.try_clone(alloc)?)?;
    }
    Ok(copy)
}
