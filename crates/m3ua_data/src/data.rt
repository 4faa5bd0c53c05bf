//! The parameters of a DATA message.
ghost use Rattle.std.specs.Prelude.{◌≡◌, ◌≤◌, length};
ghost use Rattle.std.specs.Option.{SomeIff};

use crate::tagged::Tagged;
use sccp_base::List;
use std::marker::Model;

/// How many parameters a message may have.
pub const MOST_PARAMETERS: u16 = 1024;

/// A DATA message: its parameters in their order, at most 1,024, which contracts see as that list.
#[derive(Drop)]
pub struct Data {
    params: List<Tagged>,
}

impl Model for Data {
    ghost use Rattle.std.specs.Prelude.{List, ◌≤◌, length};
    ghost use Rattle.m3ua_data.specs.declared.tagged.Tagged.{Tagged};

    ghost Value = { List Tagged };

    ghost view = { λ d. d.params };

    ghost invariant = { λ d. length d.params ≤ 1024 };
}

impl Data {
    /// The message of these parameters. `None` exactly for more than 1,024 parameters.
    pub fn new(params: List<Tagged>) -> Option<Data>
        ensures { SomeIff result (length params ≤ 1024) params }
    {
        if params.as_slice().len() <= usize::from(MOST_PARAMETERS) {
            Some(Data { params })
        } else {
            None
        }
    }

    /// The parameters, in the order of the message.
    pub fn params(&self) -> &[Tagged]
        ensures same { result.now ≡ self.now }
        ensures few { length self.now ≤ 1024 }
    {
        self.params.as_slice()
    }
}
