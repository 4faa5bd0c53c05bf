//! A chunk that waits for others of its user message.
ghost use Rattle.std.specs.Prelude.{◌≡◌, IfOk};
ghost use Rattle.packet_layers.specs.Values.{data_as};
ghost use Rattle.user_messages.specs.Gathering.{received};

use crate::place::Place;
use packet_layers::{Data, Flow};
use sccp_base::{Octets, OutOfMemory};
use std::alloc::Global;
use std::marker::Model;

/// A DATA chunk with its place in the capture, in memory of its own.
#[derive(Drop)]
pub struct Fragment {
    place: Place,
    flow: Flow,
    tsn: u32,
    stream: u16,
    sequence: u16,
    protocol: u32,
    unordered: bool,
    begins: bool,
    ends: bool,
    payload: Octets,
}

impl Model for Fragment {
    ghost use Rattle.user_messages.specs.Gathering.{Received, received};

    ghost Value = { Received };

    ghost view = { λ f. received f.place (record {
      flow = f.flow;
      tsn = f.tsn;
      stream = f.stream;
      sequence = f.sequence;
      protocol = f.protocol;
      unordered = f.unordered;
      begins = f.begins;
      ends = f.ends;
      payload = f.payload;
    }) };
}

impl Fragment {
    /// The chunk, copied.
    pub fn new(alloc: Global, place: Place, chunk: &Data<'_>) -> Result<Fragment, OutOfMemory>
        ensures { IfOk result (λ fragment. fragment ≡ received place (data_as chunk.now)) }
    {
        let payload = Octets::from_vec(Vec::from_slice(alloc, chunk.payload)?);
        Ok(Fragment {
            place,
            flow: chunk.flow,
            tsn: chunk.tsn,
            stream: chunk.stream,
            sequence: chunk.sequence,
            protocol: chunk.protocol,
            unordered: chunk.unordered,
            begins: chunk.begins,
            ends: chunk.ends,
            payload,
        })
    }

    /// Its place in the capture.
    pub fn place(&self) -> Place
        ensures { result ≡ self.now.place }
    {
        self.place
    }

    /// The chunk.
    pub fn chunk(&self) -> Data<'_>
        ensures { data_as result ≡ self.now.chunk }
    {
        Data {
            flow: self.flow,
            tsn: self.tsn,
            stream: self.stream,
            sequence: self.sequence,
            protocol: self.protocol,
            unordered: self.unordered,
            begins: self.begins,
            ends: self.ends,
            payload: self.payload.as_slice(),
        }
    }
}
