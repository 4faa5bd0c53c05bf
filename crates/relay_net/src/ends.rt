// What the end of a journey leaves to be done.
ghost use Rattle.std.specs.Prelude.{◌≡◌, IfOk};
ghost use Rattle.std.specs.Option.{option_and_then};
ghost use Rattle.sccp_message.specs.Reading.{reading};
ghost use Rattle.sccp_message.specs.Unitdata.{called_of};
ghost use Rattle.relay_net.specs.Batches.{ssn_if_routed, ssn_in};
ghost use Rattle.relay_net.specs.Journeys.{last_node};

use sccp_address::Address;
use sccp_base::OutOfMemory;
use sccp_message::{DecodeFault, Message, decode};
use std::alloc::Global;

/// The last of some nodes, or the first node given if there are none.
pub(crate) fn last_node(first: u8, path: &[u8]) -> u8
    ensures { result ≡ last_node first path.now }
{
    let mut last = first;
    for node in path {
        last = *node;
    }
    last
}

/// The subsystem number of an address that routes on it.
fn ssn_if_routed(address: &Address) -> Option<u8>
    ensures { result ≡ ssn_if_routed address.now }
{
    if address.by_ssn { address.ssn } else { None }
}

/// The subsystem number by which a connectionless message is routed.
fn ssn_of(message: &Message) -> Option<u8>
    ensures { result ≡ option_and_then ssn_if_routed (called_of message.now) }
{
    match message.called() {
        Some(address) => ssn_if_routed(address),
        None => None,
    }
}

/// The subsystem number on which octets are routed, if they are a connectionless message that routes on it.
pub(crate) fn ssn_in(alloc: Global, octets: &[u8]) -> Result<Option<u8>, OutOfMemory>
    ensures { IfOk result (λ ssn. ssn ≡ ssn_in (reading octets.now)) }
{
    match decode(alloc, octets) {
        Ok(message) => {
            let ssn = ssn_of(&message);
            drop(message);
            Ok(ssn)
        }
        Err(DecodeFault::OutOfMemory) => Err(OutOfMemory),
        Err(_) => Ok(None),
    }
}
