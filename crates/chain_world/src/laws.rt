//! The law on offers: what goes on the link is the message that was offered.
ghost use Rattle.std.specs.Prelude.{◌≡◌, ℕ};
ghost use Rattle.sccp_message.specs.declared.message.Message.{Message};
ghost use Rattle.sccp_message.specs.Written.{IsMessage};
ghost use Rattle.couple_chain.specs.World.{Network, World, offer_fault};
ghost use Rattle.chain_world.specs.Offering.{as_read, fault_of};

/// A message is offered as it is, if its fields have values that reading can give. Its fault is the first test that it fails.
/// The last test is that it can be written and that each known parameter reads.
pub fn offers_are_of_the_message()
    ensures message { (m : Message) → IsMessage m → as_read m ≡ m }
    ensures fault { (network : Network) (w : World) (from to : ℕ) (m : Message) → IsMessage m
        → fault_of network w from to m ≡ offer_fault network w from to m }
{}
