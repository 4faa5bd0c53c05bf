//! What is counted of the messages of a load.
ghost use Rattle.std.specs.Prelude.{◌≡◌, ◌≤◌};

use crate::fate::Fate;

/// The number of messages that were sent, of those that ended at a destination, of those that were returned, and of
/// translations on their ways. The ways of service messages do not count.
#[derive(Drop)]
pub struct Counts {
    pub messages: usize,
    pub ended: usize,
    pub returned: usize,
    pub translations: usize,
}

impl Counts {
    ghost use Rattle.made_load.specs.Loads.{no_counts, plus, with_message, IsRoomy};

    /// The counts before the first message.
    pub(crate) fn none() -> Counts
        ensures { result ≡ no_counts }
    {
        Counts {
            messages: 0,
            ended: 0,
            returned: 0,
            translations: 0,
        }
    }

    /// Counts one more message, which reached this number of nodes and has this fate.
    pub(crate) fn add(&mut self, nodes: usize, fate: Fate)
        requires few { nodes ≤ 15 }
        requires room { IsRoomy self.old }
        ensures { self.new ≡ with_message nodes fate self.old }
    {
        self.messages += 1;
        self.translations += nodes;
        match fate {
            Fate::Ended => self.ended += 1,
            Fate::Returned => self.returned += 1,
            Fate::Other => {}
        }
    }

    /// Adds the counts of further messages.
    pub(crate) fn join(&mut self, more: &Counts)
        requires room { IsRoomy (plus self.old more.now) }
        ensures { self.new ≡ plus self.old more.now }
    {
        self.messages += more.messages;
        self.ended += more.ended;
        self.returned += more.returned;
        self.translations += more.translations;
    }
}
