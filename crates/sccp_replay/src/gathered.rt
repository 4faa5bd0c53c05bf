//! The lines of a batch that has begun.
ghost use Rattle.std.specs.Prelude.{◌≡◌, ◌++◌, [], ◌∷◌, false, OnOk};
ghost use Rattle.sccp_replay.specs.Gathering.{lines_in};
ghost use Rattle.sccp_replay.specs.Replay.{is_message, is_full};

use crate::joined::Joined;
use sccp_base::{List, OutOfMemory};
use std::alloc::Global;
use std::marker::Model;
use std::mem::replace;
use trace_text::Line;

/// How many lines with a message a batch has at most.
const MOST_MESSAGES: u32 = 1024;

/// The lines of a batch that has begun, each with what it is to the batch. Contracts see it as the list of them.
#[derive(Drop)]
pub struct Gathered {
    batch: List<Joined>,
    messages: u32,
}

impl Model for Gathered {
    ghost use Rattle.std.specs.Prelude.{List};
    ghost use Rattle.sccp_replay.specs.Gathering.{AreGathered};
    ghost use Rattle.sccp_replay.specs.declared.joined.Joined.{Joined};

    ghost Value = { List Joined };

    ghost view = { λ g. g.batch };

    ghost invariant = { λ g. AreGathered g.batch g.messages };
}

fn is_message(line: &Line) -> bool
    ensures { result ≡ is_message line.now }
{
    matches!(line, Line::Msg { .. })
}

impl Gathered {
    /// A batch without a line. It takes no memory.
    pub fn new(alloc: Global) -> Gathered
        ensures { result ≡ [] }
    {
        Gathered {
            batch: List::new(alloc),
            messages: 0,
        }
    }

    /// Takes the lines, for a batch that is done. The next one has none yet.
    pub fn take(&mut self, alloc: Global) -> List<Joined>
        ensures gives { result ≡ self.old }
        ensures none { self.new ≡ [] }
    {
        self.messages = 0;
        replace(&mut self.batch, List::new(alloc))
    }

    /// Whether the batch has as many messages as a batch may have.
    pub fn is_full(&self) -> bool
        ensures { result ≡ is_full (lines_in self.now) }
    {
        self.messages >= MOST_MESSAGES
    }

    /// Adds one more line, to a batch that is not full.
    pub fn push(&mut self, one: Joined) -> Result<(), OutOfMemory>
        requires { is_full (lines_in self.old) ≡ false }
        ensures { OnOk result (self.new ≡ self.old ++ one ∷ []) }
    {
        let more = if is_message(&one.line.line) { 1 } else { 0 };
        self.batch.push(one)?;
        self.messages += more;
        Ok(())
    }
}
