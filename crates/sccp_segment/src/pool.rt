//! The pool that puts messages together from their segments.
ghost use Rattle.std.specs.Prelude.{◌≡◌, [], false, length, OnOk, OnErr};
ghost use Rattle.sccp_segment.specs.declared.key.Key.{Key};
ghost use Rattle.sccp_segment.specs.Keys.{same_key};
ghost use Rattle.sccp_segment.specs.Pooling.{Gives, IsPool, took, under_way};

use crate::key::Key;
use crate::pool_fault::PoolFault;
use crate::run::Run;
use crate::segment::Segment;
use crate::taken::Taken;
use crate::taking::step;
use std::alloc::Global;
use std::marker::Model;

/// The messages that are being put together from their segments (Q.714 section 4.1), 64 at most. Contracts see the pool as
/// the list of what has arrived of each.
#[derive(Drop)]
pub struct Pool {
    alloc: Global,
    runs: Vec<Run>,
}

impl Model for Pool {
    ghost use Rattle.std.specs.Prelude.{List};
    ghost use Rattle.sccp_segment.specs.declared.run.Run.{Run};

    ghost Value = { List Run };

    ghost use Rattle.sccp_segment.specs.Pooling.{IsPool};

    ghost view = { λ p. p.runs.items };

    ghost invariant = { λ p. IsPool p.runs.items };
}

impl Pool {
    /// A pool with no message under way. It takes no memory, and keeps the allocator for what it takes later.
    pub fn new(alloc: Global) -> Self
        ensures { result ≡ [] }
    {
        Pool {
            alloc,
            runs: Vec::new(alloc),
        }
    }

    /// The number of messages that are under way, 64 at most.
    pub fn len(&self) -> usize
        ensures count { result ≡ length self.now }
        ensures kept { IsPool self.now }
    {
        self.runs.len()
    }

    /// Takes a segment (Q.714 section 4.1).
    ///
    /// A first segment that none follows is a whole message, and ends what was under way of its key. A first segment that
    /// others follow starts its key; what was under way of it is given up (`Restarted`). It is refused (`Full`) if its key
    /// is not under way and 64 others are. Another segment is dropped if its key is not under way (`NotFirst`). It ends its
    /// key if its remaining number is not the last one less one (`OutOfStep`), and is appended otherwise. After a fault the
    /// pool is as it was, and the segment is given up.
    pub fn take(&mut self, key: Key, segment: Segment) -> Result<Taken, PoolFault>
        ensures answer { Gives (λ taken. taken) result (took self.old key segment).answer }
        ensures ok { OnOk result (self.new ≡ (took self.old key segment).runs) }
        ensures others { (other : Key) → same_key key other ≡ false → under_way self.new other ≡ under_way self.old other }
        ensures err { OnErr result (self.new ≡ self.old) }
        ensures kept { IsPool self.new }
    {
        step(self.alloc, &mut self.runs, key, segment)
    }
}
