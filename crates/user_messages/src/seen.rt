//! The keys of chunks that a later chunk may repeat.
ghost use Rattle.std.specs.Prelude.{◌≡◌, ◌≤◌, [], length, IfOk, OnOk, OnErr};
ghost use Rattle.std.specs.List.{list_any};
ghost use Rattle.user_messages.specs.Chunks.{same_key};
ghost use Rattle.user_messages.specs.Gathering.{is_repeat, noted, remembered};

use crate::key::Key;
use lru::LruCache;
use sccp_base::OutOfMemory;
use std::alloc::Global;
use std::marker::Model;
use std::num::NonZeroUsize;

// The number of keys that are kept.
const MOST_KEYS: usize = 65_536;

/// The keys of chunks that a later chunk may repeat, 65,536 at most. Contracts see it as the list of them, the latest first.
#[derive(Drop)]
pub struct Seen {
    keys: LruCache<Key, ()>,
}

impl Model for Seen {
    ghost use Rattle.std.specs.Prelude.{◌≡◌, ◌≤◌, List, length};
    ghost use Rattle.std.specs.Map.{keys_of};
    ghost use Rattle.user_messages.specs.declared.key.Key.{Key};

    ghost Value = { List Key };

    ghost view = { λ s. keys_of s.keys.entries };

    ghost invariant = { λ s. s.keys.cap ≡ 65536 };
}

impl Seen {
    /// No keys.
    pub fn new(alloc: Global) -> Result<Seen, OutOfMemory>
        ensures { IfOk result (λ seen. seen ≡ []) }
    {
        let most = NonZeroUsize::new(MOST_KEYS).unwrap();
        Ok(Seen {
            keys: LruCache::sparse(alloc, most)?,
        })
    }

    /// There are 65,536 at most.
    pub fn vouch_few(&self)
        ensures { length self.now ≤ 65536 }
    {
        self.keys.len();
    }

    // Whether a key is there.
    fn contains(&self, key: Key) -> bool
        ensures { result ≡ list_any (same_key key) self.now }
    {
        self.keys.contains(&key)
    }

    /// Whether a chunk of this key repeats one of these. A chunk whose verification tag is 0 belongs to no association (RFC
    /// 9260, section 8.5.1), and repeats none.
    pub fn is_repeat(&self, key: Key) -> bool
        ensures { result ≡ is_repeat self.now key }
    {
        key.tag != 0 && self.contains(key)
    }

    // Puts a key at the front.
    fn put(&mut self, key: Key) -> Result<(), OutOfMemory>
        ensures ok { OnOk result (self.new ≡ remembered key self.old) }
        ensures err { OnErr result (self.new ≡ self.old) }
    {
        self.keys.len();
        self.keys.put(key, ())?;
        Ok(())
    }

    /// Notes the key of a chunk that arrived. After a fault the keys are as they were.
    pub fn note(&mut self, key: Key) -> Result<(), OutOfMemory>
        ensures ok { OnOk result (self.new ≡ noted key self.old) }
        ensures err { OnErr result (self.new ≡ self.old) }
    {
        if key.tag == 0 {
            return Ok(());
        }
        self.put(key)
    }
}
