// The chunks that wait, as one arrives or as others of their message do.
ghost use Rattle.std.specs.Prelude.{◌≡◌, not};
ghost use Rattle.std.specs.List.{list_any};
ghost use Rattle.user_messages.specs.Chunks.{key_of, same_key};
ghost use Rattle.user_messages.specs.Waiting.{given_up, shortened, without_keys};

use crate::fragment::Fragment;
use crate::key::{Key, key_of, same_key};
use crate::place::Place;

// The number of chunks that may wait.
const MOST_WAITING: usize = 256;

// Whether a key is one of these.
fn has_key(keys: &[Key], key: Key) -> bool
    ensures { result ≡ list_any (same_key key) keys.now }
{
    keys.iter().any(|k| same_key(key, *k))
}

// Whether the key of a chunk is none of these.
fn is_other(keys: &[Key], fragment: &Fragment) -> bool
    ensures { result ≡ not (list_any (same_key (key_of fragment.now.chunk)) keys.now) }
{
    !has_key(keys, key_of(&fragment.chunk()))
}

/// The chunks that have these keys wait no longer.
pub fn remove_all(waiting: &mut Vec<Fragment>, keys: &[Key])
    ensures { waiting.new.items ≡ without_keys keys.now waiting.old.items }
{
    waiting.retain(|d| is_other(keys, d));
}

/// Gives up the chunk that waits longest if more than 256 wait, and answers its place.
#[tactic(auto, unfolding(crate::specs::Waiting::given_up, crate::specs::Waiting::shortened))]
pub fn shorten(waiting: &mut Vec<Fragment>) -> Option<Place>
    ensures place { result ≡ given_up waiting.old.items }
    ensures rest { waiting.new.items ≡ shortened waiting.old.items }
{
    if waiting.len() <= MOST_WAITING {
        return None;
    }
    let first = waiting.remove(0);
    let place = first.place();
    drop(first);
    Some(place)
}
