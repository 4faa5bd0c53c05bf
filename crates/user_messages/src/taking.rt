// What a chunk does to the keys and the chunks that are kept. After a fault both are as they were.
ghost use Rattle.std.specs.Prelude.{◌≡◌, ◌≤◌, ◌&&◌, length, IfOk, OnOk, OnErr};
ghost use Rattle.packet_layers.specs.Values.{data_as};
ghost use Rattle.user_messages.specs.declared.given.Given.TheVariants.{Whole};
ghost use Rattle.user_messages.specs.Chunks.{key_of};
ghost use Rattle.user_messages.specs.Gathering.{first_copy, giving, keeping, noted, received, took, waits};
ghost use Rattle.user_messages.specs.Waiting.{without_keys};

use crate::fragment::Fragment;
use crate::given::Given;
use crate::key::{Key, key_of};
use crate::place::Place;
use crate::run::{Run, run_of};
use crate::seen::Seen;
use crate::waiting::{remove_all, shorten};
use packet_layers::Data;
use sccp_base::{Octets, OutOfMemory};
use std::alloc::Global;

// One more chunk waits.
fn wait(
    seen: &mut Seen,
    waiting: &mut Vec<Fragment>,
    key: Key,
    fragment: Fragment,
) -> Result<Given, OutOfMemory>
    ensures exact { IfOk result (λ given. giving waiting.new.items given ≡ waits waiting.old.items fragment) }
    ensures seen { OnOk result (seen.new ≡ noted key seen.old) }
    ensures waiting_stays { OnErr result (waiting.new.items ≡ waiting.old.items) }
    ensures seen_stays { OnErr result (seen.new ≡ seen.old) }
{
    let count = waiting.len();
    waiting.push(fragment)?;
    if let Err(fault) = seen.note(key) {
        waiting.truncate(count);
        return Err(fault);
    }
    Ok(Given::Waits(shorten(waiting)))
}

// A message is whole.
fn join(
    seen: &mut Seen,
    waiting: &mut Vec<Fragment>,
    key: Key,
    run: Run,
) -> Result<Given, OutOfMemory>
    ensures exact { IfOk result (λ given. giving waiting.new.items given
        ≡ giving (without_keys run.keys waiting.old.items) (Whole run.octets)) }
    ensures seen { OnOk result (seen.new ≡ noted key seen.old) }
    ensures waiting_stays { OnErr result (waiting.new.items ≡ waiting.old.items) }
    ensures seen_stays { OnErr result (seen.new ≡ seen.old) }
{
    seen.note(key)?;
    remove_all(waiting, run.keys.as_slice());
    Ok(Given::Whole(run.octets))
}

// Whether a chunk is a user message by itself.
fn is_single(chunk: &Data<'_>) -> bool
    ensures { result ≡ ((data_as chunk.now).begins && (data_as chunk.now).ends) }
{
    chunk.begins && chunk.ends
}

// A chunk that is a user message by itself.
fn give(alloc: Global, seen: &mut Seen, chunk: &Data<'_>) -> Result<Given, OutOfMemory>
    ensures given { IfOk result (λ given. given ≡ Whole (data_as chunk.now).payload) }
    ensures seen { OnOk result (seen.new ≡ noted (key_of (data_as chunk.now)) seen.old) }
    ensures seen_stays { OnErr result (seen.new ≡ seen.old) }
{
    let octets = Octets::from_vec(Vec::from_slice(alloc, chunk.payload)?);
    seen.note(key_of(chunk))?;
    Ok(Given::Whole(octets))
}

// A chunk that repeats none.
fn take_first(
    alloc: Global,
    seen: &mut Seen,
    waiting: &mut Vec<Fragment>,
    place: Place,
    chunk: &Data<'_>,
) -> Result<Given, OutOfMemory>
    requires { length waiting.old.items ≤ 256 }
    ensures exact { IfOk result (λ given. giving waiting.new.items given
        ≡ first_copy waiting.old.items (received place (data_as chunk.now))) }
    ensures seen { OnOk result (seen.new ≡ noted (key_of (data_as chunk.now)) seen.old) }
    ensures waiting_stays { OnErr result (waiting.new.items ≡ waiting.old.items) }
    ensures seen_stays { OnErr result (seen.new ≡ seen.old) }
{
    if is_single(chunk) {
        return give(alloc, seen, chunk);
    }
    match run_of(alloc, waiting.as_slice(), chunk)? {
        Some(run) => join(seen, waiting, key_of(chunk), run),
        None => {
            let fragment = Fragment::new(alloc, place, chunk)?;
            wait(seen, waiting, key_of(chunk), fragment)
        }
    }
}

/// Takes a chunk.
pub fn take(
    alloc: Global,
    seen: &mut Seen,
    waiting: &mut Vec<Fragment>,
    place: Place,
    chunk: &Data<'_>,
) -> Result<Given, OutOfMemory>
    requires { length waiting.old.items ≤ 256 }
    ensures exact { IfOk result (λ given. keeping seen.new (giving waiting.new.items given)
        ≡ took (record { seen = seen.old; waiting = waiting.old.items }) (received place (data_as chunk.now))) }
    ensures waiting_stays { OnErr result (waiting.new.items ≡ waiting.old.items) }
    ensures seen_stays { OnErr result (seen.new ≡ seen.old) }
{
    let key = key_of(chunk);
    if seen.is_repeat(key) {
        seen.note(key)?;
        return Ok(Given::Repeated);
    }
    take_first(alloc, seen, waiting, place, chunk)
}
