// What a pool does with a segment, on its list of runs. All memory is there before a run is taken out.
ghost use Rattle.std.specs.Prelude.{◌≡◌, ◌≢◌, ◌∷◌, [], ◌++◌, IfOk, OnOk, OnErr, Err};
ghost use Rattle.std.specs.List.{position};
ghost use Rattle.std.specs.Option.{option_copied};
ghost use Rattle.sccp_segment.specs.Pooling.{Gives, IsPool, KeysDiffer, first_taken, is_of, next_taken, others, took, under_way};

use crate::key::{Key, same_key};
use crate::pool_fault::PoolFault;
use crate::run::Run;
use crate::segment::Segment;
use crate::taken::{Taken, Why};
use sccp_base::{Octets, OutOfMemory};
use std::alloc::Global;

// The number of messages that may be under way.
const LIMIT: usize = 64;

// The place of the run of a key.
fn place_of(runs: &[Run], key: &Key) -> Option<usize>
    ensures { result ≡ position (is_of key.now) runs.now }
{
    runs.iter().position(|run| same_key(&run.key, key))
}

// The run of a key.
fn found<'a>(runs: &'a [Run], key: &Key) -> Option<&'a Run>
    ensures { option_copied result ≡ under_way runs.now key.now }
{
    runs.iter().find(|run| same_key(&run.key, key))
}

// Ends the run of a key, if there is one.
fn end(runs: &mut Vec<Run>, key: &Key)
    requires { KeysDiffer runs.old.items }
    ensures { runs.new.items ≡ others runs.old.items key.now }
{
    if let Some(place) = place_of(runs.as_slice(), key) {
        runs.remove(place);
    }
}

// Puts a run after all others, in place of the older run of its key. It is put in before the older one is taken out, so want
// of memory leaves the runs as they were.
fn put(runs: &mut Vec<Run>, run: Run) -> Result<(), PoolFault>
    requires { KeysDiffer runs.old.items }
    ensures ok { OnOk result (runs.new.items ≡ others runs.old.items run.key ++ run ∷ []) }
    ensures err { OnErr result (runs.new.items ≡ runs.old.items) }
    ensures memory { result ≢ Err PoolFault.Full }
{
    let place = place_of(runs.as_slice(), &run.key);
    runs.push(run)?;
    if let Some(place) = place {
        runs.remove(place);
    }
    Ok(())
}

// The second octets after the first, in memory of their own.
fn joined(alloc: Global, front: &[u8], back: &[u8]) -> Result<Octets, OutOfMemory>
    ensures { IfOk result (λ octets. octets ≡ front.now ++ back.now) }
{
    let mut octets = Vec::from_slice(alloc, front)?;
    octets.extend_from_slice(back)?;
    Ok(Octets::from_vec(octets))
}

// Takes a first segment of a message.
fn begin(runs: &mut Vec<Run>, key: Key, segment: Segment) -> Result<Taken, PoolFault>
    requires { IsPool runs.old.items }
    ensures answer { Gives (λ taken. taken) result (first_taken runs.old.items key segment).answer }
    ensures ok { OnOk result (runs.new.items ≡ (first_taken runs.old.items key segment).runs) }
    ensures err { OnErr result (runs.new.items ≡ runs.old.items) }
{
    if segment.remaining == 0 {
        end(runs, &key);
        return Ok(Taken::Whole(segment.payload));
    }
    let is_new = found(runs.as_slice(), &key).is_none();
    if is_new && runs.len() >= LIMIT {
        return Err(PoolFault::Full);
    }
    let run = Run {
        key,
        remaining: segment.remaining,
        payload: segment.payload,
    };
    put(runs, run)?;
    Ok(if is_new {
        Taken::More
    } else {
        Taken::Dropped(Why::Restarted)
    })
}

// Takes another segment of a message.
fn go_on(alloc: Global, runs: &mut Vec<Run>, key: Key, segment: Segment) -> Result<Taken, PoolFault>
    requires { IsPool runs.old.items }
    ensures answer { Gives (λ taken. taken) result (next_taken runs.old.items key segment (under_way runs.old.items key)).answer }
    ensures ok { OnOk result (runs.new.items ≡ (next_taken runs.old.items key segment (under_way runs.old.items key)).runs) }
    ensures err { OnErr result (runs.new.items ≡ runs.old.items) }
{
    let Some(run) = found(runs.as_slice(), &key) else {
        return Ok(Taken::Dropped(Why::NotFirst));
    };
    if u16::from(segment.remaining) + 1 != u16::from(run.remaining) {
        end(runs, &key);
        return Ok(Taken::Dropped(Why::OutOfStep));
    }
    let payload = joined(alloc, run.payload.as_slice(), segment.payload.as_slice())?;
    if segment.remaining == 0 {
        end(runs, &key);
        return Ok(Taken::Whole(payload));
    }
    put(
        runs,
        Run {
            key,
            remaining: segment.remaining,
            payload,
        },
    )?;
    Ok(Taken::More)
}

/// Takes a segment.
pub fn step(
    alloc: Global,
    runs: &mut Vec<Run>,
    key: Key,
    segment: Segment,
) -> Result<Taken, PoolFault>
    requires { IsPool runs.old.items }
    ensures answer { Gives (λ taken. taken) result (took runs.old.items key segment).answer }
    ensures ok { OnOk result (runs.new.items ≡ (took runs.old.items key segment).runs) }
    ensures err { OnErr result (runs.new.items ≡ runs.old.items) }
{
    if segment.first {
        begin(runs, key, segment)
    } else {
        go_on(alloc, runs, key, segment)
    }
}
