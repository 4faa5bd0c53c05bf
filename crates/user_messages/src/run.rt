// The chunks of one user message, put together.
ghost use Rattle.std.specs.Prelude.{◌≡◌, ◌≤◌, [], length, IfOk, find, option_map};
ghost use Rattle.std.specs.Option.{option_copied};
ghost use Rattle.packet_layers.specs.Values.{data_as};
ghost use Rattle.user_messages.specs.declared.place.Place.{Place};
ghost use Rattle.user_messages.specs.Chunks.{goes_on};
ghost use Rattle.user_messages.specs.Gathering.{after, received, run_of, up_to};
ghost use Rattle.user_messages.specs.Runs.{longer, longer_by, put_together};

use crate::chunks::goes_on;
use crate::fragment::Fragment;
use crate::key::{Key, key_of};
use packet_layers::Data;
use sccp_base::{List, Octets, OutOfMemory};
use std::alloc::Global;

/// The keys of the chunks of a user message, in their order, and its data.
#[derive(Drop)]
pub struct Run {
    pub keys: List<Key>,
    pub octets: Octets,
}

// No chunks.
#[tactic(auto, unfolding(crate::specs::Runs::put_together))]
fn empty(alloc: Global) -> Run
    ensures { result ≡ put_together [] }
{
    Run {
        keys: List::new(alloc),
        octets: Octets::new(alloc),
    }
}

// A run with one more chunk.
#[tactic(auto, unfolding(crate::specs::Runs::longer))]
fn longer(run: Run, chunk: &Data<'_>) -> Result<Run, OutOfMemory>
    ensures { IfOk result (λ more. more ≡ longer run (data_as chunk.now)) }
{
    let mut keys = run.keys;
    keys.push(key_of(chunk))?;
    let mut octets = run.octets.into_vec();
    octets.extend_from_slice(chunk.payload)?;
    Ok(Run {
        keys,
        octets: Octets::from_vec(octets),
    })
}

// The chunk that waits and with which this one goes on.
fn before<'a>(waiting: &'a [Fragment], chunk: &Data<'_>) -> Option<&'a Fragment>
    ensures { option_copied result ≡ find (λ d. goes_on d.chunk (data_as chunk.now)) waiting.now }
{
    waiting.iter().find(|d| goes_on(&d.chunk(), chunk))
}

// The chunk that waits and goes on with this one.
fn next<'a>(waiting: &'a [Fragment], chunk: &Data<'_>) -> Option<&'a Fragment>
    ensures { option_copied result ≡ find (λ d. goes_on (data_as chunk.now) d.chunk) waiting.now }
{
    waiting.iter().find(|d| goes_on(chunk, &d.chunk()))
}

// The message up to this chunk, if it has at most `most` chunks there.
fn up_to(
    alloc: Global,
    most: usize,
    waiting: &[Fragment],
    chunk: &Data<'_>,
) -> Result<Option<Run>, OutOfMemory>
    ensures { (place : Place) →
        IfOk result (λ run. run ≡ option_map put_together (up_to most waiting.now (received place (data_as chunk.now)))) }
{
    if most == 0 {
        return Ok(None);
    }
    if chunk.begins {
        return Ok(Some(longer(empty(alloc), chunk)?));
    }
    let Some(fragment) = before(waiting, chunk) else {
        return Ok(None);
    };
    let Some(run) = up_to(alloc, most - 1, waiting, &fragment.chunk())? else {
        return Ok(None);
    };
    Ok(Some(longer(run, chunk)?))
}

// A run with the chunks of the message after this one, if these are at most `most` less one.
fn after(
    most: usize,
    waiting: &[Fragment],
    chunk: &Data<'_>,
    run: Run,
) -> Result<Option<Run>, OutOfMemory>
    ensures { (place : Place) →
        IfOk result (λ more. more ≡ option_map (longer_by run) (after most waiting.now (received place (data_as chunk.now)))) }
{
    if most == 0 {
        return Ok(None);
    }
    if chunk.ends {
        return Ok(Some(run));
    }
    let Some(fragment) = next(waiting, chunk) else {
        return Ok(None);
    };
    let run = longer(run, &fragment.chunk())?;
    after(most - 1, waiting, &fragment.chunk(), run)
}

/// The message that a chunk is a part of, if all other chunks of it wait. These are 256 at most.
pub fn run_of(
    alloc: Global,
    waiting: &[Fragment],
    chunk: &Data<'_>,
) -> Result<Option<Run>, OutOfMemory>
    requires { length waiting.now ≤ 256 }
    ensures { (place : Place) →
        IfOk result (λ run. run ≡ option_map put_together (run_of waiting.now (received place (data_as chunk.now)))) }
{
    let most = waiting.len() + 1;
    let Some(run) = up_to(alloc, most, waiting, chunk)? else {
        return Ok(None);
    };
    after(most, waiting, chunk, run)
}
