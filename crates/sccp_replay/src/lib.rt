//! A trace of traffic and failures that is replayed over the relays of a plan (ITU-T Q.714 sections 2 to 5), batch by batch, by
//! one worker or several, while later plans of the trace are judged and published.
//!
//! The crate above may rely on this: what a replay reads, prints and answers is its work (`replay_work`, `specs/Replay`), whatever
//! the number of workers. `specs/Account` says in a reader's words what its text contains, and a law says when the workers' number
//! does not count.
#![tactic(auto)]

mod alone;
mod batch;
mod batch_end;
mod crew;
mod gathered;
mod incoming;
mod joined;
mod later_lines;
mod laws;
mod progress;
mod replayer;
mod replaying;
mod router;
mod settle;
mod settled;
mod taking;
mod tell;
mod tracing;
mod workers;

pub use laws::fenced_replays_are_those_of_one_worker;
pub use live_plan::Host;
pub use replaying::replay;
pub use workers::Workers;
