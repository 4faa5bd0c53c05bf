//! A plan that is replaced while workers route by it.
//!
//! A `Teller` publishes accepted plans one after the other, each under the next number. `Worker`s look at the published plans
//! while it does. A message goes over all its relays (ITU-T Q.714 section 2) under one plan: the one that its worker had when
//! it began.
//!
//! `run_batch` serves a batch of messages by up to sixteen workers, while further plans are published. `serve_jobs` does the
//! same if there are further plans. If there are none, it serves the batch under the last plan, in blocks, and the workers
//! rest.
//!
//! The crates above may rely on this. Each message is routed wholly under one published plan, and its answer gives the number
//! of that plan. The plan is the last one from before the batch, or one that was published in the batch. No worker goes back
//! to an earlier plan, and plans keep their numbers.
//!
//! It is not promised that threads really run at the same time, nor when a worker sees a new plan.
#![tactic(auto)]

mod batch;
mod blocks;
mod briefing;
mod collecting;
mod gate;
mod host;
mod job_batch;
mod known;
mod latest;
mod laws;
mod list_place;
mod live;
mod live_place;
mod nodes;
mod place;
mod published;
mod publishing;
mod resting;
mod rule;
mod setting;
mod share;
mod side_by_side;
mod teller;
mod worker;

pub use batch::run_batch;
pub use gate::{Gate, OpenGate};
pub use host::Host;
pub use latest::serve_jobs;
pub use laws::{numbers_never_fall, passes_go_on};
pub use list_place::ListPlace;
pub use live::Live;
pub use live_place::LivePlace;
pub use place::{Entry, Place};
pub use relay_net::{Job, Served};
pub use teller::Teller;
pub use worker::Worker;
