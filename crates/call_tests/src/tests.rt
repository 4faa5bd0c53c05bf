//! Calls that no command over real files shows.
mod calls;
mod captures;
mod each_call;
mod live;
mod memory_io;
mod plans;
mod replays;
mod workers;
