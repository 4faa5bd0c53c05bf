//! The jobs of a batch.
ghost use Rattle.std.specs.Prelude.{◌<◌, All, length};

use relay_net::{Job, NodeState};

/// The jobs of a batch, the states of the nodes under which they are routed, and the number of threads that serve them.
#[derive(Drop)]
pub(crate) struct JobBatch<'a> {
    pub states: &'a [NodeState],
    pub jobs: &'a [Job],
    pub threads: usize,
    ghost enter: { All (λ job. job.entry < length states.now) jobs.now },
    ghost some: { 0 < threads },
}
