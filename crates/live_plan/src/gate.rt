/// A receiver of reports on the course of a batch. A test can use it to let its threads wait for each other.
pub trait Gate {
    /// A job of this worker's share is about to be served. Nobody has looked at the published plans for it yet. Worker and
    /// job are counted from 0. In a batch without further plans another thread may serve the job, in whatever order.
    fn pass(&self, worker: u32, job: u32);

    /// The plan of this number was just published.
    fn published(&self, number: u32);
}

/// The gate that does nothing.
pub struct OpenGate;

impl Gate for OpenGate {
    fn pass(&self, _worker: u32, _job: u32) {}

    fn published(&self, _number: u32) {}
}
