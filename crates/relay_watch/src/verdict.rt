//! The verdicts on captured messages.
use crate::why::Why;
use relay_ways::Explanation;
use sccp_base::List;
use sccp_manage::StatusMessage;
use sccp_message::DecodeFault;

/// What a captured message is, to the relays of a plan.
#[derive(Drop)]
pub enum Verdict {
    /// The octets are not a message, by the first fault. It is never want of memory.
    Undecodable(DecodeFault),
    /// A connection-oriented message, which is not judged.
    Connection,
    /// No relay of the plan sent it, and it is for none.
    Other,
    /// It arrives at a relay, and no relay of the plan sent it.
    Arrived,
    /// The relay sent it because of the arrival with this number. The conditions of the ways are those under which it does, and
    /// each way says how it then handles the arrival.
    Explained { by: u64, ways: List<Explanation> },
    /// It routes on subsystem number 1, and no arrival explains it: SCCP management sent it (Q.714 section 5). What it says, if its
    /// data is a status message.
    Management(Option<StatusMessage>),
    /// No arrival explains it, and its calling address is this subsystem of the relay: a user of the relay sent it.
    Own(u8),
    /// A relay sent it, and none of these explains that.
    Unexplained(Why),
}
