//! Judges the messages that relays were seen to send against their plan (ITU-T Q.714 sections 2, 4.2 and 5).
//!
//! A `Watch` takes captured messages in their order. It explains one that a relay of the plan sent by the first earlier arrival at
//! that relay because of which the plan lets it send that message, whatever the relay held prohibited. The crate above may rely on
//! this. The conditions of an explained message are met exactly by the markings under which the plan has the relay send it because
//! of that arrival, and some marking meets one. No arrival explains two messages. If a message is unexplained, under no marking any
//! earlier arrival lets the relay send it, but for arrivals that explain an earlier message or were given up. The reason that is given
//! is the first test that the message fails, of those on the arrival with its data that comes nearest (`reasoned_truly`). The counts at
//! the end are those of the lines (`counted_truly`), and the markings of a relay the least number under which it sends its explained
//! messages (`markings_are_least`). At most 16,384 arrivals wait, so the time for a message does not grow with the number of those before
//! it. It is compared once with arrivals that are the same, if not too many others come between them.
#![tactic(auto)]

mod answered;
mod arriving;
mod captured;
mod counting;
mod counts;
mod ending;
mod event;
mod found;
mod gone;
mod hints;
mod judged;
mod judging;
mod keeping;
mod laws;
mod least;
mod line;
mod near;
mod next;
mod reasoning;
mod relays;
mod repeats;
mod searching;
mod sent;
mod summary;
mod tally;
mod unanswered;
mod verdict;
mod verdicts;
mod waiting;
mod watch;
mod why;
mod whys;

pub use counts::Counts;
pub use event::Event;
pub use laws::{explained_once, explained_truly, unanswered_truly, unexplained_truly};
pub use least::{counted_truly, markings_are_least};
pub use line::Line;
pub use reasoning::reasoned_truly;
pub use summary::Summary;
pub use tally::Tally;
pub use unanswered::Unanswered;
pub use verdict::Verdict;
pub use waiting::Waiting;
pub use watch::Watch;
pub use why::Why;
