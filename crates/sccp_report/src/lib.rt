//! The printed text of SCCP messages, of the routes of titles through a plan, of the verdicts on plans, and of a replay.
//!
//! `message_text` gives the lines of the message that octets are: its type, a line for each field in the order of the
//! message type (ITU-T Q.713 section 4), and a line for each optional parameter. Octets that are no message give one line
//! that says why. The crate above may rely on the whole text being exactly that of `specs/MessageText`. It is built from
//! a text for each field (`specs/Fields`) and for each value (`specs/Values`). `cuts_text` gives a line for each cut of
//! octets, whether it is a message or why it is none (`specs/CutsText`).
//!
//! `hops_text` gives a line for each hop of a route: the title, what was held prohibited, and what the relay did with it
//! (Q.714 section 2). `plan_fault_text` says why a text is no plan, and at which place. `verdict_text` gives the verdict
//! on a plan and the route that shows it, `accepted_text` the one line that a plan is accepted, `cover_text` the verdict on
//! one cover by itself. `survey_text` lists what no covered title of a plan uses. `margin_text` says how many points can be lost
//! before a title of a cover is stopped, and shows a stopped title. These texts are exactly those of `specs/Hops`,
//! `specs/PlanFaults`, `specs/Verdicts`, `specs/Covers`, `specs/Surveys` and `specs/Margins`. The text of a route's hops determines
//! the hops (`text_tells_route`), and that of a point code the number (`text_tells_point_code`). `change_text` says whether relays
//! may hold either of two plans, and shows the mixed route, exactly as in `specs/Changes`. The text of that route determines it too
//! (`text_tells_mixed_route`).
//!
//! `role_of` says what a line of a trace is to a replay (`specs/Roles`). `served_text` gives the text of a message that
//! was routed (`specs/Served`), and `event_text` that of any other line but a later plan (`specs/Events`). `put_served`
//! and `put_event` append the same to a `Text` that the caller keeps, so the texts of many lines need no copy of each.
//!
//! The crates that print other lines make them of the same parts. `put_point_code`, `put_destination`, `put_mark`, `put_marks`,
//! `put_node`, `put_path`, `put_kind`, `put_both_covers`, `put_mixed_hops`, `put_fault` and `put_cause` append the text of one value.
#![tactic(auto)]

mod address;
mod back;
mod change;
mod cover;
mod cuts;
mod event;
mod fault;
mod fields;
mod hop;
mod laws;
mod limits;
mod margin;
mod mark;
mod message;
mod message_parts;
mod node;
mod plan_fault;
mod report;
mod role;
mod segment;
mod sent;
mod served;
mod survey;
mod text;
mod values;
mod verdict;

pub use change::{change_text, put_both_covers, put_mixed_hops};
pub use cover::cover_text;
pub use cuts::cuts_text;
pub use event::{event_text, put_event};
pub use fault::put_fault;
pub use fields::put_cause;
pub use hop::hops_text;
pub use laws::{text_tells_mixed_route, text_tells_point_code, text_tells_route};
pub use limits::too_long_text;
pub use margin::{margin_text, points_lost};
pub use mark::{put_destination, put_mark, put_marks};
pub use node::{put_node, put_path};
pub use plan_fault::plan_fault_text;
pub use report::message_text;
pub use role::{Due, Role, role_of};
pub use served::{put_served, served_text};
pub use survey::survey_text;
pub use text::Text;
pub use values::put_point_code;
pub use verdict::{accepted_text, put_kind, verdict_text};
