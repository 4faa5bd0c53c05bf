//! What the search finds of one class.
ghost use Rattle.std.specs.Prelude.{◌≡◌};
ghost use Rattle.plan_margin.specs.Searching.{joined};

use sccp_base::{Digits, Marking};

/// What the search found of a class in a set of outages.
#[derive(Drop)]
pub(crate) enum Found {
    /// The title with these digits does not arrive with these losses.
    Stopped { digits: Digits, lost: Marking },
    /// All titles arrive in all outages. If the search was cut, this is said only of those with few enough losses.
    Through { cut: bool },
    /// The search met too many classes.
    Wide,
}

/// What was found of two searches, the first of which stopped no title.
pub(crate) fn joined(cut: bool, found: Found) -> Found
    ensures { result ≡ joined cut found }
{
    match found {
        Found::Through { cut: other } => Found::Through { cut: cut || other },
        other => other,
    }
}
