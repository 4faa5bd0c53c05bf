//! The values of a text.
use crate::draft::Draft;
use crate::version::Version;
use plan_model::Cover;
use sccp_base::List;

/// The values of a text, before the tests that join them: its version, its nodes and its covers.
#[derive(Drop)]
pub(crate) struct Values {
    pub(crate) version: Version,
    pub(crate) drafts: List<Draft>,
    pub(crate) covers: List<Cover>,
}
