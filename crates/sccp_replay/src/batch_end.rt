//! A line of a trace that ends a batch.
use sccp_report::Due;
use trace_text::Numbered;

/// A line that ends a batch, and what is to be done then, if anything.
#[derive(Drop)]
pub struct BatchEnd<'a> {
    pub line: &'a Numbered,
    pub due: Option<Due>,
}
