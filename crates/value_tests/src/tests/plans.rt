//! The plan of a text that a test has.
use plan_model::Plan;
use plan_text::read;
use std::alloc::Global;
use std::test::Fail;

/// The plan. A text that is none fails the test.
pub fn plan_of(alloc: Global, text: &str) -> Result<Plan, Fail> {
    match read(alloc, text.as_bytes()) {
        Ok(plan) => Ok(plan),
        Err(_) => Err("the text of a plan")?,
    }
}
