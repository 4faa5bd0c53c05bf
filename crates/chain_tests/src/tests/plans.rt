//! Plans from the texts of tests.
use plan_model::Plan;
use plan_text::read;
use std::alloc::Global;
use std::test::Fail;

/// The plan of a text. A text that is not a plan fails the test.
pub fn plan_of(alloc: Global, text: &str) -> Result<Plan, Fail> {
    match read(alloc, text.as_bytes()) {
        Ok(plan) => Ok(plan),
        Err(_) => Err("the text of a plan")?,
    }
}
