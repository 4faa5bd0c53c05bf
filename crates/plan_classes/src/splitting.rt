//! A class in parts.
ghost use Rattle.std.specs.Prelude.{◌≡◌, ◌<◌, IfOk};
ghost use Rattle.plan_classes.specs.Titles.{parts_of, Splits, IsClass};

use crate::class::Class;
use sccp_base::{List, OutOfMemory};
use std::alloc::Global;

/// The title with no further digit, if the class has it, and then the titles with each next digit from 0 to 9. Together
/// they are the class's titles, each once, and each part has fewer open digits.
pub fn parts(alloc: Global, class: &Class) -> Result<List<Class>, OutOfMemory>
    requires { 0 < class.now.most }
    ensures value { IfOk result (λ parts. parts ≡ parts_of class.now) }
    ensures splits { IfOk result (Splits class.now) }
    ensures class { IsClass class.now }
{
    let mut parts = List::new(alloc);
    if class.least() == 0 {
        parts.push(class.closed())?;
    }
    for digit in 0..10 {
        parts.push(class.extended(digit))?;
    }
    Ok(parts)
}
