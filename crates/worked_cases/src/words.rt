//! The words of a call.
use std::alloc::{AllocError, Global};

/// The words of a line that begins with this mark, or `None` if it begins otherwise.
pub(crate) fn after(
    alloc: Global,
    mark: char,
    line: &str,
) -> Result<Option<Vec<String>>, AllocError> {
    let Some(call) = line.strip_prefix(mark) else {
        return Ok(None);
    };
    let mut words = Vec::new(alloc);
    for word in call.split(' ').skip(1) {
        words.push(word.to_string(alloc)?)?;
    }
    Ok(Some(words))
}
