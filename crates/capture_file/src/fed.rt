//! What a reader gives for one piece of a capture file.
use crate::file_fault::FileFault;
use crate::held::Held;
use sccp_base::List;

/// What is reported of a piece of a capture file: the packets that it completes, and the fault that ended the reading, if
/// there is one.
#[derive(Drop)]
pub struct Fed<'a> {
    pub packets: List<Held<'a>>,
    pub fault: Option<FileFault>,
}
