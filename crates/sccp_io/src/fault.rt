//! Why a call on files or a sink failed.
use thiserror::Error;

/// Why a call on files or a sink gave nothing. After either answer, nothing that the object shows has changed but its count
/// of faults.
#[derive(Clone, Copy, Debug, PartialEq, Eq, Error)]
pub enum IoFault {
    /// The reading or the writing failed, and the object's count of faults rose.
    #[error("read or write failed")]
    Failed,
    /// The object wanted memory and got none.
    #[error("out of memory")]
    OutOfMemory,
}
