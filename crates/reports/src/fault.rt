//! Why a report isn't whole.
use fields::WriteFailed;
use std::alloc::AllocError;

/// Why a report isn't whole.
#[derive(Clone, Copy)]
pub enum ReportFault {
    /// Memory was refused.
    NoMemory,
    /// A write failed.
    WriteFailed,
}

impl From<AllocError> for ReportFault {
    fn from(_error: AllocError) -> Self {
        ReportFault::NoMemory
    }
}

impl From<WriteFailed> for ReportFault {
    fn from(_error: WriteFailed) -> Self {
        ReportFault::WriteFailed
    }
}
