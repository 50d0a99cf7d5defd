//! Why a log is not read or written.

use crate::device::DeviceFault;
use std::alloc::AllocError;

/// Why a log is not read, or not written to, as far as the journal can tell: no clause says that there was cause. A journal that has told
/// one is not gone on with: the log is read again.
#[derive(Clone, Copy, Debug, PartialEq, Eq)]
pub enum LogFault {
    /// There was no memory.
    Memory,
    /// The system has refused a call.
    Refused,
    /// The file is no log: its length or its head are none's.
    Alien,
    /// The log is damaged from this byte on: what stands there is no record, and a record stands behind it, or none stands at all.
    Damaged(u64),
    /// The records are those of no map: a row went that had not come, or two rows of one key are left.
    Broken,
}

impl From<AllocError> for LogFault {
    fn from(_error: AllocError) -> LogFault {
        LogFault::Memory
    }
}

impl From<DeviceFault> for LogFault {
    fn from(fault: DeviceFault) -> LogFault {
        match fault {
            DeviceFault::Memory => LogFault::Memory,
            DeviceFault::Refused => LogFault::Refused,
        }
    }
}
