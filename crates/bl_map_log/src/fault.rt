//! Why no map was opened from a log.

use bl_journal::LogFault;
use bl_map::MapLoadFault;

/// Why no map was opened from a log.
#[derive(Clone, Copy, Debug, PartialEq, Eq)]
pub enum OpenLogFault {
    /// The log was not read.
    Log(LogFault),
    /// No map was loaded with its rows.
    Map(MapLoadFault),
}
