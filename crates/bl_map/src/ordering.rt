//! The order of calls of different handles.

ghost use Rattle.bl_map.specs.Stamps.{StampsKeepOrder};

/// Says that a call which ended before its handle stamped, and a call which began after another handle had heeded that stamp, stand in the
/// one history in this order, however many others lie between. It does nothing when it runs.
pub fn stamps_keep_order()
    ensures { StampsKeepOrder }
{}
