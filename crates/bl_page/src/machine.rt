//! What the page machine says of an event; the machine itself is a definition, in `specs/Machine.antt`.

/// What a process missed at an event that changes nothing.
#[derive(Clone, Copy)]
pub enum Missed {
    /// The latch of a page, which was not open.
    Latch(u32),
    /// The release of a page, which was not retired as it was seen.
    Release(u32),
    /// The take of a page, which was in use.
    Take,
    /// A reservation, which was refused.
    Reservation,
    /// A turn that was not fit.
    Turn,
}
