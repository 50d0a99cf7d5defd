//! What stands beside the workers: a gate, by which a test holds a request, and files.

/// Every worker calls `before` with a request's number, carries the request out, and then calls `after`. The rows of a save go through it too.
pub trait Gate {
    /// The request is about to be carried out.
    fn before(&self, request: u64);

    /// The request has been carried out.
    fn after(&self, request: u64);

    /// Writes an image of these rows, whose keys rise, to the file of that name, in the place of the one that was there. Says whether it
    /// stands there.
    fn save(&self, name: &[u8], rows: &[(u64, u64)]) -> bool;
}

/// A gate that holds nothing, and saves nothing.
#[derive(Clone, Copy, Debug, PartialEq, Eq)]
pub struct OpenGate;

impl Gate for OpenGate {
    fn before(&self, _request: u64) {}

    fn after(&self, _request: u64) {}

    fn save(&self, _name: &[u8], _rows: &[(u64, u64)]) -> bool {
        false
    }
}
