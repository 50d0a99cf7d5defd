//! The calls of a map for who may not wait: each is done, or gives up where it holds no page.
//!
//! A write does some of what waits before it begins, and looks for room; what it has left to do waits in its turn. Upkeep tries the pieces that
//! wait, and where some were dropped it looks at all pages for such as are thin, some pages a call (`walking`).
//!
//! Promised to `bl_ffi_seats`, whose seats are a pass with what waits (`bl_waiting`) and a walk over pages: a write that gave up has not been
//! done, adds no entry, and leaves nothing; one that is refused for want of room is counted. Each piece of upkeep is done, waits, or was found on
//! the walk; where the walk is due it goes on, and it comes to its end (`specs/Tries`).
#![tactic(auto)]

pub mod trying;
pub mod walking;
