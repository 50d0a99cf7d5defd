//! How many pages and frames are in use.

/// What a look over all pages and frames has seen of their room: each as it stood at some moment of the look. Where no hand works meanwhile
/// it is exact.
#[derive(Clone, Copy, Debug, PartialEq, Eq)]
pub struct RoomSeen {
    /// All pages.
    pub pages: u32,
    /// Those that are open, or latched.
    pub used_pages: u32,
    /// Those that may be taken. The others are retired: they are free once all processes have ended that began before, and a hand sweeps.
    pub free_pages: u32,
    /// All frames, of which a page in use has one.
    pub frames: u32,
    /// Those that may be reserved. The others have the words of pages, or had them, or are reserved.
    pub free_frames: u32,
}
