//! Why there is no image of rows.

ghost use Rattle.std.specs.Prelude.{◌≡◌};
ghost use Rattle.bl_load.specs.declared.fault.LoadFault.TheVariants.{Memory};

use std::alloc::AllocError;

/// Why no image of rows was made.
#[derive(Clone, Copy, Debug, PartialEq, Eq, thiserror::Error)]
pub enum LoadFault {
    /// The number of pages is not 4 to 2^28.
    #[error("an image has 4 to 268435456 pages")]
    Pages,
    /// A page is to be filled with less than 1 pair, or with more than 14.
    #[error("a page is filled with 1 to 14 rows")]
    Fill,
    /// The key of the row at this place, counted from 0, is not above the key before it; it is the first such row.
    #[error("the key of the row at place {0} is not above the one before it")]
    Order(usize),
    /// The tree of the rows has more pages than there are.
    #[error("the rows have no room in so few pages")]
    Room,
    /// The tree of the rows would have more than 12 levels, as its pages are to be filled so little.
    #[error("the rows need more than 12 levels, where pages are filled so little")]
    Levels,
    /// Memory was refused, where there is an image of the rows: none of the other faults is there. That memory was asked for is not
    /// promised, since the clauses of std do not say it: those of `Vec::with_capacity` and `push` hold as well of calls that refuse
    /// without asking.
    #[error("out of memory")]
    Memory,
}

impl From<AllocError> for LoadFault {
    ghost from_gives = { λ _ fault. fault ≡ Memory };

    fn from(_error: AllocError) -> LoadFault {
        LoadFault::Memory
    }
}
