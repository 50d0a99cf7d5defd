//! What C keeps of a seat: a pointer that owns the seat's box, or null.

ghost use Rattle.std.specs.Prelude.{◌≡◌, Option, None, Some};
ghost use Rattle.std.specs.Option.{MatchOption};
ghost use Rattle.std.specs.Coded.{coded_option};
ghost use Rattle.bl_ffi_seats.specs.declared.seat.Seat.{Seat};
ghost use Rattle.bl_ffi_seats.specs.contracts.seat.Seat.{the_row as seat_row};
ghost use Rattle.bl_ffi.specs.Owned.{owned};

use crate::loose::Loose;
use bl_ffi_seats::Seat;
use std::alloc::Global;
use std::marker::Model;
use std::ptr;

/// What the pointer points to, which C never looks at. A pointer to a seat does not cross to C, since a seat holds cells.
#[repr(C)]
#[derive(Drop)]
pub struct Hidden {
    byte: u8,
}

/// The header's `blink_seat`. It cannot be dropped, so none that owns a seat is forgotten: [`SeatOfC::into_box`] alone ends one.
#[repr(C)]
pub struct SeatOfC {
    at: *mut Hidden,
    /// The seat in the box, if the pointer is not null.
    pub ghost seat: { Option Seat } by { coded_option seat_row.coded },
}

impl Model for SeatOfC {
    ghost also_owns = { λ c. owned seat_row c.at c.seat };
}

impl SeatOfC {
    /// One that owns nothing: its pointer is null.
    pub(crate) fn empty() -> SeatOfC
        ensures { result.seat ≡ None }
    {
        SeatOfC {
            at: ptr::null_mut(),
        }
    }

    /// A box that was taken apart, as its pointer.
    pub(crate) fn of(loose: Loose<Seat, Global>) -> SeatOfC
        ensures { result.seat ≡ Some loose.value }
    {
        let Loose { at, alloc: _ } = loose;
        SeatOfC {
            at: at as *mut Hidden,
        }
    }

    /// The box again, where there is one.
    pub(crate) fn into_box(self, alloc: Global) -> Option<Box<Seat, Global>>
        ensures { MatchOption result (self.seat ≡ None) (λ b. self.seat ≡ Some b.value) }
    {
        let SeatOfC { at } = self;
        if at.is_null() {
            return None;
        }
        Some(unsafe { Box::from_raw(alloc, at as *mut Seat) })
    }
}
