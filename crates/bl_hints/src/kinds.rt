//! What each queue holds.

ghost use Rattle.std.specs.Prelude.{All, ⊤};
ghost use Rattle.bl_hints.specs.Kinds.{IsPost, IsThin};

use bl_answers::Hint;
use crossbeam_queue::protocol::{Lesson, Outcome, Protocol};

/// The rule of the queue of hints to list a page: it holds no others. Passes need to know nothing.
pub struct Posts;

impl Protocol<Hint, ()> for Posts {
    ghost holds = { λ items views. All IsPost items };

    ghost first = { tt };
}

impl Outcome<Hint, ()> for Posts {
    ghost then = { λ v x w. IsPost x };
}

impl Lesson<Hint, ()> for Posts {
    ghost fact = { λ v items. ⊤ };
}

/// The rule of the queue of hints of thin pages: it holds no others. Passes need to know nothing.
pub struct Thins;

impl Protocol<Hint, ()> for Thins {
    ghost holds = { λ items views. All IsThin items };

    ghost first = { tt };
}

impl Outcome<Hint, ()> for Thins {
    ghost then = { λ v x w. IsThin x };
}

impl Lesson<Hint, ()> for Thins {
    ghost fact = { λ v items. ⊤ };
}
