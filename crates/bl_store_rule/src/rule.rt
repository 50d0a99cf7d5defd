//! What a user of the store states: a rule over the pages and over what each hand knows, and what each event tells.
ghost use Rattle.std.specs.Prelude.{ℕ, List};
ghost use Rattle.bl_store_rule.specs.Pages.{Pages, Owner, later};

/// A rule that holds between any two events. D is what one hand knows.
pub trait PageRule<D> {
    // Of the words and the owner of each page, of the time, and of each hand by its number: where it stands and what it knows.
    ghost holds: { Pages D → Type 0 };

    // Time may pass.
    ghost ticks: { (s : Pages D) → holds s → holds (later s) };

    // What stands for the knowledge of a seat that has no hand.
    ghost gone: { D };
}

/// What an event that is at no page tells its hand, and a retirement.
pub trait TimePlay<D> {
    // Of what the hand knew, the time, and what the hand knows after.
    ghost then: { D → ℕ → D → Type 0 };
}

/// What one event at a page tells its hand.
pub trait PagePlay<D> {
    // Of what the hand knew, the page, its owner and its words before the event, and what the hand knows after.
    ghost then: { D → ℕ → Owner → List ℕ → D → Type 0 };
}

/// What a look at a page tells its hand that keeps it in mind.
pub trait KeepPlay<D> {
    // Of what the hand knew, the page, how often it was put, its owner and its words, and what the hand knows after.
    ghost then: { D → ℕ → ℕ → Owner → List ℕ → D → Type 0 };
}

/// What a hand may conclude of a page that was put so often.
pub trait TellPlay<D> {
    // Of what the hand knows, the page, and how often it was put.
    ghost tells: { D → ℕ → ℕ → Type 0 };
}

/// What a hand learns of another that it meets.
pub trait MeetPlay<D> {
    // Of what the hand knew, what the other knows, and what the hand knows after.
    ghost then: { D → D → D → Type 0 };
}

/// What the releases of a sweep tell its hand.
pub trait SweepPlay<D> {
    // Of what the hand knew at the call, how many pages were released since, and what it knows then.
    ghost then: { D → ℕ → D → Type 0 };
}
