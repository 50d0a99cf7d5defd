//! Where the rows of a scan go.

ghost use Rattle.std.specs.Prelude.{◌≡◌, ◌+◌, ◌<◌, ◌≤◌, OnOk, OnErr, vec_len};
ghost use Rattle.std.specs.Vec.{vec_capacity};

use std::alloc::AllocError;
use std::mem;

/// A way in which rows go somewhere, one after another. What changes by it is the state.
pub trait Sink<S> {
    ghost use Rattle.std.specs.Prelude.{◌≡◌, ℕ, ◌+◌, ◌++◌, List, [], ◌∷◌, OnOk, OnErr};

    // What there is to see of a state, and whether these rows lead from one to another.
    ghost Held: { Type 0 };

    ghost held: { S → Held };

    ghost Takes: { Held → List (ℕ × ℕ) → Held → Type 0 };

    // Whether it may be given rows, whether it has room for so many, and whether it had none for so many.
    ghost IsReady: { S → Type 0 };

    ghost HasRoom: { S → ℕ → Type 0 };

    ghost Lacks: { S → ℕ → Type 0 };

    /// Makes room for so many rows more.
    fn make_room(state: &mut S, many: usize) -> Result<(), AllocError>
        requires ready { IsReady state.old }
        ensures ready { IsReady state.new }
        ensures kept { held state.new ≡ held state.old }
        ensures room { OnOk result (HasRoom state.new many) }
        ensures lacks { OnErr result (Lacks state.new many) };

    /// Takes a row, for which there is room.
    fn accept(state: &mut S, row: (u64, u64))
        requires ready { IsReady state.old }
        requires room { (rest : ℕ) × HasRoom state.old (rest + 1) }
        ensures ready { IsReady state.new }
        ensures takes { Takes (held state.old) (row ∷ []) (held state.new) }
        ensures room { (rest : ℕ) → HasRoom state.old (rest + 1) → HasRoom state.new rest };

    ghost nothing: { (p : Held) → Takes p [] p };

    ghost more: { (p q r : Held) (xs ys : List (ℕ × ℕ)) → Takes p xs q → Takes q ys r → Takes p (xs ++ ys) r };
}

/// They are appended to a vector.
pub struct Appending;

impl Sink<Vec<(u64, u64)>> for Appending {
    ghost use Rattle.std.specs.Prelude.{ℕ, ◌+◌, ◌-◌, ◌<◌, ◌≤◌, ◌++◌, List, vec_len};
    ghost use Rattle.std.specs.Vec.{vec_capacity};
    ghost use Rattle.std.proofs.Common.{sym, ap, ◌∙◌, append-nil, append_assoc};
    ghost use Rattle.bl_index_read.specs.Sinks.{Appends};

    ghost Held = { List (ℕ × ℕ) };

    ghost held = { λ rows. rows.items };

    ghost Takes = { Appends };

    ghost IsReady = { λ rows. Unit {0} };

    ghost HasRoom = { λ rows many. vec_len rows + many ≤ vec_capacity rows };

    ghost Lacks = { λ rows many. vec_capacity rows - vec_len rows < many };

    ghost nothing = { λ p. sym (append-nil p) };

    ghost more = { λ p q r xs ys one two. two ∙ (ap (λ (z : List (ℕ × ℕ)). z ++ ys) one ∙ append_assoc p xs ys) };

    #[inline(always)]
    fn make_room(rows: &mut Vec<(u64, u64)>, many: usize) -> Result<(), AllocError> {
        if many <= rows.capacity() - rows.len() {
            return Ok(());
        }
        let none = Vec::new(*rows.allocator());
        let (more, done) = grown(mem::replace(rows, none), many);
        *rows = more;
        match done {
            Ok(()) => Ok(()),
            Err(full) => Err(full),
        }
    }

    #[inline(always)]
    fn accept(rows: &mut Vec<(u64, u64)>, row: (u64, u64)) {
        rows.push_reserved(row);
    }
}

/// Makes room for so many rows more, or gives the rows back without it. They come and go by value, so that the way on which there is room
/// need not keep them in memory.
#[inline(never)]
fn grown(rows: Vec<(u64, u64)>, more: usize) -> (Vec<(u64, u64)>, Result<(), AllocError>)
    ensures rows { result.0.items ≡ rows.items }
    ensures ok { OnOk result.1 (vec_len result.0 + more ≤ vec_capacity result.0) }
    ensures full { OnErr result.1 (vec_capacity result.0 < vec_len result.0 + more) }
{
    let mut rows = rows;
    let done = rows.reserve(more);
    (rows, done)
}

/// A callback is told them.
pub struct Telling;

impl<F: FnMut((u64, u64))> Sink<F> for Telling {
    ghost use Rattle.std.specs.List.{FoldsTo};
    ghost use Rattle.std.proofs.Common.{refl};
    ghost use Rattle.bl_index_read.specs.Sinks.{folds_append};

    ghost Held = { F };

    ghost held = { λ visit. visit };

    ghost Takes = { FoldsTo (λ p x q. F.step p x tt q) };

    ghost IsReady = { λ visit. F.IsAlwaysCallable visit };

    ghost HasRoom = { λ visit many. Unit {0} };

    ghost Lacks = { λ visit many. ⊥ };

    ghost nothing = { λ p. refl };

    ghost more = { λ p q r xs ys one two. folds_append (λ p x q. F.step p x tt q) p xs q ys r one two };

    #[inline(always)]
    fn make_room(_visit: &mut F, _many: usize) -> Result<(), AllocError> {
        Ok(())
    }

    #[inline(always)]
    fn accept(visit: &mut F, row: (u64, u64)) {
        tell_row(row, visit);
    }
}

/// Tells a callback a row.
#[inline(always)]
fn tell_row<F: FnMut((u64, u64))>(row: (u64, u64), visit: &mut F)
    requires { F.IsAlwaysCallable visit.old }
    ensures callable { F.IsAlwaysCallable visit.new }
    ensures told { F.step visit.old row tt visit.new }
{
    visit(row);
}
