//! Kinds of processes, each by its own type.

use bl_proc::{Compress, Lower, Process, Reader};
use bl_proc_writes::{InsertPost, Post, Write};

/// A kind of process that the index carries out: each is one of the kinds that the world of processes knows, and goes on
/// in one way.
pub trait Kind: Process + Reader {
    ghost use Rattle.std.specs.Prelude.{◌≡◌, None};
    ghost use Rattle.bl_proc_steps.specs.declared.acts.Seen.{Seen};
    ghost use Rattle.bl_proc_steps.specs.Given.{Gives};
    ghost use Rattle.bl_proc.specs.declared.kinds.Proc.{Proc};
    ghost use Rattle.bl_proc.specs.Processes.{next_of as next_in, needs_of as needs_in, answer_of as answer_in, Takes as TakesIn};
    ghost use Rattle.bl_proc_deterministic.specs.Courses.{GoesOn};
    ghost use Rattle.bl_proc_deterministic.specs.Frames.{frames_wanted, Wants, Follows};
    ghost use Rattle.bl_proc_deterministic.specs.Retirements.{RetiresAfter};

    // The same process as one of any kind.
    ghost proc_of: { Self → Proc };

    ghost acts: { (p : Self) → next_in (proc_of p) ≡ Self.Process.next_of p };

    ghost asks: { (p : Self) → needs_in (proc_of p) ≡ Self.Process.needs_of p };

    ghost answers: { (p : Self) → answer_in (proc_of p) ≡ Self.Process.answer_of p };

    ghost goes: { (p q : Self) (what : Seen) → Self.Process.Takes p what q → TakesIn (proc_of p) what (proc_of q) };

    ghost courses: { (p : Self) (what : Seen) → Self.Process.answer_of p ≡ None → Gives (Self.Process.next_of p) (Self.Process.needs_of p) what → GoesOn
        (proc_of p) what };

    ghost wants: { (p : Self) → Wants (next_in (proc_of p)) (needs_in (proc_of p)) (frames_wanted (proc_of p)) };

    ghost follows: { (p q : Self) (what : Seen) → Self.Process.Takes p what q → Follows (proc_of p) what (proc_of q) };

    ghost retires: { (p q : Self) (what : Seen) → Self.Process.Takes p what q → RetiresAfter (next_in (proc_of p)) what (next_in (proc_of q)) };
}

impl Kind for Write {
    ghost use Rattle.std.specs.Prelude.{refl};
    ghost use Rattle.bl_proc.specs.declared.kinds.Proc.TheVariants as proc;
    ghost use Rattle.bl_proc_deterministic.proofs.Writings.{write_goes};
    ghost use Rattle.bl_proc_deterministic.proofs.WritingsFollowing.{write_wants, write_follows, write_retires};

    ghost proc_of = { λ p. proc.Write p };

    ghost acts = { λ p. refl };

    ghost asks = { λ p. refl };

    ghost answers = { λ p. refl };

    ghost goes = { λ p q what t. t };

    ghost courses = { write_goes };

    ghost wants = { write_wants };

    ghost follows = { write_follows };

    ghost retires = { write_retires };
}

impl Kind for Post {
    ghost use Rattle.std.specs.Prelude.{refl};
    ghost use Rattle.bl_proc.specs.declared.kinds.Proc.TheVariants as proc;
    ghost use Rattle.bl_proc_deterministic.proofs.Posts.{post_goes};
    ghost use Rattle.bl_proc_deterministic.proofs.PostsFollowing.{post_wants, post_follows};
    ghost use Rattle.bl_proc_deterministic.proofs.Retirements.{post_retires};

    ghost proc_of = { λ p. proc.Post p };

    ghost acts = { λ p. refl };

    ghost asks = { λ p. refl };

    ghost answers = { λ p. refl };

    ghost goes = { λ p q what t. t };

    ghost courses = { post_goes };

    ghost wants = { post_wants };

    ghost follows = { post_follows };

    ghost retires = { post_retires };
}

impl Kind for Compress {
    ghost use Rattle.std.specs.Prelude.{refl};
    ghost use Rattle.bl_proc.specs.declared.kinds.Proc.TheVariants as proc;
    ghost use Rattle.bl_proc_deterministic.proofs.Compressions.{compress_goes};
    ghost use Rattle.bl_proc_deterministic.proofs.CompressionsFollowing.{compress_wants, compress_follows};
    ghost use Rattle.bl_proc_deterministic.proofs.Retirements.{compress_retires};

    ghost proc_of = { λ p. proc.Compress p };

    ghost acts = { λ p. refl };

    ghost asks = { λ p. refl };

    ghost answers = { λ p. refl };

    ghost goes = { λ p q what t. t };

    ghost courses = { compress_goes };

    ghost wants = { compress_wants };

    ghost follows = { compress_follows };

    ghost retires = { compress_retires };
}

impl Kind for Lower {
    ghost use Rattle.std.specs.Prelude.{refl};
    ghost use Rattle.bl_proc.specs.declared.kinds.Proc.TheVariants as proc;
    ghost use Rattle.bl_proc_deterministic.proofs.Lowers.{lower_goes, lower_wants, lower_follows, lower_retires};

    ghost proc_of = { λ p. proc.Lower p };

    ghost acts = { λ p. refl };

    ghost asks = { λ p. refl };

    ghost answers = { λ p. refl };

    ghost goes = { λ p q what t. t };

    ghost courses = { lower_goes };

    ghost wants = { lower_wants };

    ghost follows = { lower_follows };

    ghost retires = { lower_retires };
}

impl Kind for InsertPost {
    ghost use Rattle.std.specs.Prelude.{refl};
    ghost use Rattle.bl_proc.specs.declared.kinds.Proc.TheVariants as proc;
    ghost use Rattle.bl_proc_deterministic.proofs.Climbs.{climb_goes};
    ghost use Rattle.bl_proc_deterministic.proofs.ClimbsFollowing.{climb_wants, climb_follows, climb_retires};

    ghost proc_of = { λ p. proc.InsertPost p };

    ghost acts = { λ p. refl };

    ghost asks = { λ p. refl };

    ghost answers = { λ p. refl };

    ghost goes = { λ p q what t. t };

    ghost courses = { climb_goes };

    ghost wants = { climb_wants };

    ghost follows = { climb_follows };

    ghost retires = { climb_retires };
}
