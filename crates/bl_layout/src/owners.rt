//! The words of owners. 0 is that of a page or a frame that is released, and 1 that of a page that is open.

ghost use Rattle.std.specs.Prelude.{◌≡◌, ◌+◌, ◌*◌, ◌<◌, ◌^◌};

/// The owner word of a page that the pass of that number holds, and of a frame that it has reserved.
#[inline(always)]
pub fn held_by(pass: u32) -> u64
    ensures { result ≡ 4 * pass + 2 }
{
    4 * pass as u64 + 2
}

/// The owner word of a page or a frame that was retired at that tick of the clock.
#[inline(always)]
pub fn retired_at(tick: u64) -> u64
    requires { tick < 2 ^ 61 }
    ensures { result ≡ 4 * tick + 3 }
{
    4 * tick + 3
}
