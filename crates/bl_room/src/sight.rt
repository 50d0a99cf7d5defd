//! What one hand keeps in sight: frames and pages that it has retired and released, and how many puts and sweeps it has made.

ghost use Rattle.std.specs.Prelude.{◌≡◌, ◌<◌, ◌≤◌};

use crate::room::first_frame;
use bl_layout::Layout;

/// How many frames a hand keeps in sight that it has retired, and that it has released; and how many pages.
pub const RING: usize = 128;

/// How many owner words a sweep looks at, or all where there are fewer.
pub const OWNERS_A_SWEEP: u32 = 64;

/// After so many puts a sweep is due.
const PUTS_TO_SWEEP: u32 = 64;

/// With so many frames to spare for each hand, all hands may leave a ring of retired frames behind them, and frames are left.
const SPARE_FRAMES: u32 = 256;

/// In a large store so many puts lie between two sweeps of many that are owed: all of them take a while.
const PUTS_BETWEEN: u32 = 8;

/// A hand that has retired so many frames tries to release them. It looks at every process then, which takes some time.
const RETIRED_TO_TRY: u32 = 64;

/// What a hand keeps in sight. What it has lost sight of is found by sweeps over all owner words, so no proof rests on it.
#[derive(Drop)]
pub struct Sight {
    // The frame that its next reservation tries first.
    frame: u32,
    // The owner word at which its next sweep begins, counted from page 0.
    owner: u32,
    // Frames that its puts have retired, the oldest first, and how many.
    retired: [u32; RING],
    waiting: u32,
    // Frames that it has released since, and how many.
    released: [u32; RING],
    ready: u32,
    // How many frames it has retired since it last tried to release them.
    untried: u32,
    // How many sweeps it owes.
    owed: u32,
    // How many puts lie between two sweeps, where it owes several.
    between: u32,
    // Pages that it has retired, at which its next sweeps look first, and how many.
    gone: [u32; RING],
    leaving: u32,
    // How many puts it has made.
    puts: u64,
}

impl Sight {
    /// What the hand of that number begins with. Hands begin far apart in the frames and in the owners, so that two threads seldom write to
    /// one cache line. In a large store each begins with a chunk of frames that nobody has used.
    pub fn of(number: u32, layout: Layout) -> Sight {
        let frames = layout.frames();
        let is_large = layout.is_large();
        let frame = if is_large {
            first_frame(number)
        } else {
            number.wrapping_mul(frames / layout.passes)
        };
        Sight {
            frame,
            owner: number.wrapping_mul((layout.pages + frames) / layout.passes),
            retired: [0; RING],
            waiting: 0,
            released: [0; RING],
            ready: 0,
            untried: 0,
            owed: 0,
            between: if is_large { PUTS_BETWEEN } else { 0 },
            gone: [0; RING],
            leaving: 0,
            puts: 0,
        }
    }

    /// Whether a sweep is worth its time now, where so many frames were retired since the last one: some puts have passed, or the hand has
    /// lost sight of frames that it has retired. It is a hint, and a sweep does its whole work whatever this says.
    #[inline(always)]
    pub fn is_due(&self, unswept: u32) -> bool {
        self.owed == 1 || (self.owed > 1 && unswept >= self.between)
    }

    /// How many puts it has made since the store was made. It counts for who wants to know whether something was changed, and nothing is
    /// promised of it.
    #[inline(always)]
    pub fn puts(&self) -> u64 {
        self.puts
    }

    /// The frame that its next reservation tries first.
    #[inline(always)]
    pub fn frame(&self) -> u32 {
        self.frame
    }

    /// Its next reservation tries that frame first.
    #[inline(always)]
    pub fn go_on_at(&mut self, frame: u32) {
        self.frame = frame;
    }

    /// A put has retired the frame, one of so many since the last sweep. Where there is no room for it, sweeps over all owner words find it
    /// again.
    #[inline(always)]
    pub fn note_retired(&mut self, frame: u32, unswept: u32, layout: Layout) {
        self.puts = self.puts.wrapping_add(1);
        self.untried = self.untried.saturating_add(1);
        if self.waiting < RING as u32 {
            self.retired[self.waiting as usize] = frame;
            self.waiting += 1;
        } else {
            self.owed = (layout.pages + layout.frames()) / OWNERS_A_SWEEP + 1;
        }
        // With few frames to spare none may wait for long.
        let puts_to_sweep = if layout.spare / SPARE_FRAMES >= layout.passes {
            PUTS_TO_SWEEP
        } else {
            1
        };
        if unswept >= puts_to_sweep && self.owed == 0 {
            self.owed = 1;
        }
    }

    /// Whether a hand that wants so many frames has too few at hand, and enough retired to try whether they can be released.
    #[inline(always)]
    pub fn is_to_recycle(&self, frames: u32) -> bool {
        self.ready < frames && self.untried >= RETIRED_TO_TRY
    }

    /// It tries its retired frames, which are so many.
    #[inline(always)]
    pub fn begin_recycling(&mut self) -> u32
        ensures { result ≤ 128 }
    {
        self.untried = 0;
        self.waiting.min(RING as u32)
    }

    /// The retired frame at that place, the oldest first.
    #[inline(always)]
    pub fn retired(&self, at: u32) -> u32
        requires { at < 128 }
    {
        self.retired[at as usize]
    }

    /// That frame stays retired, at that place.
    #[inline(always)]
    pub fn keep_retired(&mut self, at: u32, frame: u32)
        requires { at < 128 }
    {
        self.retired[at as usize] = frame;
    }

    /// So many frames stay retired.
    #[inline(always)]
    pub fn end_recycling(&mut self, kept: u32) {
        self.waiting = kept;
    }

    /// The frame was released. It stays in sight where there are fewer than so many. Says whether it does.
    #[inline(always)]
    pub fn note_released(&mut self, frame: u32, most: u32) -> bool
        ensures { (self.new.retired ≡ self.old.retired) × (self.new.waiting ≡ self.old.waiting) }
    {
        if self.ready < most.min(RING as u32) {
            self.released[self.ready as usize] = frame;
            self.ready += 1;
            true
        } else {
            false
        }
    }

    /// The frame that was released last, which goes out of sight.
    #[inline(always)]
    pub fn take_released(&mut self) -> Option<u32> {
        if self.ready == 0 || self.ready > RING as u32 {
            return None;
        }
        self.ready -= 1;
        Some(self.released[self.ready as usize])
    }

    /// Whether it has released so many frames that are in sight.
    #[inline(always)]
    pub fn has_released(&self, many: u32) -> bool {
        self.ready >= many
    }

    /// How many released frames are in sight.
    #[inline(always)]
    pub fn ready(&self) -> u32
        ensures { result ≤ 128 }
    {
        self.ready.min(RING as u32)
    }

    /// The released frame at that place.
    #[inline(always)]
    pub fn released(&self, at: u32) -> u32
        requires { at < 128 }
    {
        self.released[at as usize]
    }

    /// It keeps a page in sight that it has retired. Where it has no room for it, sweeps over all owner words find it again.
    #[inline(always)]
    pub fn note_gone(&mut self, page: u32) {
        if self.leaving < RING as u32 {
            self.gone[self.leaving as usize] = page;
            self.leaving += 1;
        }
    }

    /// A sweep begins, and one less is owed. The page that was retired last goes out of sight.
    #[inline(always)]
    pub fn begin_sweep(&mut self) -> Option<u32> {
        self.owed = self.owed.saturating_sub(1);
        if self.leaving == 0 || self.leaving > RING as u32 {
            return None;
        }
        self.leaving -= 1;
        Some(self.gone[self.leaving as usize])
    }

    /// The owner word at which a sweep begins that goes from no page of the hand's own.
    #[inline(always)]
    pub fn owner(&self) -> u32 {
        self.owner
    }

    /// A sweep that went from no page of the hand's own leads the next such one on.
    #[inline(always)]
    pub fn go_on_from(&mut self, page: Option<u32>, owner: u32) {
        if page.is_none() {
            self.owner = owner;
        }
    }
}
