// How large a frame is.
ghost use Rattle.std.specs.Prelude.{◌≡◌};
ghost use Rattle.tam_frames.specs.FrameCells.{frame_width};

use std::marker::Model;

/// How many slots and threads each frame has, with the number of its cells, which is asked for at each access.
#[derive(Drop)]
pub(crate) struct FrameShape {
    slots: u32,
    threads: u32,
    width: usize,
}

impl Model for FrameShape {
    ghost use Rattle.std.specs.Prelude.{◌≡◌, ◌<◌, ◌^◌};
    ghost use Rattle.tam_frames.specs.FrameCells.{FrameSize, frame_width};

    ghost Value = { FrameSize };

    ghost view = { λ s. record { slots = s.slots; threads = s.threads } };

    ghost invariant = { λ s. (s.width ≡ frame_width s.slots s.threads) × (s.slots < 2 ^ 32) × (s.threads < 2 ^ 32) };
}

impl FrameShape {
    pub(crate) fn of(slots: u32, threads: u32) -> FrameShape
        ensures value { result ≡ record { slots = slots; threads = threads } }
    {
        FrameShape {
            slots,
            threads,
            width: 2 + threads as usize + slots as usize,
        }
    }

    #[inline]
    pub(crate) fn slots(&self) -> u32
        ensures value { result ≡ self.now.slots }
    {
        self.slots
    }

    #[inline]
    pub(crate) fn threads(&self) -> u32
        ensures value { result ≡ self.now.threads }
    {
        self.threads
    }

    /// How many cells a frame takes.
    #[inline]
    pub(crate) fn width(&self) -> usize
        ensures value { result ≡ frame_width self.now.slots self.now.threads }
    {
        self.width
    }
}
