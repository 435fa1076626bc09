// Releases on the list of a crew.
ghost use Rattle.std.specs.Prelude.{◌≡◌};
ghost use Rattle.worker_seat.specs.inside.Runs.{IsWithin};

use crate::frame_numbers::FrameNumber;
use ready_deques::Tagged;
use run_frame::Job;
use table_frames::Release;

/// A release, with the number of its run's outermost frame and that of its own.
#[derive(Drop)]
pub struct CrewItem<J: Job> {
    pub release: Release<J>,
    pub run: FrameNumber<J>,
    pub frame: FrameNumber<J>,
    ghost same_run: { IsWithin run.frames release.frames },
    ghost same_frame: { frame.frames ≡ release.frames },
    ghost same_crew: { frame.begun ≡ run.begun },
}

/// An item belongs where its run has its number.
impl<J: Job> Tagged for CrewItem<J> {
    ghost tag = { λ item. item.run.begun };
}

/// A release with the number of its frame.
#[derive(Drop)]
pub struct NumberedRelease<J: Job> {
    pub release: Release<J>,
    pub frame: FrameNumber<J>,
}
