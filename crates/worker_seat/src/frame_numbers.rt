// The frames of a crew by number.
ghost use Rattle.std.specs.Prelude.{◌≡◌, Some, IfOk, IfSome, IsTrue};
ghost use Rattle.boxcar.specs.Table.{Shows};
ghost use Rattle.worker_seat.specs.inside.Numbers.{shelf_names};

use boxcar::Pushed;
use boxcar::tag::{Names, Tag};
use outside_io::NoMemory;
use ready_deques::Tagged;
use run_frame::Job;
use std::alloc::Global;
use std::marker::Model;
use std::snapshot::Snapshot;
use std::sync::Wait;
use table_frames::Release;

/// The keys of the frame of a release and of those around it. It has no bytes.
#[derive(Drop)]
pub struct ReleaseFrames<J: Job> {
    first: Snapshot<Release<J>>,
}

impl<J: Job> Model for ReleaseFrames<J> {
    ghost use Rattle.std.specs.Prelude.{List};
    ghost use Rattle.table_runs.specs.RunKeys.{FrameKey};

    ghost Value = { List (FrameKey J) };

    ghost view = { λ frames. frames.first.value.frames };
}

/// Frames of a crew, each with a number, or with several. Whoever has two equal numbers knows that they are of one
/// frame.
#[derive(Drop)]
pub struct NumberedFrames<J: Job> {
    frames: boxcar::Vec<ReleaseFrames<J>>,
}

impl<J: Job> Model for NumberedFrames<J> {
    ghost use Rattle.std.specs.Prelude.{ℕ, List};
    ghost use Rattle.worker_seat.specs.inside.Numbers.{shelf_names};

    ghost Value = { List ℕ };

    ghost view = { λ numbered. shelf_names numbered.frames };
}

/// What is on the list of a crew has the name of the crew's numbered frames as its tag.
impl<J: Job> Tagged for NumberedFrames<J> {
    ghost tag = { λ numbered. numbered };
}

// The name of a crew's numbered frames.
struct ByShelves;

impl<J: Job> Names<NumberedFrames<J>> for ByShelves {
    ghost numbers = { λ numbered. numbered };
}

struct ByNumbers;

impl Names<Tag> for ByNumbers {
    ghost numbers = { λ tag. tag.numbers };
}

/// The number of a frame among those of a crew.
#[derive(Drop)]
pub struct FrameNumber<J: Job> {
    begun: Tag,
    pushed: Pushed<ReleaseFrames<J>>,
}

impl<J: Job> Model for FrameNumber<J> {
    ghost use Rattle.worker_seat.specs.inside.Numbers.{NumberView, IsShownBy};

    ghost Value = { NumberView J };

    ghost view = { λ number. record {
      begun = number.begun.numbers;
      index = number.pushed.index;
      frames = number.pushed.value;
    } };

    ghost invariant = { λ number. IsShownBy number.begun.numbers number.pushed };
}

impl<J: Job> FrameNumber<J> {
    /// The same number.
    pub fn again(&self) -> FrameNumber<J>
        ensures { result ≡ self.now }
    {
        FrameNumber {
            begun: Tag::of::<Tag, ByNumbers>(&self.begun),
            pushed: self.pushed.again(),
        }
    }
}

impl<J: Job + Drop> NumberedFrames<J> {
    /// No frames.
    pub fn new(alloc: Global) -> Result<NumberedFrames<J>, NoMemory> {
        Ok(NumberedFrames {
            frames: boxcar::Vec::new(alloc)?,
        })
    }

    /// A number for the frame that this release is of.
    #[tactic(auto, using(crate::proofs::NumberLemmas::name_at))]
    pub fn add<R: Wait>(&self, rt: &R, first: &Release<J>) -> Result<FrameNumber<J>, NoMemory>
        ensures begun { IfOk result (λ number. number.begun ≡ self.now) }
        ensures frames { IfOk result (λ number. number.frames ≡ first.now.frames) }
    {
        let frames = ReleaseFrames {
            first: Snapshot::of(first),
        };
        match self.frames.push_shown(rt, frames) {
            Ok(pushed) => Ok(FrameNumber {
                begun: Tag::of::<NumberedFrames<J>, ByShelves>(self),
                pushed,
            }),
            Err(_) => Err(NoMemory),
        }
    }

    /// Whether two numbers are equal, and so of one frame.
    #[tactic(auto, using(crate::proofs::NumberLemmas::name_at))]
    pub fn is_same(&self, one: &FrameNumber<J>, other: &FrameNumber<J>) -> bool
        requires one { one.now.begun ≡ self.now }
        requires other { other.now.begun ≡ self.now }
        ensures { IsTrue result → one.now.frames ≡ other.now.frames }
    {
        if one.pushed.index() != other.pushed.index() {
            return false;
        }
        self.frames.agrees(&one.pushed, &other.pushed);
        true
    }
}
