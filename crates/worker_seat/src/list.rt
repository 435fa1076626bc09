// The list of a crew.
ghost use Rattle.std.specs.Prelude.{◌≡◌, All, IfSome};
ghost use Rattle.worker_seat.specs.inside.Runs.{AreIn, IsItemOf};

use crate::frame_numbers::{FrameNumber, NumberedFrames};
use crate::item::{CrewItem, NumberedRelease};
use outside_io::NoMemory;
use ready_deques::{Ready, Tagged};
use run_frame::Job;
use std::marker::Model;
use std::sync::{Arc, Wait};
use table_frames::Release;

/// A list, what its items have their tag of, and how many owners it has.
#[derive(Drop)]
pub struct TaggedList<T: Tagged + Drop, K: Tagged> {
    pub ready: Arc<Ready<T>>,
    pub begun: K,
    pub owners: usize,
}

/// The list of what is ready in the runs that a crew has begun.
pub type RunsList<J> = TaggedList<CrewItem<J>, NumberedFrames<J>>;

impl<T: Tagged + Drop, K: Tagged> Model for TaggedList<T, K> {
    ghost use Rattle.std.specs.Prelude.{◌≡◌};
    ghost use Rattle.worker_seat.specs.Seats.{CrewState, crew_state};

    ghost Value = { CrewState };

    ghost use Rattle.std.specs.Arc.{arc_value};
    ghost use Rattle.ready_deques.specs.Lists.{tag_of};
    ghost use Rattle.worker_seat.specs.inside.SeatPlaces.{list_name};

    ghost view = { λ list. crew_state (list_name (arc_value list.ready)) list.owners };

    ghost invariant = { λ list. tag_of (arc_value list.ready) ≡ K.tag list.begun };
}

impl<T: Tagged + Drop, K: Tagged> TaggedList<T, K> {
    /// From now on nobody sleeps, and those who do are woken.
    pub fn close(&self) {
        self.ready.close();
    }

    /// From now on its owners may sleep.
    pub fn reopen(&self) {
        self.ready.reopen();
    }

    /// Whether it was closed at a step of this call.
    pub fn is_closed(&self) -> bool {
        self.ready.is_closed()
    }
}

impl<J: Job + Drop> TaggedList<CrewItem<J>, NumberedFrames<J>> {
    /// Puts the first releases of a run on the list, from outside.
    pub fn inject_all<R: Wait>(
        &self,
        rt: &R,
        number: &FrameNumber<J>,
        released: Vec<Release<J>>,
    ) -> Result<(), NoMemory>
        requires list { number.now.begun ≡ self.now.list.begun }
        requires run { AreIn number.now.frames released.items }
    {
        for release in released {
            self.inject(rt, number, release)?;
        }
        Ok(())
    }

    fn inject<R: Wait>(
        &self,
        rt: &R,
        number: &FrameNumber<J>,
        release: Release<J>,
    ) -> Result<(), NoMemory>
        requires list { number.now.begun ≡ self.now.list.begun }
        requires run { release.frames ≡ number.now.frames }
    {
        let run = number.again();
        let frame = number.again();
        self.ready.inject(
            rt,
            CrewItem {
                release,
                run,
                frame,
            },
        )?;
        Ok(())
    }

    /// The release of an item, with the number of its frame, if the item is of the run of this number.
    pub fn release_in(
        &self,
        number: &FrameNumber<J>,
        item: CrewItem<J>,
    ) -> Option<NumberedRelease<J>>
        requires number { number.now.begun ≡ self.now.list.begun }
        requires item { item.run.begun ≡ self.now.list.begun }
        ensures { IfSome result (IsItemOf number.now) }
    {
        let CrewItem {
            release,
            run,
            frame,
        } = item;
        if self.begun.is_same(&run, number) {
            return Some(NumberedRelease { release, frame });
        }
        None
    }
}
