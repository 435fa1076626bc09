// Releases, each with its frame.
ghost use Rattle.std.specs.Prelude.{◌≡◌, ◌+◌, ◌≤◌, [], All, IfOk, OnOk, map};
ghost use Rattle.std.specs.Vec.{vec_capacity, vec_len};
ghost use Rattle.std.specs.Arc.{arc_value};
ghost use Rattle.join_tables.specs.States.{FreshState};

use super::frame::Frame;
use join_tables::{Fresh, Turn};
use journal_rules::Cause;
use outside_io::NoMemory;
use run_frame::Job;
use semaphore_turns::{ReadyKind, ReadyTurn};
use std::alloc::Global;
use std::marker::Model;
use std::sync::Arc;

/// A release of a task in a run, for whoever takes its step.
#[derive(Drop)]
pub struct Release<J: Job> {
    pub(crate) frame: Arc<Frame<J>>,
    pub(crate) ready: ReadyTurn<J::V>,
}

impl<J: Job> Model for Release<J> {
    ghost use Rattle.std.specs.Prelude.{◌≡◌};
    ghost use Rattle.table_frames.specs.Frames.{ReleaseView};

    ghost Value = { ReleaseView J };

    ghost use Rattle.std.specs.Arc.{arc_value};
    ghost use Rattle.table_frames.specs.Frames.{HasTable, release_in};

    ghost view = { λ release. release_in (arc_value release.frame) release.ready };

    ghost invariant = { λ release. HasTable (arc_value release.frame) release.ready.table };
}

/// The turn of a table that holds a release.
pub enum HeldBy<'r, V> {
    /// One that has not been taken up.
    Fresh(&'r Fresh<V>),
    /// One that was parked.
    Turn(&'r Turn<V>),
}

impl<J: Job + Drop> Release<J> {
    ghost use Rattle.table_frames.specs.Frames.{depth_of};
    ghost use Rattle.table_frames.specs.Holders.{HoldsRelease};

    /// The task that is released.
    pub fn task(&self) -> u32
        ensures { result ≡ self.now.task }
    {
        self.ready.task()
    }

    /// By what it is released.
    pub fn cause(&self) -> Cause
        ensures { result ≡ self.now.cause }
    {
        self.ready.cause()
    }

    /// How many frames its frame is inside, up to the greatest `u32`.
    pub fn depth(&self) -> u32
        ensures { result ≡ depth_of self.now.frames }
    {
        self.frame.depth()
    }

    /// The turn that holds it, of the table of its own frame.
    pub fn held(&self) -> HeldBy<'_, J::V>
        ensures { HoldsRelease self.now result }
    {
        match self.ready.kind() {
            ReadyKind::Fresh(fresh) => HeldBy::Fresh(fresh),
            ReadyKind::Woken(turn, _) => HeldBy::Turn(turn),
        }
    }
}

/// Room for releases of a frame.
#[derive(Drop)]
pub(crate) struct ReleaseRoom<J: Job> {
    // An owner of the frame for each release but one.
    others: Vec<Arc<Frame<J>>>,
    releases: Vec<Release<J>>,
}

impl<J: Job + Drop> ReleaseRoom<J> {
    ghost use Rattle.table_frames.specs.Frames.{HasTable, ReleaseView, release_in};
    ghost use Rattle.table_frames.specs.inside.ReleaseRooms.{HasRoom};

    /// Room for so many.
    pub(crate) fn new(
        alloc: Global,
        frame: &Arc<Frame<J>>,
        count: usize,
    ) -> Result<ReleaseRoom<J>, NoMemory>
        ensures { IfOk result (HasRoom (arc_value frame.now) count) }
    {
        let releases = Vec::with_capacity(alloc, count)?;
        let others = owners(alloc, frame, count.saturating_sub(1))?;
        Ok(ReleaseRoom { others, releases })
    }

    /// Room for so many, and for the turns that they are made of.
    pub(crate) fn with_turns(
        alloc: Global,
        frame: &Arc<Frame<J>>,
        count: usize,
        made: &mut Vec<ReadyTurn<J::V>>,
    ) -> Result<ReleaseRoom<J>, NoMemory>
        ensures room { IfOk result (HasRoom (arc_value frame.now) count) }
        ensures same { made.new.items ≡ made.old.items }
        ensures turns { OnOk result (vec_len made.old + count ≤ vec_capacity made.new) }
    {
        made.reserve(count)?;
        ReleaseRoom::new(alloc, frame, count)
    }

    /// A release for each of these turns of a frame, in their order. The first takes this owner of the frame. No memory
    /// is taken.
    pub(crate) fn hand_out(
        self,
        frame: Arc<Frame<J>>,
        made: &mut Vec<ReadyTurn<J::V>>,
    ) -> Vec<Release<J>>
        requires room { HasRoom (arc_value frame) (vec_len made.old) self }
        requires fresh { All (λ (f : FreshState). HasTable (arc_value frame) f.table)
            made.old.items }
        ensures none_left { made.new.items ≡ [] }
        ensures releases { result.items ≡ map (release_in (arc_value frame)) made.old.items }
        ensures frames { All (λ (release : ReleaseView J). release.frames ≡ arc_value frame)
            result.items }
    {
        let ReleaseRoom {
            mut others,
            mut releases,
        } = self;
        while made.len() > 1 {
            let Some(frame) = others.pop() else {
                unreachable!()
            };
            let Some(ready) = made.pop() else {
                unreachable!()
            };
            releases.push_reserved(Release { frame, ready });
        }
        if let Some(ready) = made.pop() {
            releases.push_reserved(Release { frame, ready });
        }
        releases.reverse();
        releases
    }
}

// So many more owners of a frame.
fn owners<J: Job + Drop>(
    alloc: Global,
    frame: &Arc<Frame<J>>,
    count: usize,
) -> Result<Vec<Arc<Frame<J>>>, NoMemory>
    ensures same { IfOk result
        (λ owners. All (λ owner. arc_value owner ≡ arc_value frame.now) owners.items) }
    ensures len { IfOk result (λ owners. vec_len owners ≡ count) }
{
    let mut owners = Vec::with_capacity(alloc, count)?;
    for _owner in 0..count {
        owners.push_reserved(Arc::try_clone(frame)?);
    }
    Ok(owners)
}
