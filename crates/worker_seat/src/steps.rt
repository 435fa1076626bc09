// What a worker does.
ghost use Rattle.std.specs.Prelude.{◌≡◌, ◌≢◌, [], IfOk, IfSome, IsTrue, OnOk};
ghost use Rattle.span_profile.specs.Watch.{TellsOn};
ghost use Rattle.table_frames.specs.Frames.{IsTellerOf};
ghost use Rattle.worker_seat.specs.inside.Runs.{AreIn, AreOfFrame, IsItemOf, IsNumberOf, IsWithin};
ghost use Rattle.worker_seat.specs.inside.SeatPlaces.{IsSameOwner};
ghost use Rattle.worker_seat.specs.inside.Works.{GoesOnAt, IsAt, IsTurnedTo, IsWorkOf, KeepsTold, LeavesWork, OpensIn, spans_ended};

use crate::crew_run::CrewRun;
use crate::frame_numbers::FrameNumber;
use crate::item::{CrewItem, NumberedRelease};
use crate::list::RunsList;
use crate::work::FrameWork;
use outside_io::NoMemory;
use ready_deques::Owner;
use run_frame::Job;
use span_book::Teller;
use span_profile::Watch;
use std::alloc::Global;
use std::sync::Wait;
use table_frames::{Brought, Frame, Release, State, Stepped};

/// The run that a worker is at, and the list of its crew.
#[derive(Drop)]
pub struct Shift<'a, J: Job + Drop> {
    pub list: &'a RunsList<J>,
    pub run: &'a CrewRun<J>,
    pub number: &'a FrameNumber<J>,
    ghost on_list: { number.now.begun ≡ list.now.list.begun },
    ghost of_run: { IsNumberOf run.now.job run.now.book.name number.now },
}

impl<J: Job + Drop> Shift<'_, J> {
    /// Steps what is on the list, until the list is closed. Where nothing is there it gives the run what it has done,
    /// and then sleeps. The watcher is told each span as soon as it has ended, and the teller told as many in the end.
    pub fn work<X: Watch, R: Wait>(
        &self,
        rt: &R,
        alloc: Global,
        owner: &mut Owner<CrewItem<J>>,
        teller: Teller,
        watcher: &mut X,
    ) -> Result<Teller, NoMemory>
        requires owner { owner.old.tag ≡ self.now.list.now.list.begun }
        requires teller { teller.book ≡ self.now.run.now.book.name }
        ensures owner { IsSameOwner owner.old owner.new }
        ensures book { IfOk result (λ new. new.book ≡ teller.book) }
        ensures told { IfOk result
            (λ new. TellsOn X.told teller.told new.told watcher.old watcher.new) }
    {
        let mut work = FrameWork::new(alloc, teller);
        for _ in rt.forever() {
            if self.list.is_closed() {
                return work.into_teller();
            }
            match owner.take(rt) {
                Some(item) => self.step_item(rt, owner, &mut work, item, watcher)?,
                None => self.rest(rt, owner, &mut work, watcher)?,
            }
        }
        unreachable!()
    }

    // Gives the run what was done; or sleeps where nothing was done.
    fn rest<X: Watch, R: Wait>(
        &self,
        rt: &R,
        owner: &mut Owner<CrewItem<J>>,
        work: &mut FrameWork<J>,
        watcher: &mut X,
    ) -> Result<(), NoMemory>
        requires owner { owner.old.tag ≡ self.now.list.now.list.begun }
        requires work { IsWorkOf self.now.number.now work.old }
        ensures owner { IsSameOwner owner.old owner.new }
        ensures work { OnOk result (IsWorkOf self.now.number.now work.new) }
        ensures told { OnOk result (KeepsTold X.told work.old watcher.old work.new watcher.new) }
    {
        if work.backlog.is_empty() {
            owner.idle(rt);
            return Ok(());
        }
        self.bring(rt, owner, work, watcher)
    }

    // Gives the run what was done in a frame. Whoever closes the run so leaves it for the others, and closes the list.
    // Where a run inside it is over, what that has released goes on the list. Else a release goes there that was
    // parked, if nothing else is left in the frame.
    fn bring<X: Watch, R: Wait>(
        &self,
        rt: &R,
        owner: &mut Owner<CrewItem<J>>,
        work: &mut FrameWork<J>,
        watcher: &mut X,
    ) -> Result<(), NoMemory>
        requires owner { owner.old.tag ≡ self.now.list.now.list.begun }
        requires work { IsWorkOf self.now.number.now work.old }
        requires some { work.old.backlog.frames ≢ [] }
        ensures owner { IsSameOwner owner.old owner.new }
        ensures work { OnOk result (IsWorkOf self.now.number.now work.new) }
        ensures told { OnOk result (KeepsTold X.told work.old watcher.old work.new watcher.new) }
    {
        match self.bring_frame(rt, work, watcher)? {
            State::Closed(closed) => {
                self.run.close(rt, closed);
                self.list.close();
                Ok(())
            }
            State::Resumed(released) => self.resume(rt, owner, work, released),
            State::Went => self.settle(rt, owner, work),
            State::Parked(_) | State::Inner(_) => unreachable!(),
        }
    }

    // Gives what was done in a frame to the keeper of its run. Where a run inside it is over, so is a span of the frame
    // around, which the watcher is told.
    fn bring_frame<X: Watch, R: Wait>(
        &self,
        rt: &R,
        work: &mut FrameWork<J>,
        watcher: &mut X,
    ) -> Result<State<J>, NoMemory>
        requires work { IsWorkOf self.now.number.now work.old }
        requires some { work.old.backlog.frames ≢ [] }
        ensures leaves { IfOk result (LeavesWork J.meaning self.now.run.now.job
            self.now.run.now.book.name self.now.number.now work.new) }
        ensures told { OnOk result (KeepsTold X.told work.old watcher.old work.new watcher.new) }
    {
        let Brought { state, .. } = Frame::bring(rt, &mut work.backlog, &mut work.teller)?;
        work.tell_bringing(&state, watcher)?;
        Ok(state)
    }

    // Puts on the list what a run that is over has released in the frame around it.
    fn resume<R: Wait>(
        &self,
        rt: &R,
        owner: &mut Owner<CrewItem<J>>,
        work: &mut FrameWork<J>,
        released: Vec<Release<J>>,
    ) -> Result<(), NoMemory>
        requires owner { owner.old.tag ≡ self.now.list.now.list.begun }
        requires within { IsWithin self.now.number.now.frames work.old.backlog.frames }
        requires released { AreIn work.old.backlog.frames released.items }
        requires teller { IsTellerOf self.now.number.now.frames work.old.teller }
        ensures owner { IsSameOwner owner.old owner.new }
        ensures work { OnOk result (IsWorkOf self.now.number.now work.new) }
        ensures spans { OnOk result (spans_ended work.new ≡ spans_ended work.old) }
    {
        work.frame = None;
        if released.is_empty() {
            return Ok(());
        }
        let number = self.number_of(rt, &released[0])?;
        self.push_all(rt, owner, &number, released)?;
        work.frame = Some(number);
        Ok(())
    }

    // A number of the frame of a release.
    fn number_of<R: Wait>(&self, rt: &R, release: &Release<J>) -> Result<FrameNumber<J>, NoMemory>
        requires { IsWithin self.now.number.now.frames release.now.frames }
        ensures { IfOk result (IsAt self.now.number.now release.now.frames) }
    {
        let list = self.list;
        list.begun.add(rt, release)
    }

    // Goes on with a release that was parked, where nothing else is left.
    fn settle<R: Wait>(
        &self,
        rt: &R,
        owner: &mut Owner<CrewItem<J>>,
        work: &mut FrameWork<J>,
    ) -> Result<(), NoMemory>
        requires owner { owner.old.tag ≡ self.now.list.now.list.begun }
        requires work { IsWorkOf self.now.number.now work.old }
        requires brought { work.old.backlog.fates ≡ [] }
        requires some { work.old.backlog.frames ≢ [] }
        ensures owner { IsSameOwner owner.old owner.new }
        ensures work { OnOk result (IsWorkOf self.now.number.now work.new) }
        ensures spans { OnOk result (spans_ended work.new ≡ spans_ended work.old) }
    {
        match self.settle_frame(rt, work)? {
            Some(release) => self.go_on(rt, owner, work, release),
            None => Ok(()),
        }
    }

    // Decides what becomes of what is parked in a frame.
    fn settle_frame<R: Wait>(
        &self,
        rt: &R,
        work: &mut FrameWork<J>,
    ) -> Result<Option<Release<J>>, NoMemory>
        requires work { IsWorkOf self.now.number.now work.old }
        requires brought { work.old.backlog.fates ≡ [] }
        requires some { work.old.backlog.frames ≢ [] }
        ensures work { OnOk result (IsWorkOf self.now.number.now work.new) }
        ensures spans { OnOk result (spans_ended work.new ≡ spans_ended work.old) }
        ensures goes { IfOk result
            (λ goes. IfSome goes (GoesOnAt self.now.number.now work.new)) }
    {
        Frame::settle(rt, &mut work.backlog)
    }

    // Puts a release on the list that was parked.
    fn go_on<R: Wait>(
        &self,
        rt: &R,
        owner: &mut Owner<CrewItem<J>>,
        work: &FrameWork<J>,
        release: Release<J>,
    ) -> Result<(), NoMemory>
        requires owner { owner.old.tag ≡ self.now.list.now.list.begun }
        requires goes { GoesOnAt self.now.number.now work.now release }
        ensures { IsSameOwner owner.old owner.new }
    {
        match &work.frame {
            Some(frame) => self.push(rt, owner, frame, release),
            None => {
                let frame = self.number_of(rt, &release)?;
                self.push(rt, owner, &frame, release)
            }
        }
    }

    // Steps an item, if it is of the run. Others are left from a run that an allocation failed for, and are dropped.
    fn step_item<X: Watch, R: Wait>(
        &self,
        rt: &R,
        owner: &mut Owner<CrewItem<J>>,
        work: &mut FrameWork<J>,
        item: CrewItem<J>,
        watcher: &mut X,
    ) -> Result<(), NoMemory>
        requires owner { owner.old.tag ≡ self.now.list.now.list.begun }
        requires item { item.run.begun ≡ self.now.list.now.list.begun }
        requires work { IsWorkOf self.now.number.now work.old }
        ensures owner { IsSameOwner owner.old owner.new }
        ensures work { OnOk result (IsWorkOf self.now.number.now work.new) }
        ensures told { OnOk result (KeepsTold X.told work.old watcher.old work.new watcher.new) }
    {
        match self.list.release_in(self.number, item) {
            Some(item) => self.step_on(rt, owner, work, item, watcher),
            None => Ok(()),
        }
    }

    // Steps a release and then one that its step made, and so on until a step makes none or the list is closed.
    fn step_on<X: Watch, R: Wait>(
        &self,
        rt: &R,
        owner: &mut Owner<CrewItem<J>>,
        work: &mut FrameWork<J>,
        item: NumberedRelease<J>,
        watcher: &mut X,
    ) -> Result<(), NoMemory>
        requires owner { owner.old.tag ≡ self.now.list.now.list.begun }
        requires item { IsItemOf self.now.number.now item }
        requires work { IsWorkOf self.now.number.now work.old }
        ensures owner { IsSameOwner owner.old owner.new }
        ensures work { OnOk result (IsWorkOf self.now.number.now work.new) }
        ensures told { OnOk result (KeepsTold X.told work.old watcher.old work.new watcher.new) }
    {
        let mut next = item;
        for _ in rt.forever() {
            self.turn_to(rt, owner, work, &next.frame, watcher)?;
            match self.step(rt, owner, work, next, watcher)? {
                Some(made) => next = made,
                None => return Ok(()),
            }
            if self.list.is_closed() {
                return Ok(());
            }
        }
        unreachable!()
    }

    // Turns to a frame: brings what was done in another.
    fn turn_to<X: Watch, R: Wait>(
        &self,
        rt: &R,
        owner: &mut Owner<CrewItem<J>>,
        work: &mut FrameWork<J>,
        frame: &FrameNumber<J>,
        watcher: &mut X,
    ) -> Result<(), NoMemory>
        requires owner { owner.old.tag ≡ self.now.list.now.list.begun }
        requires frame { frame.now.begun ≡ self.now.list.now.list.begun }
        requires work { IsWorkOf self.now.number.now work.old }
        ensures owner { IsSameOwner owner.old owner.new }
        ensures work { OnOk result (IsWorkOf self.now.number.now work.new) }
        ensures turned { OnOk result (IsTurnedTo frame.now.frames work.new) }
        ensures told { OnOk result (KeepsTold X.told work.old watcher.old work.new watcher.new) }
    {
        if self.is_at(work, frame) {
            return Ok(());
        }
        self.bring_all(rt, owner, work, watcher)?;
        work.frame = Some(frame.again());
        Ok(())
    }

    // Whether the worker has turned to a frame.
    fn is_at(&self, work: &FrameWork<J>, frame: &FrameNumber<J>) -> bool
        requires frame { frame.now.begun ≡ self.now.list.now.list.begun }
        requires work { IsWorkOf self.now.number.now work.now }
        ensures { IsTrue result → IsTurnedTo frame.now.frames work.now }
    {
        let list = self.list;
        match &work.frame {
            Some(at) => list.begun.is_same(at, frame),
            None => false,
        }
    }

    // Brings what was done, level by level, until nothing is left.
    fn bring_all<X: Watch, R: Wait>(
        &self,
        rt: &R,
        owner: &mut Owner<CrewItem<J>>,
        work: &mut FrameWork<J>,
        watcher: &mut X,
    ) -> Result<(), NoMemory>
        requires owner { owner.old.tag ≡ self.now.list.now.list.begun }
        requires work { IsWorkOf self.now.number.now work.old }
        ensures owner { IsSameOwner owner.old owner.new }
        ensures none { OnOk result (work.new.backlog.frames ≡ []) }
        ensures teller { OnOk result (IsTellerOf self.now.number.now.frames work.new.teller) }
        ensures told { OnOk result (KeepsTold X.told work.old watcher.old work.new watcher.new) }
    {
        for _ in rt.forever() {
            if work.backlog.is_empty() {
                return Ok(());
            }
            self.bring(rt, owner, work, watcher)?;
        }
        unreachable!()
    }

    // Takes the step of a release. Of the releases that it makes it gives one, and puts the others on the list: the
    // first of a run that it opened, or else the first of all.
    fn step<X: Watch, R: Wait>(
        &self,
        rt: &R,
        owner: &mut Owner<CrewItem<J>>,
        work: &mut FrameWork<J>,
        item: NumberedRelease<J>,
        watcher: &mut X,
    ) -> Result<Option<NumberedRelease<J>>, NoMemory>
        requires owner { owner.old.tag ≡ self.now.list.now.list.begun }
        requires item { IsItemOf self.now.number.now item }
        requires work { IsWorkOf self.now.number.now work.old }
        requires turned { IsTurnedTo item.release.frames work.old }
        ensures owner { IsSameOwner owner.old owner.new }
        ensures work { OnOk result (IsWorkOf self.now.number.now work.new) }
        ensures made { IfOk result (λ made. IfSome made (IsItemOf self.now.number.now)) }
        ensures told { OnOk result (KeepsTold X.told work.old watcher.old work.new watcher.new) }
    {
        let NumberedRelease { release, frame } = item;
        let Stepped { released, state } = self.take_step(rt, work, release, watcher)?;
        match state {
            State::Inner(first) => {
                self.push_all(rt, owner, &frame, released)?;
                self.open(rt, owner, first)
            }
            _ => self.push_others(rt, owner, frame, released),
        }
    }

    // Takes the step of a release of the frame to which the worker has turned. The watcher is told the span that it has
    // ended, if it has ended one.
    fn take_step<X: Watch, R: Wait>(
        &self,
        rt: &R,
        work: &mut FrameWork<J>,
        release: Release<J>,
        watcher: &mut X,
    ) -> Result<Stepped<J>, NoMemory>
        requires within { IsWithin self.now.number.now.frames release.frames }
        requires work { IsWorkOf self.now.number.now work.old }
        requires turned { IsTurnedTo release.frames work.old }
        ensures work { OnOk result (IsWorkOf self.now.number.now work.new) }
        ensures released { IfOk result (λ stepped. AreIn release.frames stepped.released.items) }
        ensures opened { IfOk result (λ stepped. OpensIn self.now.number.now stepped.state) }
        ensures told { OnOk result (KeepsTold X.told work.old watcher.old work.new watcher.new) }
    {
        let stepped = Frame::step(rt, release, &mut work.backlog)?;
        work.tell_step(&stepped.state, watcher)?;
        Ok(stepped)
    }

    // Puts the first releases of a run that was opened on the list, but gives the first of them.
    fn open<R: Wait>(
        &self,
        rt: &R,
        owner: &mut Owner<CrewItem<J>>,
        first: Vec<Release<J>>,
    ) -> Result<Option<NumberedRelease<J>>, NoMemory>
        requires owner { owner.old.tag ≡ self.now.list.now.list.begun }
        requires first { AreOfFrame self.now.number.now first.items }
        requires some { first.items ≢ [] }
        ensures owner { IsSameOwner owner.old owner.new }
        ensures made { IfOk result (λ made. IfSome made (IsItemOf self.now.number.now)) }
    {
        let number = self.number_of(rt, &first[0])?;
        self.push_others(rt, owner, number, first)
    }

    // Puts all releases of a frame but the first on the list.
    fn push_others<R: Wait>(
        &self,
        rt: &R,
        owner: &mut Owner<CrewItem<J>>,
        frame: FrameNumber<J>,
        released: Vec<Release<J>>,
    ) -> Result<Option<NumberedRelease<J>>, NoMemory>
        requires owner { owner.old.tag ≡ self.now.list.now.list.begun }
        requires frame { IsAt self.now.number.now frame.frames frame }
        requires released { AreIn frame.frames released.items }
        ensures owner { IsSameOwner owner.old owner.new }
        ensures made { IfOk result (λ made. IfSome made (IsItemOf self.now.number.now)) }
    {
        let mut released = released;
        while released.len() > 1 {
            if let Some(release) = released.pop() {
                self.push(rt, owner, &frame, release)?;
            }
        }
        match released.pop() {
            Some(release) => Ok(Some(NumberedRelease { release, frame })),
            None => Ok(None),
        }
    }

    // Puts all releases of a frame on the list, the first last.
    fn push_all<R: Wait>(
        &self,
        rt: &R,
        owner: &mut Owner<CrewItem<J>>,
        frame: &FrameNumber<J>,
        released: Vec<Release<J>>,
    ) -> Result<(), NoMemory>
        requires owner { owner.old.tag ≡ self.now.list.now.list.begun }
        requires frame { IsAt self.now.number.now frame.now.frames frame.now }
        requires released { AreIn frame.now.frames released.items }
        ensures { IsSameOwner owner.old owner.new }
    {
        let mut released = released;
        while let Some(release) = released.pop() {
            self.push(rt, owner, frame, release)?;
        }
        Ok(())
    }

    // Puts a release on the list, with the number of its frame.
    fn push<R: Wait>(
        &self,
        rt: &R,
        owner: &mut Owner<CrewItem<J>>,
        frame: &FrameNumber<J>,
        release: Release<J>,
    ) -> Result<(), NoMemory>
        requires owner { owner.old.tag ≡ self.now.list.now.list.begun }
        requires frame { IsAt self.now.number.now release.frames frame.now }
        ensures { IsSameOwner owner.old owner.new }
    {
        let item = CrewItem {
            release,
            run: self.number.again(),
            frame: frame.again(),
        };
        owner.push(rt, item)?;
        Ok(())
    }
}
