// What is under the lock of a book of tasks, and its three changes.
ghost use Rattle.std.specs.Prelude.{◌≡◌, ◌+◌, ◌<◌, ◌≤◌, ◌++◌, ◌∷◌, [], ℕ, true, List as Items, length, map, IfOk, IfErr, OnOk, OnErr, Some, None, slice_get, slice_set, IfSome, IfNone};
ghost use Rattle.std.specs.Vec.{vec_capacity, vec_len};
ghost use Rattle.std.specs.Arc.{arc_value};
ghost use Rattle.async_tasks.specs.Adds.{after_limit, task_limit, first_unseen, with_add, RefusesAdd, CanStart, HasNoEnd, StartsTask, EndsTask, with_items};
ghost use Rattle.async_tasks.specs.declared.history.AddRow.{AddRow};
ghost use Rattle.async_tasks.specs.Histories.{kept_of, IsHistory};
ghost use Rattle.async_tasks.specs.Passes.{seen, IsTicketOf, HasLooked};
ghost use Rattle.async_tasks.specs.Runs.{IsAsyncRun};
ghost use Rattle.async_tasks.specs.inside.Keeps.{HasEventRoom};
ghost use Rattle.async_tasks.specs.inside.Ready.{is_over};
ghost use Rattle.async_tasks.specs.Starts.{IsPassFor, rows_seen, HasSeen, IsFreshPass, end_record, IsAfter};
ghost use Rattle.async_tasks.specs.Books.{caller_of, book_key, key_of, NothingOut};
ghost use Rattle.async_tasks.specs.declared.stage.Stage.TheVariants.{Waiting};
ghost use Rattle.async_tasks.specs.declared.history.TaskEvent.TheVariants.{Ended};

use crate::history::{AddRow, TaskEvent};
use crate::inputs::{first_open, inputs, is_ready};
use crate::links::Links;
use crate::opening::Opening;
use crate::outstanding::Outstanding;
use crate::pass::Pass;
use crate::recorded_end::RecordedEnd;
use crate::run::AsyncRun;
use crate::stage::Stage;
use crate::started::{Carried, Started};
use crate::work::AsyncWork;
use outside_io::{List, NoMemory};
use std::alloc::Global;
use std::marker::Model;
use std::snapshot::Snapshot;
use std::sync::Arc;
use tickets::{Book, Register, Ticket};

/// How many tasks a book may have.
pub const MAX_TASKS: u32 = 100_000;

/// How many tasks an add may name.
pub const MAX_AFTER: usize = 64;

/// Why a task wasn't added. The work is handed back.
#[derive(Drop)]
pub enum AddError<W> {
    /// The first of the tasks named that the pass has not seen, and how many tasks it has seen.
    NoSuch { work: Arc<W>, task: u32, seen: u32 },
    /// The book has as many tasks as it may have.
    Full { work: Arc<W>, seen: u32 },
    /// An allocation failed.
    NoMemory { work: Arc<W> },
}

/// A book of tasks between two calls. Contracts see it as a `BookHistory`.
#[derive(Drop)]
pub struct BookState<W: AsyncWork> {
    alloc: Global,
    callers: u32,
    rows: Vec<AddRow>,
    events: Vec<TaskEvent>,
    works: Vec<Arc<W>>,
    stages: Vec<Stage<W::V>>,
    book: Book<Outstanding<W, W::V>>,
    links: Links,
}

impl<W: AsyncWork> Model for BookState<W> {
    ghost use Rattle.std.specs.Prelude.{length, map};
    ghost use Rattle.std.specs.Vec.{vec_capacity};
    ghost use Rattle.std.specs.Arc.{arc_value};
    ghost use Rattle.async_tasks.specs.declared.history.AddRow.{AddRow};
    ghost use Rattle.async_tasks.specs.Histories.{kept_of};
    ghost use Rattle.async_tasks.specs.Starts.{IsPassFor, rows_seen, HasSeen, IsFreshPass};
    ghost use Rattle.async_tasks.specs.Books.{BookHistory, book_history};
    ghost use Rattle.async_tasks.specs.inside.Keeps.{KeepsBook, HasEventRoom};

    ghost Value = { BookHistory W W.V };

    ghost view = { λ s. book_history s.book.register s.callers s.rows.items s.events.items
        (map arc_value s.works.items) s.stages.items s.book.items };

    ghost invariant = { λ s. KeepsBook W.answers (book_history s.book.register s.callers s.rows.items
        s.events.items (map arc_value s.works.items) s.stages.items s.book.items)
        × HasEventRoom (length s.rows.items) (vec_capacity s.events) };
}

impl<W: AsyncWork> BookState<W> {
    /// Adds a task, which runs after these tasks, and returns its number. After an `Err` the book is as it was.
    pub fn add_in(&mut self, caller: u32, work: Arc<W>, after: &[u32]) -> Result<u32, AddError<W>>
        requires caller { caller < self.old.callers }
        requires few { length after.now ≤ after_limit }
        requires pass { NothingOut (caller_of caller) self.old.items }
        ensures number { IfOk result (λ id. id ≡ length self.old.rows) }
        ensures ok { OnOk result (self.new ≡ with_add self.old caller (arc_value work) after.now) }
        ensures err { OnErr result (self.new ≡ self.old) }
        ensures refused { IfErr result (RefusesAdd (length self.old.rows) work after.now) }
    {
        let listed = List::from_slice(self.alloc, after);
        self.add_listed(caller, work, after, listed)
    }

    // So with the tasks after which it runs as a list, unless there was no memory for it.
    fn add_listed(
        &mut self,
        caller: u32,
        work: Arc<W>,
        after: &[u32],
        listed: Result<List<u32>, NoMemory>,
    ) -> Result<u32, AddError<W>>
        requires caller { caller < self.old.callers }
        requires few { length after.now ≤ after_limit }
        requires pass { NothingOut (caller_of caller) self.old.items }
        requires listed { IfOk listed (λ list. list ≡ after.now) }
        ensures number { IfOk result (λ id. id ≡ length self.old.rows) }
        ensures ok { OnOk result (self.new ≡ with_add self.old caller (arc_value work) after.now) }
        ensures err { OnErr result (self.new ≡ self.old) }
        ensures refused { IfErr result (RefusesAdd (length self.old.rows) work after.now) }
    {
        let id = self.rows.len() as u32;
        if id == MAX_TASKS {
            return Err(AddError::Full { work, seen: id });
        }
        if let Some(task) = first_unseen(after, id) {
            return Err(AddError::NoSuch {
                work,
                task,
                seen: id,
            });
        }
        let place = self.events.len() as u64;
        let Ok(row) = new_row(caller, id, after, listed, place) else {
            return Err(AddError::NoMemory { work });
        };
        let Ok(()) = make_room(&mut self.rows, &mut self.works, &mut self.stages) else {
            return Err(AddError::NoMemory { work });
        };
        let Ok(()) = make_event_room(&mut self.events, id + 1) else {
            return Err(AddError::NoMemory { work });
        };
        let Ok(()) = self.links.add(id, after) else {
            return Err(AddError::NoMemory { work });
        };
        self.rows.push_reserved(row);
        self.works.push_reserved(work);
        self.stages.push_reserved(Stage::Waiting);
        Ok(id)
    }
}

impl<W: AsyncWork> BookState<W> {
    /// Starts a task. `None` exactly where it may not start: it isn't there, was started, or names a task that has no
    /// end. The memory for its event was taken by its add: an `Err` is returned where there is none for the list of its
    /// inputs, or where the work or an input has as many owners as can be counted. The book is then as it was.
    pub fn start_in(
        &mut self,
        register: &Register<Outstanding<W, W::V>>,
        task: u32,
    ) -> Result<Option<Started<W>>, NoMemory>
        requires register { self.old.register ≡ register.now }
        ensures key { key_of self.new ≡ key_of self.old }
        ensures started { IfOk result (λ answer. IfSome answer (StartsTask self.old task self.new)) }
        ensures none { IfOk result (λ answer. IfNone answer ((self.new ≡ self.old)
            × (CanStart self.old task → ⊥))) }
        ensures err { OnErr result (self.new ≡ self.old) }
    {
        if !is_ready(&self.rows, &self.stages, task) {
            return Ok(None);
        }
        let row = &self.rows[task as usize];
        let ins = inputs(self.alloc, &self.stages, row.after.as_slice())?;
        let work = Arc::try_clone(&self.works[task as usize])?;
        self.events.push_reserved(TaskEvent::Started(task));
        set_stage(&mut self.stages, task, Stage::Open);
        let running = Outstanding::Running {
            task,
            work: Snapshot::of(&work),
            ins: Snapshot::of(&ins),
        };
        let ticket = register.issue(&mut self.book, running);
        Ok(Some(Started {
            ticket,
            task,
            work,
            ins,
        }))
    }

    /// Ends a start with a value, and gives the end as it is recorded. It takes no memory.
    pub fn end_in(
        &mut self,
        register: &Register<Outstanding<W, W::V>>,
        started: Started<W>,
        value: Arc<W::V>,
    ) -> RecordedEnd<W>
        requires register { self.old.register ≡ register.now }
        requires started { started.register ≡ register.now }
        requires answered { W.answers started.work started.ins (arc_value value) }
        ensures key { key_of self.new ≡ key_of self.old }
        ensures ended { EndsTask self.old started value self.new }
        ensures recorded { result
            ≡ end_record register.now started.task (length self.old.events) }
    {
        self.end_kept(register, started, value).0
    }

    // So, and gives the work and its inputs back, so that a caller may drop them when the lock is free.
    fn end_kept(
        &mut self,
        register: &Register<Outstanding<W, W::V>>,
        started: Started<W>,
        value: Arc<W::V>,
    ) -> (RecordedEnd<W>, Carried<W>)
        requires register { self.old.register ≡ register.now }
        requires started { started.register ≡ register.now }
        requires answered { W.answers started.work started.ins (arc_value value) }
        ensures key { key_of self.new ≡ key_of self.old }
        ensures ended { EndsTask self.old started value self.new }
        ensures recorded { result.0
            ≡ end_record register.now started.task (length self.old.events) }
    {
        let Started {
            ticket,
            task,
            work,
            ins,
        } = started;
        let place = self.events.len() as u64;
        register.redeem(&mut self.book, ticket);
        self.events.push_reserved(TaskEvent::Ended(task));
        set_stage(&mut self.stages, task, Stage::Over(value));
        self.links.end(task);
        let ticket = register.issue(&mut self.book, Outstanding::Recorded { task, place });
        let end = RecordedEnd {
            ticket,
            task,
            place,
        };
        (end, Carried { work, ins })
    }
}

impl<W: AsyncWork> BookState<W> {
    // Takes an end back, and learns that it is in the history.
    fn close_end(&mut self, register: &Register<Outstanding<W, W::V>>, end: RecordedEnd<W>)
        requires register { self.old.register ≡ register.now }
        requires end { end.register ≡ register.now }
        ensures book { self.new ≡ with_items self.old self.new.items }
        ensures was { slice_get self.old.events end.place ≡ Some (Ended end.task) }
    {
        register.redeem(&mut self.book, end.ticket);
    }

    // So with an end, if there is one.
    fn close_last(
        &mut self,
        register: &Register<Outstanding<W, W::V>>,
        last: Option<RecordedEnd<W>>,
    )
        requires register { self.old.register ≡ register.now }
        requires last { IfSome last (λ end. end.register ≡ register.now) }
        ensures book { self.new ≡ with_items self.old self.new.items }
        ensures was { IfSome last
            (λ end. slice_get self.old.events end.place ≡ Some (Ended end.task)) }
    {
        match last {
            Some(end) => self.close_end(register, end),
            None => (),
        }
    }

    /// Ends a start with a value. The last end that its seat was given is taken back, and comes before this one. What
    /// the start had taken along is returned as well.
    #[tactic(auto, using(crate::proofs::Ending::next_is_after))]
    pub(crate) fn end_after(
        &mut self,
        register: &Register<Outstanding<W, W::V>>,
        started: Started<W>,
        value: Arc<W::V>,
        last: Option<RecordedEnd<W>>,
    ) -> (RecordedEnd<W>, Carried<W>)
        requires register { self.old.register ≡ register.now }
        requires started { started.register ≡ register.now }
        requires answered { W.answers started.work started.ins (arc_value value) }
        requires last { IfSome last (λ end. end.register ≡ register.now) }
        ensures key { key_of self.new ≡ key_of self.old }
        ensures recorded { (result.0.register ≡ register.now) × (result.0.task ≡ started.task) }
        ensures later { IsAfter last result.0.place }
    {
        self.close_last(register, last);
        self.end_kept(register, started, value)
    }
}

impl<W: AsyncWork> BookState<W> {
    /// Takes a pass's ticket back, and learns that what it has seen is a prefix of the rows, with all of its caller's.
    pub(crate) fn close_pass(
        &mut self,
        register: &Register<Outstanding<W, W::V>>,
        ticket: Ticket<Outstanding<W, W::V>>,
        caller: u32,
    )
        requires register { self.old.register ≡ register.now }
        requires ticket { ticket.register ≡ register.now }
        requires caller { IsPassFor caller ticket.item }
        ensures book { self.new ≡ with_items self.old self.new.items }
        ensures none { NothingOut (caller_of caller) self.new.items }
        ensures seen { HasSeen self.old.rows caller (rows_seen ticket.item) }
        ensures number { ticket.number < length self.new.items }
    {
        let _ = caller;
        register.redeem(&mut self.book, ticket);
    }

    /// Looks into the book with a pass, which has then seen all rows.
    #[tactic(auto, using(crate::proofs::Keys::ticket_of, crate::proofs::Keys::held_by))]
    pub(crate) fn look(&mut self, register: &Register<Outstanding<W, W::V>>, pass: &mut Pass<W>)
        requires register { self.old.register ≡ register.now }
        requires pass { IsTicketOf register.now pass.old.ticket }
        ensures book { self.new ≡ with_items self.old self.new.items }
        ensures ticket { IsTicketOf register.now pass.new.ticket }
        ensures looked { HasLooked self.old.rows pass.old pass.new }
    {
        let Some(ticket) = pass.ticket.take() else {
            unreachable!()
        };
        pass.ticket = Some(self.look_for(register, ticket, pass.caller));
    }

    // Looks into the book for the caller with this ticket, and gives its next ticket.
    fn look_for(
        &mut self,
        register: &Register<Outstanding<W, W::V>>,
        ticket: Ticket<Outstanding<W, W::V>>,
        caller: u32,
    ) -> Ticket<Outstanding<W, W::V>>
        requires register { self.old.register ≡ register.now }
        requires ticket { (ticket.register ≡ register.now) × IsPassFor caller ticket.item }
        ensures book { self.new ≡ with_items self.old self.new.items }
        ensures ticket { (result.register ≡ register.now) × IsPassFor caller result.item }
        ensures later { ticket.number < result.number }
        ensures seen { HasSeen self.old.rows caller (rows_seen ticket.item) }
        ensures all { rows_seen result.item ≡ self.old.rows }
    {
        self.close_pass(register, ticket, caller);
        self.open_pass(register, caller)
    }

    /// Adds a task for the caller with this ticket, which has seen all rows then, and gives its next ticket.
    pub(crate) fn add_for(
        &mut self,
        register: &Register<Outstanding<W, W::V>>,
        ticket: Ticket<Outstanding<W, W::V>>,
        caller: u32,
        work: Arc<W>,
        after: &[u32],
        listed: Result<List<u32>, NoMemory>,
    ) -> (Ticket<Outstanding<W, W::V>>, Result<u32, AddError<W>>)
        requires register { self.old.register ≡ register.now }
        requires ticket { (ticket.register ≡ register.now) × IsPassFor caller ticket.item }
        requires caller { caller < self.old.callers }
        requires few { length after.now ≤ after_limit }
        requires listed { IfOk listed (λ list. list ≡ after.now) }
        ensures key { key_of self.new ≡ key_of self.old }
        ensures ticket { (result.0.register ≡ register.now) × IsPassFor caller result.0.item }
        ensures later { ticket.number < result.0.number }
        ensures longer { (more : Items AddRow)
            × (rows_seen result.0.item ≡ rows_seen ticket.item ++ more) }
        ensures added { IfOk result.1 (λ id. (length (rows_seen result.0.item) ≡ id + 1)
            × (kept_of caller (rows_seen result.0.item)
            ≡ kept_of caller (rows_seen ticket.item) ++ (id, after.now) ∷ [])) }
        ensures not_added { OnErr result.1 (kept_of caller (rows_seen result.0.item)
            ≡ kept_of caller (rows_seen ticket.item)) }
        ensures refused { IfErr result.1
            (RefusesAdd (length (rows_seen result.0.item)) work after.now) }
    {
        self.close_pass(register, ticket, caller);
        let answer = self.add_listed(caller, work, after, listed);
        (self.open_pass(register, caller), answer)
    }

    /// Takes off a task that is ready and not on the list of ready tasks yet.
    pub(crate) fn take_ready(&mut self) -> Option<u32>
        ensures { self.new ≡ self.old }
    {
        self.links.take_ready()
    }

    /// Puts it back.
    pub(crate) fn put_ready(&mut self, task: u32)
        ensures { self.new ≡ self.old }
    {
        self.links.put_ready(task);
    }

    /// A ticket for the pass of a caller, which has seen all rows.
    pub(crate) fn open_pass(
        &mut self,
        register: &Register<Outstanding<W, W::V>>,
        caller: u32,
    ) -> Ticket<Outstanding<W, W::V>>
        requires register { self.old.register ≡ register.now }
        requires none { NothingOut (caller_of caller) self.old.items }
        ensures book { self.new ≡ with_items self.old self.new.items }
        ensures ticket { IsFreshPass self.old caller result }
        ensures others { (c : ℕ) → NothingOut (caller_of c) self.old.items → (c ≡ caller → ⊥)
            → NothingOut (caller_of c) self.new.items }
    {
        let seen = Outstanding::Pass {
            caller,
            seen: Snapshot::of(&self.rows),
        };
        register.issue(&mut self.book, seen)
    }
}

impl<W: AsyncWork> BookState<W> {
    /// The state of a book without tasks.
    #[tactic(auto, using(crate::proofs::Finishing::keeps_none))]
    fn empty(alloc: Global, callers: u32, book: Book<Outstanding<W, W::V>>) -> BookState<W>
        requires { book.items ≡ [] }
        ensures key { key_of result ≡ book_key book.register callers }
        ensures items { result.items ≡ [] }
    {
        BookState {
            alloc,
            callers,
            rows: Vec::new(alloc),
            events: Vec::new(alloc),
            works: Vec::new(alloc),
            stages: Vec::new(alloc),
            book,
            links: Links::new(alloc),
        }
    }

    /// A book without tasks for so many callers, none of which has a pass.
    pub fn new(alloc: Global, callers: u32) -> Result<Opening<W>, NoMemory>
        ensures key { IfOk result (λ o. key_of o.state ≡ book_key o.register callers) }
        ensures items { IfOk result (λ o. o.state.items ≡ []) }
    {
        let (register, book) = Register::new(alloc)?;
        let state = BookState::empty(alloc, callers, book);
        Ok(Opening { register, state })
    }

    /// The first task that has no end, or `None` where each has one.
    pub fn first_open(&self) -> Option<u32>
        ensures none { IfNone result ((t : ℕ) → t < length self.now.stages
            → is_over self.now.stages t ≡ true) }
        ensures some { IfSome result (HasNoEnd self.now) }
        ensures history { IsHistory self.now.callers self.now.rows self.now.events }
    {
        first_open(&self.stages)
    }

    /// The run, where each task ended.
    pub fn into_run(self) -> AsyncRun<W>
        requires { (t : ℕ) → t < length self.stages → is_over self.stages t ≡ true }
        ensures run { IsAsyncRun W.answers self.callers result }
        ensures adds { result.adds ≡ self.rows }
    {
        let BookState {
            rows,
            events,
            works,
            stages,
            ..
        } = self;
        AsyncRun {
            adds: List::from_vec(rows),
            events: List::from_vec(events),
            works: List::from_vec(works),
            stages: List::from_vec(stages),
        }
    }

    /// Takes the ticket of a pass back for good.
    pub(crate) fn close(&mut self, register: &Register<Outstanding<W, W::V>>, pass: Pass<W>)
        requires register { self.old.register ≡ register.now }
        requires pass { IsTicketOf register.now pass.ticket }
        ensures book { self.new ≡ with_items self.old self.new.items }
        ensures seen { HasSeen self.old.rows pass.caller (seen pass) }
    {
        let Pass { caller, ticket } = pass;
        let Some(ticket) = ticket else { unreachable!() };
        self.close_pass(register, ticket, caller);
    }
}

// Puts down how far a task is.
fn set_stage<V: Drop>(stages: &mut Vec<Stage<V>>, task: u32, stage: Stage<V>)
    ensures { stages.new.items ≡ slice_set stages.old.items task stage }
{
    if let Some(at) = stages.get_mut(task as usize) {
        *at = stage;
    }
}

// The first of these tasks whose number isn't below another.
fn first_unseen(after: &[u32], count: u32) -> Option<u32>
    ensures { result ≡ first_unseen count after.now }
{
    after.iter().copied().find(|task| count <= *task)
}

// The row of an add, if there was memory for the list of tasks that it names.
fn new_row(
    caller: u32,
    id: u32,
    after: &[u32],
    listed: Result<List<u32>, NoMemory>,
    place: u64,
) -> Result<AddRow, NoMemory>
    requires { IfOk listed (λ list. list ≡ after.now) }
    ensures { IfOk result
        (λ row. row ≡ record { caller = caller; id = id; after = after.now; place = place }) }
{
    let _ = after;
    let after = listed?;
    Ok(AddRow {
        caller,
        id,
        after,
        place,
    })
}

// Takes the memory for one task more: its row, its work and its value.
fn make_room<A, B, C>(
    rows: &mut Vec<A>,
    works: &mut Vec<B>,
    stages: &mut Vec<C>,
) -> Result<(), NoMemory>
    ensures same { (rows.new.items ≡ rows.old.items) × (works.new.items ≡ works.old.items)
        × (stages.new.items ≡ stages.old.items) }
    ensures rows { OnOk result (vec_len rows.new < vec_capacity rows.new) }
    ensures works { OnOk result (vec_len works.new < vec_capacity works.new) }
    ensures stages { OnOk result (vec_len stages.new < vec_capacity stages.new) }
{
    rows.reserve(1)?;
    works.reserve(1)?;
    stages.reserve(1)?;
    Ok(())
}

// Takes the memory for the start and the end of each of so many tasks.
fn make_event_room(events: &mut Vec<TaskEvent>, tasks: u32) -> Result<(), NoMemory>
    ensures same { events.new.items ≡ events.old.items }
    ensures more { vec_capacity events.old ≤ vec_capacity events.new }
    ensures room { OnOk result (HasEventRoom tasks (vec_capacity events.new)) }
{
    let wanted = 2 * tasks as usize;
    events.reserve(wanted.saturating_sub(events.len()))?;
    Ok(())
}
