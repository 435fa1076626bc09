// The builder of nets, which refuses what would break them.
ghost use Rattle.std.specs.Prelude.{◌≡◌, ◌<◌, [], false, length, IfOk, IfErr, OnErr, OnOk};
ghost use Rattle.task_graph.specs.Net.{IsEdgeOf, IsPlainNet, IsPlainTask, IsTaskOf};
ghost use Rattle.task_graph.specs.NetBuilder.{EdgeAnswer, FitLists, RefusesEnds, RefusesLists, SemaphoreAnswer, TaskAnswer, empty_net, settled, task_limit, with_task};
ghost use Rattle.task_graph.specs.declared.builder.BuildError.TheVariants.{NoMemory as OutOfMemory};

use crate::index::EdgeIndex;
use crate::net::{EdgeRow, Net, Shape, TaskRow};
use crate::semaphores::{first_unknown, least_repeated, rising};
use outside_io::{Back, List, NoMemory};
use std::alloc::Global;
use std::marker::Model;

/// How many tasks a net may have.
pub const MAX_NET_TASKS: u32 = 4_000_000;

/// How many edges a net may have.
pub const MAX_NET_EDGES: u32 = 8_000_000;

/// How many semaphores a net may have.
pub const MAX_SEMAPHORES: u32 = 256;

/// Why a task, an edge or a semaphore was refused. Where several reasons hold, the first in this order is
/// returned; `NoMemory` is returned only where none of the others holds.
#[derive(Clone, Copy, Debug, PartialEq, Eq)]
pub enum BuildError {
    /// No task has this number.
    NoSuchTask(u32),
    /// No semaphore has this number.
    NoSuchSemaphore(u32),
    /// A semaphore without units.
    ZeroCount,
    /// This semaphore is twice in one list.
    Repeated(u32),
    /// An edge out of a task that chooses its successors was to begin with a token.
    WeakStart,
    /// There are so many of the kind already, and may be no more.
    TooMany(u32),
    /// An allocation failed.
    NoMemory,
}

impl From<NoMemory> for BuildError {
    ghost from_gives = { λ _ error. error ≡ OutOfMemory };

    fn from(_: NoMemory) -> Self {
        BuildError::NoMemory
    }
}

impl<T: Drop> From<Back<T>> for BuildError {
    ghost from_gives = { λ _ error. error ≡ OutOfMemory };

    fn from(_: Back<T>) -> Self {
        BuildError::NoMemory
    }
}

/// A net in the making. Contracts see it as the rows that it has so far.
#[derive(Drop)]
pub struct NetBuilder {
    alloc: Global,
    tasks: List<TaskRow>,
    edges: List<EdgeRow>,
    sems: List<u32>,
    index: EdgeIndex,
}

impl Model for NetBuilder {
    ghost use Rattle.task_graph.specs.NetRows.{NetRows};

    ghost Value = { NetRows };

    ghost use Rattle.task_graph.specs.inside.BuilderState.{built_rows, IsBuilding};

    ghost view = { built_rows };

    ghost invariant = { IsBuilding };
}

impl NetBuilder {
    /// A net without tasks, edges and semaphores. It takes no memory.
    pub fn new(alloc: Global) -> NetBuilder
        ensures empty { result ≡ empty_net }
        ensures plain { IsPlainNet result }
    {
        NetBuilder {
            alloc,
            tasks: List::new(alloc),
            edges: List::new(alloc),
            sems: List::new(alloc),
            index: EdgeIndex::new(alloc),
        }
    }

    /// Adds a semaphore with this maximum and returns its number. After an `Err` the net is as it was.
    ///
    /// `ZeroCount`: the maximum is 0. `TooMany`: the net has `MAX_SEMAPHORES`.
    pub fn semaphore(&mut self, max: u32) -> Result<u32, BuildError>
        ensures answer { SemaphoreAnswer self.old max result self.new }
        ensures plain { IsPlainNet self.old → IsPlainNet self.new }
    {
        if max == 0 {
            return Err(BuildError::ZeroCount);
        }
        if self.sems.len() == MAX_SEMAPHORES as usize {
            return Err(BuildError::TooMany(MAX_SEMAPHORES));
        }
        let id = self.sems.len() as u32;
        self.sems.push(max)?;
        Ok(id)
    }

    /// Adds a task and returns its number. `takes` and `puts` name semaphores of the net in any order, and
    /// none twice; the net keeps them by rising number. After an `Err` the net is as it was.
    ///
    /// `NoSuchSemaphore`: the first number in `takes`, or else in `puts`, that no semaphore has. `Repeated`:
    /// the least that occurs twice in `takes`, or else in `puts`. `TooMany`: the net has `MAX_NET_TASKS`.
    pub fn task(
        &mut self,
        shape: Shape,
        takes: List<u32>,
        puts: List<u32>,
    ) -> Result<u32, BuildError>
        ensures answer { TaskAnswer self.old (record { shape = shape; takes = takes; puts = puts })
            result self.new }
        ensures plain { IsPlainNet self.old
            → IsPlainTask (record { shape = shape; takes = takes; puts = puts })
            → IsPlainNet self.new }
    {
        self.check_lists(takes.as_slice(), puts.as_slice())?;
        if self.tasks.len() == MAX_NET_TASKS as usize {
            return Err(BuildError::TooMany(MAX_NET_TASKS));
        }
        let row = self.settled(shape, takes.as_slice(), puts.as_slice())?;
        Ok(self.append_task(row)?)
    }

    // The row of a task as the net keeps it.
    fn settled(&self, shape: Shape, takes: &[u32], puts: &[u32]) -> Result<TaskRow, NoMemory>
        ensures { IfOk result (λ row. row ≡ settled self.now
            (record { shape = shape; takes = takes.now; puts = puts.now })) }
    {
        let count = self.sems.len() as u32;
        Ok(TaskRow {
            shape,
            takes: rising(self.alloc, takes, count)?,
            puts: rising(self.alloc, puts, count)?,
        })
    }

    // Adds a row at the end and returns its number, or leaves the net as it is.
    fn append_task(&mut self, row: TaskRow) -> Result<u32, NoMemory>
        requires fits { IsTaskOf self.old row }
        requires room { length self.old.tasks < task_limit }
        ensures number { IfOk result (λ id. id ≡ length self.old.tasks) }
        ensures ok { OnOk result (self.new ≡ with_task self.old row) }
        ensures err { OnErr result (self.new ≡ self.old) }
    {
        let id = self.tasks.len() as u32;
        self.index
            .make_room(self.tasks.len() + 1, self.edges.len())?;
        self.tasks.push(row)?;
        Ok(id)
    }

    // Why a task with these lists is refused, if it is.
    fn check_lists(&self, takes: &[u32], puts: &[u32]) -> Result<(), BuildError>
        ensures ok { OnOk result (FitLists self.now takes.now puts.now) }
        ensures err { IfErr result (RefusesLists self.now takes.now puts.now) }
    {
        let count = self.sems.len() as u32;
        if let Some(id) = first_unknown(takes, count).or(first_unknown(puts, count)) {
            return Err(BuildError::NoSuchSemaphore(id));
        }
        if let Some(id) = least_repeated(takes, count).or(least_repeated(puts, count)) {
            return Err(BuildError::Repeated(id));
        }
        Ok(())
    }

    /// Adds an edge and returns its number; with `start` it begins with a token. After an `Err` the net is as
    /// it was.
    ///
    /// `NoSuchTask`: the first end that is no task, `from` before `to`. `WeakStart`: the edge would be weak,
    /// and was to begin with a token. `TooMany`: the net has `MAX_NET_EDGES`.
    pub fn edge(&mut self, from: u32, to: u32, start: bool) -> Result<u32, BuildError>
        ensures answer { EdgeAnswer self.old (record { from = from; to = to; start = start })
            result self.new }
        ensures plain { IsPlainNet self.old → start ≡ false → IsPlainNet self.new }
    {
        self.check_ends(EdgeRow { from, to, start })?;
        if self.edges.len() == MAX_NET_EDGES as usize {
            return Err(BuildError::TooMany(MAX_NET_EDGES));
        }
        let id = self.edges.len() as u32;
        self.index
            .make_room(self.tasks.len(), self.edges.len() + 1)?;
        self.edges.push(EdgeRow { from, to, start })?;
        Ok(id)
    }

    // Why this edge is refused, if it is, whatever the number of edges.
    fn check_ends(&self, edge: EdgeRow) -> Result<(), BuildError>
        ensures ok { OnOk result (IsEdgeOf self.now edge) }
        ensures err { IfErr result (RefusesEnds self.now edge) }
    {
        let Some(source) = self.tasks.get(edge.from as usize) else {
            return Err(BuildError::NoSuchTask(edge.from));
        };
        if edge.to as usize >= self.tasks.len() {
            return Err(BuildError::NoSuchTask(edge.to));
        }
        if edge.start && source.shape.chooses() {
            return Err(BuildError::WeakStart);
        }
        Ok(())
    }

    /// The net that was built. It takes no memory.
    pub fn finish(self) -> Net
        ensures { result ≡ self }
    {
        let NetBuilder {
            tasks,
            edges,
            sems,
            mut index,
            ..
        } = self;
        index.fill(tasks.as_slice(), edges.as_slice());
        Net::with_index(tasks, edges, sems, index)
    }
}
