// Which tasks wait for which others, and which are ready. It decides only when a start is tried: whether a task may
// start is looked up where it starts. So nothing is proved of it but that each call is safe.
use outside_io::NoMemory;
use std::alloc::Global;

/// What waits for one task, and what it waits for.
#[derive(Drop)]
struct TaskLinks {
    over: bool,
    // How many of the tasks after which it runs aren't over, each as often as it was named.
    left: u32,
    // The newest edge to a task that runs after it.
    newest: Option<u32>,
    // The ready task below it on the stack of ready tasks.
    below: Option<u32>,
}

/// A task that runs after another, and the next older edge from that one.
#[derive(Drop)]
struct Edge {
    waiting: u32,
    older: Option<u32>,
}

/// The links of all tasks, by number, all edges between them, and a stack of those that are ready and not taken off
/// yet. The edges are in one list, so that an add takes no memory of its own for them.
#[derive(Drop)]
pub struct Links {
    tasks: Vec<TaskLinks>,
    edges: Vec<Edge>,
    ready: Option<u32>,
}

impl Links {
    /// Of no tasks. It takes no memory.
    pub fn new(alloc: Global) -> Links {
        Links {
            tasks: Vec::new(alloc),
            edges: Vec::new(alloc),
            ready: None,
        }
    }

    /// Adds the task with the next number. After an `Err` all is as it was.
    pub fn add(&mut self, id: u32, after: &[u32]) -> Result<(), NoMemory> {
        self.tasks.reserve(1)?;
        let mut left = 0u32;
        for place in 0..after.len() {
            match self.link(after[place], id) {
                Ok(waits) => left = left.saturating_add(waits),
                Err(error) => {
                    self.unlink(&after[..place]);
                    return Err(error);
                }
            }
        }
        self.append(id, left)
    }

    /// The task is over, and those that waited for it alone are ready.
    pub fn end(&mut self, task: u32) {
        let Some(link) = self.tasks.get_mut(task as usize) else {
            return;
        };
        link.over = true;
        let mut next = link.newest.take();
        for _ in 0..self.edges.len() {
            let Some(edge) = next else { return };
            next = self.follow(edge);
        }
    }

    /// Takes a ready task off.
    pub fn take_ready(&mut self) -> Option<u32> {
        let task = self.ready?;
        self.ready = match self.tasks.get_mut(task as usize) {
            Some(link) => link.below.take(),
            None => None,
        };
        Some(task)
    }

    /// Puts a ready task back.
    pub fn put_ready(&mut self, task: u32) {
        if let Some(link) = self.tasks.get_mut(task as usize) {
            link.below = self.ready;
            self.ready = Some(task);
        }
    }

    // How often a task waits for another that it names once: not at all if that one is over.
    fn link(&mut self, before: u32, id: u32) -> Result<u32, NoMemory> {
        // A book has far fewer edges.
        let Ok(edge) = u32::try_from(self.edges.len()) else {
            return Err(NoMemory);
        };
        let Some(link) = self.tasks.get_mut(before as usize) else {
            return Ok(0);
        };
        if link.over {
            return Ok(0);
        }
        self.edges.push(Edge {
            waiting: id,
            older: link.newest,
        })?;
        link.newest = Some(edge);
        Ok(1)
    }

    // Undoes the links to these tasks that were made last.
    fn unlink(&mut self, after: &[u32]) {
        for before in after.iter().rev() {
            if let Some(link) = self.tasks.get_mut(*before as usize)
                && !link.over
            {
                link.newest = match self.edges.pop() {
                    Some(edge) => edge.older,
                    None => None,
                };
            }
        }
    }

    // Appends the task, which waits for so many.
    fn append(&mut self, id: u32, left: u32) -> Result<(), NoMemory> {
        self.tasks.push(TaskLinks {
            over: false,
            left,
            newest: None,
            below: None,
        })?;
        if left == 0 {
            self.put_ready(id);
        }
        Ok(())
    }

    // The task that an edge leads to waits for one task less. The next older edge.
    fn follow(&mut self, edge: u32) -> Option<u32> {
        let Edge { waiting, older } = self.edges.get(edge as usize)?;
        let (waiting, older) = (*waiting, *older);
        self.count_down(waiting);
        older
    }

    // One of the tasks for which it waits is over.
    fn count_down(&mut self, task: u32) {
        let Some(link) = self.tasks.get_mut(task as usize) else {
            return;
        };
        link.left = link.left.saturating_sub(1);
        if link.left == 0 {
            self.put_ready(task);
        }
    }
}
