// What waits at each edge for the next start that uses a token of it.
ghost use Rattle.std.specs.Prelude.{◌≡◌, ◌==◌, ◌<◌, ◌++◌, ◌∷◌, [], ℕ, Bool, List, length, IfOk, All, map, slice_index_or, if◌then◌else◌};
ghost use Rattle.std.specs.List.{list_any};
ghost use Rattle.task_graph.specs.NetRows.{NetRows};
ghost use Rattle.journal_rules.specs.declared.entry.Entry.{Entry};
ghost use Rattle.journal_rules.specs.declared.entry.Entry.TheVariants.{End};
ghost use Rattle.journal_rules.specs.declared.entry.Part.{Part};
ghost use Rattle.journal_rules.specs.declared.entry.Part.TheVariants.{Nothing};
ghost use Rattle.journal_rules.specs.ShapeLegal.{CauseInRange};
ghost use Rattle.journal_rules.specs.Waiting.{waiting_parts};
ghost use Rattle.journal_rules.specs.inside.Releases.{IsUseOf};
ghost use Rattle.net_machine.specs.inside.Waits.{TellsWaiting};

use journal_rules::{Cause, Part};
use outside_io::{List, NoMemory};
use std::alloc::Global;
use task_graph::Net;

/// By edge: what the next start that uses it finds.
#[derive(Drop)]
pub struct Waiting {
    pub parts: Vec<Part>,
}

impl Waiting {
    /// What waits before a run begins.
    pub fn new(alloc: Global, net: &Net) -> Result<Waiting, NoMemory>
        ensures { IfOk result (λ waiting. TellsWaiting net.now [] waiting.parts.items) }
    {
        let mut parts = Vec::with_capacity(alloc, net.edges().len())?;
        for row in net.edges() {
            let part = if row.start {
                Part::First
            } else {
                Part::Nothing
            };
            parts.push(part)?;
        }
        Ok(Waiting { parts })
    }

    /// Takes away what waits at the edges that release a task by a cause.
    pub fn take(&mut self, net: &Net, task: u32, cause: Cause)
        requires task { task < length net.now.tasks }
        requires cause { CauseInRange net.now cause }
        requires len { length self.old.parts.items ≡ length net.now.edges }
        ensures { (journal : List Entry) (entry : Entry) → IsUseOf task cause entry
            → TellsWaiting net.now journal self.old.parts.items
            → TellsWaiting net.now (journal ++ entry ∷ []) self.new.parts.items }
    {
        match cause {
            Cause::Source => (),
            Cause::Strong => {
                put_each(&mut self.parts, net.strong_in(task), Part::Nothing);
            }
            Cause::Weak(edge) => put_each(&mut self.parts, &[edge], Part::Nothing),
        }
    }

    /// Puts an End at a place to the edges that it gives.
    pub fn give(&mut self, gives: &[u32], place: u64)
        requires { All (λ e. e < length self.old.parts.items) gives.now }
        ensures { (net : NetRows) (journal : List Entry) (start : ℕ) (inner : Bool)
            → TellsWaiting net journal self.old.parts.items → place ≡ length journal
            → TellsWaiting net (journal ++ End start gives.now inner ∷ []) self.new.parts.items }
    {
        put_each(&mut self.parts, gives, Part::From(place));
    }

    /// What waits at each edge that releases a task by a cause.
    pub fn parts_of(
        &self,
        alloc: Global,
        net: &Net,
        task: u32,
        cause: Cause,
    ) -> Result<List<Part>, NoMemory>
        requires task { task < length net.now.tasks }
        requires cause { CauseInRange net.now cause }
        requires len { length self.now.parts.items ≡ length net.now.edges }
        ensures { (journal : List Entry) → TellsWaiting net.now journal self.now.parts.items
            → IfOk result (λ parts. parts ≡ waiting_parts net.now task cause journal) }
    {
        match cause {
            Cause::Source => Ok(List::new(alloc)),
            Cause::Strong => parts_at(alloc, self.parts.as_slice(), net.strong_in(task)),
            Cause::Weak(edge) => parts_at(alloc, self.parts.as_slice(), &[edge]),
        }
    }
}

// Puts a part at each place.
fn put_each(parts: &mut Vec<Part>, places: &[u32], part: Part)
    requires { All (λ at. at < length parts.old.items) places.now }
    ensures len { length parts.new.items ≡ length parts.old.items }
    ensures each { (k : ℕ) (d : Part) → k < length parts.old.items →
        slice_index_or parts.new.items k d
        ≡ (if list_any (λ at. at == k) places.now then part
        else slice_index_or parts.old.items k d) }
{
    for at in places {
        parts[*at as usize] = part;
    }
}

// The parts at these places, in order.
fn parts_at(alloc: Global, parts: &[Part], places: &[u32]) -> Result<List<Part>, NoMemory>
    requires { All (λ at. at < length parts.now) places.now }
    ensures { IfOk result
        (λ list. list ≡ map (λ at. slice_index_or parts.now at Nothing) places.now) }
{
    let mut list = List::new(alloc);
    for at in places {
        list.push(parts[*at as usize])?;
    }
    Ok(list)
}
