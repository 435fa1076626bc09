// What a release finds at its edges, and the parts that the entry of its start names, without their values.
ghost use Rattle.std.specs.Prelude.{◌≡◌, ◌≤◌, IfOk};
ghost use Rattle.std.specs.Vec.{vec_capacity};
ghost use Rattle.table_steps.specs.Values.{given_part};
ghost use Rattle.join_words.specs.Ins.{room_of};
ghost use Rattle.join_tables.specs.Parts.{parts_in};

use join_words::{Given, Ins};
use journal_rules::Part;
use outside_io::{List, NoMemory};
use std::alloc::Global;
use std::snapshot::Snapshot;

/// What a release has found so far, with room for what it will find.
#[derive(Drop)]
pub struct Inputs<V> {
    pub(crate) ins: Ins<V>,
    // The same without the values.
    parts: Vec<Part>,
    ghost same: { parts.items ≡ parts_in ins },
    ghost room: { vec_capacity parts ≤ room_of ins },
}

/// What a start found, without the values, which have no bytes.
#[derive(Drop)]
pub struct FoundParts<V> {
    pub parts: List<Part>,
    pub ins: Snapshot<Ins<V>>,
    pub ghost same: { parts ≡ parts_in ins.value },
}

impl<V> Inputs<V> {
    ghost use Rattle.std.specs.Prelude.{[]};
    ghost use Rattle.join_tables.specs.Inputs.{given_in, room_in};

    /// Nothing yet, and room for what is found at so many edges.
    pub fn with_room(alloc: Global, edges: usize) -> Result<Inputs<V>, NoMemory>
        ensures empty { IfOk result (λ inputs. given_in inputs ≡ []) }
        ensures room { IfOk result (λ inputs. room_in inputs ≡ edges) }
    {
        let parts = Vec::with_capacity(alloc, edges)?;
        let ins = Ins::with_room(alloc, edges)?;
        Ok(Inputs { ins, parts })
    }
}

impl<V: Drop> Inputs<V> {
    ghost use Rattle.std.specs.Prelude.{◌++◌, ◌∷◌, ◌<◌, [], length};
    ghost use Rattle.join_tables.specs.Inputs.{given_in, room_in};

    // Adds what was found at the next edge. It takes no memory.
    pub(crate) fn add(&mut self, given: Given<V>)
        requires { length (given_in self.old) < room_in self.old }
        ensures given { given_in self.new ≡ given_in self.old ++ given ∷ [] }
        ensures room { room_in self.new ≡ room_in self.old }
    {
        self.parts.push_reserved(part_of(&given));
        self.ins.add(given);
    }

    // The parts alone. The values are given up.
    pub(crate) fn without_values(self) -> FoundParts<V>
        ensures { result.ins.value ≡ self.ins }
    {
        let Inputs { ins, parts } = self;
        FoundParts {
            parts: List::from_vec(parts),
            ins: Snapshot::of(&ins),
        }
    }
}

// Which part this is.
fn part_of<V>(given: &Given<V>) -> Part
    ensures { result ≡ given_part given.now }
{
    match given {
        Given::Value(place, _) => Part::From(*place),
        Given::First => Part::First,
        Given::Nothing => Part::Nothing,
    }
}
