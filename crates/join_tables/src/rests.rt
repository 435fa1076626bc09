// Rests: the turns that are parked until a unit is back, and that are dropped where none will be back.
ghost use Rattle.std.specs.Prelude.{◌≡◌, ◌≢◌, ◌-◌, ◌<◌, ◌++◌, ◌∷◌, IfOk, IfSome, Some, None, [], length, slice_get};
ghost use Rattle.std.specs.Option.{option_copied, option_map_or};
ghost use Rattle.join_tables.specs.RestStates.{rest_with, parked_as};
ghost use Rattle.join_tables.specs.Rests.{IsOfTable, HandsOut, found_with, ChecksRest, LooksForUnit, MayDropOf, DropsOf};
ghost use Rattle.table_steps.specs.inside.RestKinds.{MayPark, parked};
ghost use Rattle.table_steps.specs.Values.{Knows};

use crate::fates::{Dropping, Fate};
use crate::parts::Inputs;
use crate::turns::{NetTable, Spent, Turn};
use journal_rules::{Cause, DropWhy};
use keyed_lock::Keyed;
use outside_io::NoMemory;
use std::alloc::Global;
use std::marker::Model;
use table_steps::TableSeat;

/// A turn in a rest.
#[derive(Clone, Copy)]
pub struct Parked {
    pub task: u32,
    pub cause: Cause,
}

/// Turns that are parked. Where they are all the live turns of the run, the rest is alone: nothing runs, and no unit
/// will be given back.
#[derive(Drop)]
pub struct Rest<V> {
    // where it has a turn
    seat: Option<TableSeat<V>>,
    turns: Vec<Parked>,
    // what the turns found
    parts: Vec<Inputs<V>>,
    drops: Vec<Dropping>,
    room: usize,
}

impl<V> Model for Rest<V> {
    ghost use Rattle.std.specs.Prelude.{◌≡◌, ◌≢◌, ◌+◌, ◌≤◌, [], map, IfSome, IfNone};
    ghost use Rattle.std.specs.Option.{option_map, option_map_or};
    ghost use Rattle.std.specs.Vec.{vec_len, vec_capacity};
    ghost use Rattle.join_tables.specs.RestStates.{RestState, rest_with};
    ghost use Rattle.join_tables.specs.inside.Resting.{alone_in, full_in, IsRestView, RestParts};
    ghost use Rattle.table_steps.specs.Values.{Knows};
    ghost use Rattle.join_tables.specs.Inputs.{parts_found};
    ghost use Rattle.join_tables.specs.Values.{found_values};

    ghost Value = { RestState };

    ghost view = { λ r. rest_with (option_map (λ s. s.table_id) r.seat) r.room r.turns.items
        r.drops.items (alone_in (option_map_or (λ s. s.me.0) r.seat []))
        (full_in (option_map_or (λ s. s.me.0) r.seat []))
        (option_map_or (λ s. s.found) r.seat []) };

    ghost invariant = { λ r. IfSome r.seat
        (λ s. IsRestView r.turns.items r.drops.items s.me.0 × (s.me.1 ≡ []) × (r.turns.items ≢ [])
        × RestParts (map parts_found r.parts.items) s.me.0)
        × (IfNone r.seat ((r.turns.items ≡ []) × (r.drops.items ≡ [])))
        × (vec_len r.turns + vec_len r.drops ≤ r.room) × (r.room ≤ vec_capacity r.turns)
        × (r.room ≤ vec_capacity r.drops) × (vec_len r.parts ≡ vec_len r.turns)
        × (r.room ≤ vec_capacity r.parts)
        × (IfSome r.seat (λ s. Knows s.values (found_values r.parts.items))) };
}

impl<V> Keyed for Rest<V> {
    ghost use Rattle.std.specs.Prelude.{Option};
    ghost use Rattle.atomic_table.specs.Seated.{TableId};

    ghost Key = { Option TableId };

    ghost key = { λ r. r.table };
}

/// What checking a rest led to.
#[derive(Drop)]
pub enum Checked<V> {
    /// There are other live turns: so many live turns were found.
    Busy(Rest<V>, u64),
    /// There are none, and this says whether a start of the run has faulted.
    Alone(Rest<V>, bool),
}

/// What looking for a unit led to.
#[derive(Drop)]
pub enum UnitLook<V> {
    /// All units of the semaphore are taken.
    Exhausted(Rest<V>),
    /// It has a unit.
    Available(Rest<V>),
}

/// What dropping a turn of a rest led to.
#[derive(Drop)]
pub enum RestDrop<V> {
    /// Turns are left.
    More(Rest<V>),
    /// None is left.
    Last(Spent<V>),
}

impl<V: Drop> Rest<V> {
    /// A rest without turns, with room for so many.
    pub fn with_room(alloc: Global, room: usize) -> Result<Rest<V>, NoMemory>
        ensures { IfOk result (λ rest. rest ≡ rest_with None room [] [] None [] []) }
    {
        Ok(Rest {
            seat: None,
            turns: Vec::with_capacity(alloc, room)?,
            parts: Vec::with_capacity(alloc, room)?,
            drops: Vec::with_capacity(alloc, room)?,
            room,
        })
    }

    /// How many turns it has.
    pub fn len(&self) -> usize
        ensures { result ≡ length self.now.turns }
    {
        self.turns.len()
    }

    /// How many turns it has room for, with those that it has.
    pub fn room(&self) -> usize
        ensures { result ≡ self.now.room }
    {
        self.room
    }

    /// The turn that it took in last, or `None` where it has none.
    pub fn last(&self) -> Option<&Parked>
        ensures { option_copied result ≡ slice_get self.now.turns (length self.now.turns - 1) }
    {
        self.turns.as_slice().last()
    }
}

// The seat of a rest with these turns.
fn seat_with<V: Drop>(seat: TableSeat<V>, turns: &Vec<Parked>) -> Option<TableSeat<V>>
    ensures none { turns.now.items ≡ [] → result ≡ None }
    ensures some { turns.now.items ≢ [] → result ≡ Some seat }
{
    if turns.is_empty() { None } else { Some(seat) }
}

impl<V: Drop> NetTable<V> {
    /// Takes a turn into a rest. The turn holds no unit and was not refused, and the rest has drawn no Drop.
    pub fn rest_add(&self, rest: Rest<V>, turn: Turn<V>) -> Rest<V>
        requires table { IsOfTable self.now.table rest.table × (turn.table ≡ self.now.table) }
        requires waits { (turn.refused ≡ None) × (turn.held ≡ []) }
        requires room { length rest.turns < rest.room }
        requires undropped { rest.dropped ≡ [] }
        ensures { result ≡ rest_with (Some self.now.table) rest.room
            (rest.turns ++ parked_as turn.task turn.cause ∷ []) [] None []
            (found_with rest.table rest.found turn.found) }
    {
        let Turn {
            seat: own,
            task,
            cause,
            inputs,
        } = turn;
        let Rest {
            seat,
            mut turns,
            mut parts,
            drops,
            room,
        } = rest;
        turns.push_reserved(Parked { task, cause });
        parts.push_reserved(inputs);
        let seat = self.join_rest(seat, own);
        Rest {
            seat: Some(seat),
            turns,
            parts,
            drops,
            room,
        }
    }

    // Gives what a turn's seat knows to the seat of a rest, which is the turn's own where the rest has none.
    #[tactic(auto, using(table_steps::proofs::Values::knows_self, table_steps::proofs::Values::knows_none))]
    fn join_rest(&self, seat: Option<TableSeat<V>>, own: TableSeat<V>) -> TableSeat<V>
        requires table { IfSome seat (λ s. s.table_id ≡ self.now.table)
            × (own.table_id ≡ self.now.table) }
        requires home { IfSome seat (λ s. s.me.1 ≡ []) × (own.me.1 ≡ []) }
        requires ready { IfSome seat (λ s. MayPark s.me.0 own.me.0) }
        ensures table { result.table_id ≡ self.now.table }
        ensures view { result.me ≡ (parked (option_map_or (λ s. s.me.0) seat []) own.me.0, []) }
        ensures known { Knows result.values (option_map_or (λ s. s.values) seat [])
            × Knows result.values own.values }
        ensures found { result.found ≡ option_map_or (λ s. s.found) seat own.found }
    {
        let Some(mut seat) = seat else { return own };
        self.words.park(&mut seat, own);
        seat
    }

    /// Hands the last turn of a rest out again. The rest has a turn and has drawn no Drop, and isn't known to be alone
    /// any more.
    pub fn rest_pop(&self, rest: Rest<V>) -> (Rest<V>, Turn<V>)
        requires table { IsOfTable self.now.table rest.table }
        requires turns { rest.turns ≢ [] }
        requires undropped { rest.dropped ≡ [] }
        ensures { HandsOut self.now.table rest result.0 result.1 }
    {
        let Rest {
            seat,
            mut turns,
            mut parts,
            drops,
            room,
        } = rest;
        let Some(mut seat) = seat else { unreachable!() };
        let Some(Parked { task, cause }) = turns.pop() else {
            unreachable!()
        };
        let Some(inputs) = parts.pop() else {
            unreachable!()
        };
        let own = self.words.hand_out(&mut seat);
        let rest = Rest {
            seat: seat_with(seat, &turns),
            turns,
            parts,
            drops,
            room,
        };
        let turn = Turn {
            seat: own,
            task,
            cause,
            inputs,
        };
        (rest, turn)
    }

    /// Checks whether the turns of a rest are all the live turns. It returns `Alone` exactly where its own load of the
    /// live word finds the number of its turns, and says then whether its load of the halt mark finds it set. Else
    /// `Busy` has the number that it found. The rest has a turn, and isn't known to be alone yet.
    pub fn rest_check(&self, rest: Rest<V>) -> Checked<V>
        requires table { IsOfTable self.now.table rest.table }
        requires turns { rest.turns ≢ [] }
        requires unknown { rest.alone ≡ None }
        ensures { ChecksRest self.now.table rest result }
    {
        let Rest {
            seat,
            turns,
            parts,
            drops,
            room,
        } = rest;
        let Some(mut seat) = seat else { unreachable!() };
        let live = self.words.load_live(&mut seat);
        if live != turns.len() as u64 {
            let rest = Rest {
                seat: Some(seat),
                turns,
                parts,
                drops,
                room,
            };
            return Checked::Busy(rest, live);
        }
        let halt = self.words.look_for_halt(&mut seat);
        let rest = Rest {
            seat: Some(seat),
            turns,
            parts,
            drops,
            room,
        };
        Checked::Alone(rest, halt != 0)
    }

    /// Looks for a unit of a semaphore, for a rest that is alone. It returns `Exhausted` exactly where its own load
    /// finds that as many are taken as there are. Then none will be given back, since no other turn is live.
    pub fn rest_full(&self, rest: Rest<V>, sem: u32) -> UnitLook<V>
        requires table { IsOfTable self.now.table rest.table }
        requires alone { rest.alone ≢ None }
        requires in_range { sem < length self.now.net.sems }
        ensures { LooksForUnit self.now.net self.now.table rest sem result }
    {
        let Rest {
            seat,
            turns,
            parts,
            drops,
            room,
        } = rest;
        let Some(mut seat) = seat else { unreachable!() };
        let found = self.words.load_units(&mut seat, sem);
        let rest = Rest {
            seat: Some(seat),
            turns,
            parts,
            drops,
            room,
        };
        if found < u64::from(self.words.net.sems()[sem as usize]) {
            UnitLook::Available(rest)
        } else {
            UnitLook::Exhausted(rest)
        }
    }

    /// Drops the last turn of a rest that is alone: after a Fault, or for want of a unit of a semaphore that its task
    /// takes and `rest_full` found without one. It draws the place of its Drop, and takes the turn off the live turns
    /// where it isn't the only one. Nothing is owed after it.
    pub fn rest_drop(&self, rest: Rest<V>, why: DropWhy) -> RestDrop<V>
        requires table { IsOfTable self.now.table rest.table }
        requires why { MayDropOf self.now.net rest why }
        ensures { DropsOf self.now.table rest why result }
    {
        let Rest {
            seat,
            mut turns,
            mut parts,
            mut drops,
            room,
        } = rest;
        let Some(mut seat) = seat else { unreachable!() };
        let Some(Parked { task, cause }) = turns.pop() else {
            unreachable!()
        };
        let Some(_inputs) = parts.pop() else {
            unreachable!()
        };
        let place = self.words.draw_last_drop(&mut seat, why);
        drops.push_reserved(Dropping {
            task,
            cause,
            place,
            why,
        });
        if turns.is_empty() {
            let fate = Fate::AllDropped(drops);
            return RestDrop::Last(Spent { seat, fate });
        }
        self.words.thin(&mut seat);
        RestDrop::More(Rest {
            seat: Some(seat),
            turns,
            parts,
            drops,
            room,
        })
    }
}
