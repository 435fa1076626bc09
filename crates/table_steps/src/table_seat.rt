// The seat of a turn, with the numbers that its steps found.
ghost use Rattle.std.specs.Prelude.{◌≡◌, ◌∷◌, []};

use crate::parcels::Parcels;
use crate::view::SeatView;
use atomic_table::Seat;
use boxcar::tag::{Names, Tag};
use std::marker::Model;
use std::mem;

// A seat of the table, by which steps are made.
pub(crate) type NoteSeat<V> = Seat<Parcels<V>, SeatView<V>>;

/// A seat of the table with the numbers that its steps found. It has no bytes. A number is added only by the step that
/// found it, so whoever has a seat can neither claim a number that no step found nor hide one. It knows the values of
/// the parcels that it holds.
pub struct TableSeat<V> {
    pub(crate) seat: NoteSeat<V>,
    numbers: Tag,
}

// Written out, so that it is proved here alone and not in each crate above.
impl<V: Drop> Drop for TableSeat<V> {
    fn drop(self) {
        let TableSeat { seat, numbers } = self;
        drop((seat, numbers));
    }
}

impl<V> Model for TableSeat<V> {
    ghost use Rattle.table_steps.specs.inside.TableSeats.{TableSeatState};
    ghost use Rattle.table_steps.specs.inside.SeatViews.{me_of, values_held};
    ghost use Rattle.table_steps.specs.Values.{Knows};

    ghost Value = { TableSeatState V };

    ghost view = { λ p. record {
      table_id = p.seat.table_id;
      id = p.seat.id;
      me = me_of p.seat.me;
      values
          = p.seat.me.0.values;
      found = p.numbers.numbers;
    } };

    ghost invariant = { λ p. Knows p.seat.me.0.values (values_held p.seat.me.1) };
}

struct WithOneMore;

impl Names<(Tag, u64)> for WithOneMore {
    ghost numbers = { λ found. found.1 ∷ found.0.numbers };
}

impl<V> TableSeat<V> {
    ghost use Rattle.table_steps.specs.Values.{Knows};
    ghost use Rattle.table_steps.specs.inside.SeatViews.{me_of, values_held};

    // A seat that has made no step yet.
    pub(crate) fn first(seat: NoteSeat<V>) -> TableSeat<V>
        requires home { seat.me.1 ≡ [] }
        ensures seat { (result.table_id ≡ seat.table_id) × (result.id ≡ seat.id)
            × (result.me ≡ (seat.me.0.notes, [])) }
        ensures values { result.values ≡ seat.me.0.values }
        ensures found { result.found ≡ [] }
    {
        TableSeat {
            seat,
            numbers: Tag::empty(),
        }
    }

    // The seat, without the numbers.
    pub(crate) fn into_seat(self) -> NoteSeat<V>
        ensures seat { (result.table_id ≡ self.table_id) × (result.id ≡ self.id)
            × (me_of result.me ≡ self.me) }
        ensures values { result.me.0.values ≡ self.values }
        ensures known { Knows result.me.0.values (values_held result.me.1) }
    {
        let TableSeat { seat, numbers } = self;
        drop(numbers);
        seat
    }

    // Adds the number that a step found.
    pub(crate) fn add_found(&mut self, number: u64)
        ensures seat { (self.new.table_id ≡ self.old.table_id) × (self.new.id ≡ self.old.id)
            × (self.new.me ≡ self.old.me) }
        ensures values { self.new.values ≡ self.old.values }
        ensures found { self.new.found ≡ number ∷ self.old.found }
    {
        let before = mem::replace(&mut self.numbers, Tag::empty());
        self.numbers = Tag::of::<(Tag, u64), WithOneMore>(&(before, number));
    }
}
