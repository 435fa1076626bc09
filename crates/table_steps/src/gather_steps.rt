// How a turn that is done takes in another, without the keeper's seat.
ghost use Rattle.std.specs.Prelude.{◌≡◌, [], ◌++◌};
ghost use Rattle.table_steps.specs.Values.{Knows};
ghost use Rattle.table_steps.specs.inside.Kinds.{MayGather, both_turns, left_by};
ghost use Rattle.table_steps.specs.inside.SeatViews.{both_views, nothing_known};

use crate::table_seat::TableSeat;
use crate::view::SeatView;
use crate::words::Words;
use atomic_table::Join;

pub struct Gathers;

impl<V> Join<SeatView<V>> for Gathers {
    ghost both = { both_views both_turns };

    ghost spent = { nothing_known };
}

impl<V> Words<V> {
    // Gives what a turn knows to another's seat, which then knows the values of both.
    fn take_turn(&self, seat: &mut TableSeat<V>, other: TableSeat<V>)
        requires table { (seat.old.table_id ≡ self.now.table.shared.table_id)
            × (other.table_id ≡ self.now.table.shared.table_id) }
        requires home { other.me.1 ≡ [] }
        requires ready { MayGather seat.old.me.0 other.me.0 }
        ensures table { seat.new.table_id ≡ seat.old.table_id }
        ensures view { seat.new.me ≡ (both_turns seat.old.me.0 other.me.0, seat.old.me.1) }
        ensures known { Knows seat.new.values seat.old.values × Knows seat.new.values other.values }
        ensures found { seat.new.found ≡ seat.old.found }
    {
        self.table
            .shared
            .join_seat::<Gathers>(&mut seat.seat, other.into_seat());
    }

    /// Takes a turn that is done into another that is, and one of the two off the live turns. It never finds the last,
    /// since the other stays live. The seat then knows the values that either knew.
    pub fn gather(&self, seat: &mut TableSeat<V>, spent: TableSeat<V>)
        requires table { (seat.old.table_id ≡ self.now.table.shared.table_id)
            × (spent.table_id ≡ self.now.table.shared.table_id) }
        requires home { spent.me.1 ≡ [] }
        requires ready { MayGather seat.old.me.0 spent.me.0 }
        ensures table { seat.new.table_id ≡ seat.old.table_id }
        ensures view { seat.new.me ≡ (spent.me.0 ++ left_by seat.old.me.0, seat.old.me.1) }
        ensures known { Knows seat.new.values seat.old.values × Knows seat.new.values spent.values }
        ensures found { seat.new.found ≡ seat.old.found }
    {
        self.take_turn(seat, spent);
        self.thin(seat);
    }
}
