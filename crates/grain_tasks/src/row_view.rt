// What the seats of a row know, its rule, and what its steps tell.
use crate::chunk::Chunk;
use atomic_table::{Join, Play, Split, TableRule};
use std::collections::LinkedList;

/// How many indices a row has, how many a chunk has, and how many seats draw chunks.
#[derive(Clone, Copy, Debug, PartialEq, Eq)]
pub struct RowShape {
    pub count: u64,
    pub grain: u64,
    pub seats: u64,
}

/// What a seat knows: the row's shape, for how many seats it stands, how many of them found the row drawn, up to
/// which number it knows that numbers were drawn, and which chunks it has drawn. No value of it is made.
pub struct View {
    pub shape: RowShape,
    pub seats: u64,
    pub late: u64,
    pub reached: u64,
    pub drawn: LinkedList<Chunk>,
}

/// Each index below the word and the count is in one chunk of one view.
pub struct Drawing;

impl TableRule<(), View, RowShape> for Drawing {
    ghost use Rattle.grain_tasks.specs.inside.Views.{IsRow, first_view};

    ghost holds = { λ shape s. IsRow shape s.words s.views };

    ghost first = { first_view };
}

/// A number is drawn.
pub struct DrawsNumber;

impl Play<(), View> for DrawsNumber {
    ghost use Rattle.grain_tasks.specs.inside.Views.{Draws};

    ghost then = { Draws };
}

/// What stands for all seats learns what they drew.
pub struct LearnsAll;

impl Play<(), View> for LearnsAll {
    ghost use Rattle.grain_tasks.specs.inside.Views.{Learns};

    ghost then = { Learns };
}

/// A seat of its own.
pub struct CutsSeat;

impl Split<View> for CutsSeat {
    ghost use Rattle.grain_tasks.specs.inside.Views.{one_fewer, one_seat};

    ghost left = { one_fewer };

    ghost right = { one_seat };
}

/// What two seats drew is put together.
pub struct PutsTogether;

impl Join<View> for PutsTogether {
    ghost use Rattle.grain_tasks.specs.inside.Views.{both_views, spent_view};

    ghost both = { both_views };

    ghost spent = { spent_view };
}
