// Rows of chunks that are drawn from one atomic word.
ghost use Rattle.std.specs.Prelude.{◌≡◌, ◌≤◌, [], IfOk, IfErr, OnOk, replicate};
ghost use Rattle.grain_tasks.specs.Rows.{GathersBoth, RefusesRow, draw_state, row_shape};
ghost use Rattle.grain_tasks.specs.inside.Views.{first_view};

use crate::chunk::Chunk;
use crate::errors::GrainError;
use crate::row_view::{CutsSeat, Drawing, DrawsNumber, LearnsAll, PutsTogether, RowShape, View};
use atomic_table::{Seat, Table};
use outside_io::NoMemory;
use std::alloc::Global;
use std::marker::Model;

// The words of a row's table. Only the one in the middle is used, so that no other data is on its cache line.
const WORDS: usize = 16;

// The word that is the next number to be drawn.
const WORD: usize = 8;

/// A range of indices of which several seats draw chunks. Contracts see it as a `RowState`.
#[derive(Drop)]
pub struct ChunkRow {
    table: Table<(), View, RowShape, Drawing, Global>,
    shape: RowShape,
}

impl Model for ChunkRow {
    ghost use Rattle.std.specs.Prelude.{◌≡◌};
    ghost use Rattle.grain_tasks.specs.Rows.{IsShape, RowState};

    ghost Value = { RowState };

    ghost view = { λ row. record { id = row.table.shared.table_id; shape = row.shape } };

    ghost invariant = { λ row. (row.table.shared.table_id.words ≡ 16) × (row.table.shared.key ≡ row.shape) × IsShape row.shape };
}

/// A seat that draws chunks of a row. It has no bytes.
#[derive(Drop)]
pub struct Draw {
    seat: Seat<(), View>,
}

impl Model for Draw {
    ghost use Rattle.std.specs.Prelude.{◌≡◌, []};
    ghost use Rattle.grain_tasks.specs.Rows.{DrawState, draw_state};

    ghost Value = { DrawState };

    ghost view = { λ d. draw_state (record { id = d.seat.table_id; shape = d.seat.me.0.shape }) d.seat.me.0.drawn d.seat.me.0.reached };

    ghost invariant = { λ d. (d.seat.me.0.seats ≡ 1) × (d.seat.me.0.late ≡ 0) × (d.seat.me.1 ≡ []) };
}

/// What seats drew that found the row drawn. It has no bytes.
#[derive(Drop)]
pub struct Drained {
    seat: Seat<(), View>,
}

impl Model for Drained {
    ghost use Rattle.std.specs.Prelude.{◌≡◌, ◌<◌, []};
    ghost use Rattle.grain_tasks.specs.Rows.{DrainedState};

    ghost Value = { DrainedState };

    ghost view = { λ d. record { row = record { id = d.seat.table_id; shape = d.seat.me.0.shape }; seats = d.seat.me.0.seats; drawn = d.seat.me.0.drawn } };

    ghost invariant = { λ d. (0 < d.seat.me.0.late) × (d.seat.me.1 ≡ []) };
}

/// A row, and a draw for each of its seats.
#[derive(Drop)]
pub struct RowParts {
    pub row: ChunkRow,
    pub draws: Vec<Draw>,
}

/// What a draw comes to.
#[derive(Drop)]
pub enum Drawn {
    /// A chunk.
    Chunk(Draw, Chunk),
    /// The row was drawn.
    Empty(Drained),
}

impl ChunkRow {
    ghost use Rattle.grain_tasks.specs.Draws.{DrawsFrom};

    /// A row of so many indices, of which so many seats draw chunks of `grain` indices each. There is a draw for
    /// each seat.
    pub fn new(alloc: Global, count: u64, grain: u64, seats: u32) -> Result<RowParts, GrainError>
        requires few { count ≤ 1099511627776 }
        requires small { grain ≤ 1000000 }
        requires seats { 1 ≤ seats }
        requires few_seats { seats ≤ 16 }
        ensures shape { IfOk result (λ parts. parts.row.shape ≡ row_shape count grain seats) }
        ensures draws { IfOk result
            (λ parts. parts.draws.items ≡ replicate seats (draw_state parts.row [] 0)) }
        ensures taken { OnOk result (1 ≤ grain) }
        ensures refused { IfErr result (RefusesRow grain) }
    {
        if grain == 0 {
            return Err(GrainError::ZeroGrain);
        }
        let shape = RowShape {
            count,
            grain,
            seats: seats as u64,
        };
        let (table, seat) = Table::of_words(alloc, &[0; WORDS], &shape)?;
        let row = ChunkRow { table, shape };
        let draws = row.cut_seats(alloc, seat)?;
        Ok(RowParts { row, draws })
    }

    // The draws of all seats, cut off the one that stands for them.
    fn cut_seats(&self, alloc: Global, mut seat: Seat<(), View>) -> Result<Vec<Draw>, NoMemory>
        requires table { seat.table_id ≡ self.now.id }
        requires view { seat.me ≡ (first_view self.now.shape, []) }
        ensures { IfOk result
            (λ draws. draws.items ≡ replicate self.now.shape.seats (draw_state self.now [] 0)) }
    {
        let mut draws = Vec::new(alloc);
        for _cut in 0..self.shape.seats - 1 {
            let next = self.table.shared.split_seat::<CutsSeat>(&mut seat);
            draws.push(Draw { seat: next })?;
        }
        draws.push(Draw { seat })?;
        Ok(draws)
    }

    /// Draws a chunk: the indices from the number that is drawn, up to so many as a chunk has. It is one atomic
    /// addition, and takes no memory.
    pub fn draw(&self, draw: Draw) -> Drawn
        requires { draw.row ≡ self.now }
        ensures { DrawsFrom draw result }
    {
        let Draw { mut seat } = draw;
        let shared = &self.table.shared;
        let from = shared.fetch_add::<DrawsNumber>(&mut seat, WORD, self.shape.grain);
        if from < self.shape.count {
            let to = from + self.shape.grain.min(self.shape.count - from);
            Drawn::Chunk(Draw { seat }, Chunk { from, to })
        } else {
            shared.load::<LearnsAll>(&mut seat, WORD);
            Drawn::Empty(Drained { seat })
        }
    }

    /// Puts together what seats drew.
    pub fn gather(&self, a: Drained, b: Drained) -> Drained
        requires first { a.row ≡ self.now }
        requires second { b.row ≡ self.now }
        ensures { GathersBoth a b result }
    {
        let Drained { mut seat } = a;
        let Drained { seat: other } = b;
        let shared = &self.table.shared;
        shared.join_seat::<PutsTogether>(&mut seat, other);
        shared.load::<LearnsAll>(&mut seat, WORD);
        Drained { seat }
    }
}
