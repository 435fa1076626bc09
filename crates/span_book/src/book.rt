// Books, tellers, and the spans of runs.
ghost use Rattle.std.specs.Prelude.{◌≡◌, ◌+◌, ◌-◌, ◌≤◌, [], IfOk, IsTrue};
ghost use Rattle.span_book.specs.declared.book.TheConstants.{WORDS};

use crate::view::{Agrees, Amount, Comes, ComesBack, Deals, Goes, Notes, Opens, Settles, SpanView};
use atomic_table::{Seat, Table};
use outside_io::NoMemory;
use std::alloc::Global;
use std::marker::{Brand, Model};

// The words of a book's table. None ever changes. Tellers and runs load the one in the middle, so that no other data
// is on its cache line.
const WORDS: usize = 16;

const WORD: usize = 8;

/// What ties tellers and runs.
#[derive(Drop)]
pub struct SpanBook {
    table: Table<(), SpanView, u64, Agrees, Global>,
    ghost words: { table.shared.table_id.words ≡ WORDS },
}

/// Who tells spans. It has no bytes.
#[derive(Drop)]
pub struct Teller {
    seat: Seat<(), SpanView>,
}

impl Model for Teller {
    ghost use Rattle.std.specs.Prelude.{◌≡◌, []};
    ghost use Rattle.span_book.specs.SpanBooks.{TellerState, teller_state};
    ghost use Rattle.span_book.specs.inside.SpanViews.{tellers_view};

    ghost Value = { TellerState };

    ghost view = { λ t. teller_state t.seat.table_id t.seat.me.0.told };

    ghost invariant = { λ t. t.seat.me ≡ (tellers_view 1 t.seat.me.0.told, []) };
}

/// What a run that goes on has noted. Only how many runs inside it were opened and came back are numbers with bytes.
#[derive(Drop)]
pub struct RunSpans {
    seat: Seat<(), SpanView>,
    // Each up to the greatest `u64`.
    opened: u64,
    back: u64,
}

impl Model for RunSpans {
    ghost use Rattle.std.specs.Prelude.{◌≡◌, []};
    ghost use Rattle.span_book.specs.SpanBooks.{SpansState, spans_state};
    ghost use Rattle.span_book.specs.inside.SpanViews.{capped, run_view};

    ghost Value = { SpansState };

    ghost view = { λ r. spans_state r.seat.table_id r.seat.me.0.depth r.seat.me.0.noted
        r.seat.me.0.opened r.seat.me.0.back };

    ghost invariant = { λ r. (r.seat.me
        ≡ (run_view r.seat.me.0.depth r.seat.me.0.noted r.seat.me.0.opened r.seat.me.0.back, []))
        × (r.opened ≡ capped r.seat.me.0.opened)
        × (r.back ≡ capped r.seat.me.0.back) };
}

/// An outermost run before it begins or after it is over, with tellers. It has no bytes.
#[derive(Drop)]
pub struct Tally {
    seat: Seat<(), SpanView>,
}

impl Model for Tally {
    ghost use Rattle.std.specs.Prelude.{◌≡◌, []};
    ghost use Rattle.span_book.specs.SpanBooks.{TallyState, tally_state};
    ghost use Rattle.span_book.specs.inside.SpanViews.{tally_view};

    ghost Value = { TallyState };

    ghost view = { λ t. tally_state t.seat.table_id t.seat.me.0.tellers t.seat.me.0.told
        t.seat.me.0.noted t.seat.me.0.opened };

    ghost invariant = { λ t. t.seat.me
        ≡ (
          tally_view t.seat.me.0.tellers t.seat.me.0.told t.seat.me.0.noted
              t.seat.me.0.opened,
          [],
        ) };
}

impl Tally {
    ghost use Rattle.span_book.specs.SpanBooks.{no_spans, tally_state};

    /// The outermost run begins, once all tellers are dealt.
    pub fn begin(self) -> RunSpans
        requires new { self ≡ tally_state self.book 0 0 0 0 }
        ensures { result ≡ no_spans self.book 0 }
    {
        let Tally { seat } = self;
        RunSpans {
            seat,
            opened: 0,
            back: 0,
        }
    }
}

impl RunSpans {
    ghost use Rattle.span_book.specs.SpanBooks.{tally_state};

    /// Whether each run that was opened inside it came back. It says no too where 2^64 - 1 runs and more were opened.
    pub fn has_all_back(&self) -> bool
        ensures { IsTrue result → self.now.back ≡ self.now.opened }
    {
        self.opened < u64::MAX && self.back == self.opened
    }

    /// The outermost run is over, which has back what was opened in it.
    pub fn end(self) -> Tally
        requires depth { self.depth ≡ 0 }
        requires all { self.back ≡ self.opened }
        ensures { result ≡ tally_state self.book 0 0 self.noted self.opened }
    {
        let RunSpans { seat, .. } = self;
        Tally { seat }
    }
}

impl SpanBook {
    ghost use Rattle.span_book.specs.SpanBooks.{all_tellers, name_of, no_spans, spans_state, tally_state, teller_state};
    ghost use Rattle.span_book.specs.inside.SpanViews.{IsSettled, IsTally, MayComeBack, nothing, one_teller, only_tellers, opened_inside, with_back, with_noted, with_opened, with_teller, without_one, without_tellers};

    /// A book with so many tellers, which are still to be dealt.
    pub fn new(alloc: Global, tellers: u64) -> Result<(SpanBook, Tally), NoMemory>
        ensures book { IfOk result (λ made. all_tellers made.0 ≡ tellers) }
        ensures tally { IfOk result (λ made. made.1 ≡ tally_state (name_of made.0) tellers 0 0 0) }
    {
        let (table, seat) = Table::of_words(alloc, &[0; WORDS], &tellers)?;
        Ok((SpanBook { table }, Tally { seat }))
    }

    /// Deals a teller.
    pub fn deal(&self, tally: &mut Tally) -> Teller
        requires book { tally.old.book ≡ name_of self.now }
        requires some { 1 ≤ tally.old.tellers }
        requires none { tally.old.told ≡ 0 }
        ensures tally { tally.new ≡ tally_state tally.old.book (tally.old.tellers - 1) 0
            tally.old.noted tally.old.opened }
        ensures teller { result ≡ teller_state tally.old.book 0 }
    {
        Teller {
            seat: self.split_teller(&mut tally.seat),
        }
    }

    /// Collects a teller.
    pub fn collect(&self, tally: &mut Tally, teller: Teller)
        requires book { (tally.old.book ≡ name_of self.now) × (teller.book ≡ name_of self.now) }
        ensures { tally.new ≡ tally_state tally.old.book (tally.old.tellers + 1)
            (tally.old.told + teller.told) tally.old.noted tally.old.opened }
    {
        let Teller { seat } = teller;
        self.join_tellers(&mut tally.seat, seat);
    }

    /// With all tellers, the outermost run, which has back what was opened in it, noted as many spans as they told.
    pub fn settle(&self, tally: &mut Tally)
        requires { tally.old.book ≡ name_of self.now }
        ensures same { tally.new ≡ tally.old }
        ensures even { tally.old.tellers ≡ all_tellers self.now → tally.old.told ≡ tally.old.noted }
    {
        self.compare::<Brand>(&mut tally.seat);
    }

    /// Notes spans that a teller told, as the keeper of a run takes them in.
    pub fn note(&self, spans: &mut RunSpans, teller: &mut Teller, count: u64)
        requires book { (spans.old.book ≡ name_of self.now)
            × (teller.old.book ≡ name_of self.now) }
        ensures spans { spans.new ≡ spans_state spans.old.book spans.old.depth
            (spans.old.noted + count) spans.old.opened spans.old.back }
        ensures teller { teller.new ≡ teller_state teller.old.book (teller.old.told + count) }
    {
        let guest = self.split_tellers(&mut teller.seat);
        self.join_tellers(&mut spans.seat, guest);
        self.add::<Brand>(&mut spans.seat, count);
        let guest = self.split_tellers(&mut spans.seat);
        self.join_tellers(&mut teller.seat, guest);
    }

    /// Opens a run inside another.
    pub fn open(&self, around: &mut RunSpans) -> RunSpans
        requires { around.old.book ≡ name_of self.now }
        ensures around { around.new ≡ spans_state around.old.book around.old.depth
            around.old.noted (around.old.opened + 1) around.old.back }
        ensures inner { result ≡ no_spans around.old.book (1 + around.old.depth) }
    {
        around.opened = around.opened.saturating_add(1);
        RunSpans {
            seat: self.split_run(&mut around.seat),
            opened: 0,
            back: 0,
        }
    }

    /// Takes a run back, which has back what was opened in it, into one at the depth around it.
    pub fn take_back(&self, around: &mut RunSpans, inner: RunSpans)
        requires book { (around.old.book ≡ name_of self.now) × (inner.book ≡ name_of self.now) }
        requires depth { inner.depth ≡ 1 + around.old.depth }
        requires all { inner.back ≡ inner.opened }
        ensures { around.new ≡ spans_state around.old.book around.old.depth
            (around.old.noted + inner.noted) around.old.opened (around.old.back + 1) }
    {
        let RunSpans { seat, .. } = inner;
        self.join_run(&mut around.seat, seat);
        around.back = around.back.saturating_add(1);
    }

    fn split_teller(&self, seat: &mut Seat<(), SpanView>) -> Seat<(), SpanView>
        requires table { seat.old.table_id ≡ self.now.table.shared.table_id }
        requires some { 1 ≤ seat.old.me.0.tellers }
        requires none { seat.old.me.0.told ≡ 0 }
        ensures table { (seat.new.table_id ≡ seat.old.table_id)
            × (result.table_id ≡ seat.old.table_id) }
        ensures left { seat.new.me ≡ (without_one seat.old.me.0, seat.old.me.1) }
        ensures right { result.me ≡ (one_teller, []) }
    {
        self.table.shared.split_seat::<Deals>(seat)
    }

    fn split_tellers(&self, seat: &mut Seat<(), SpanView>) -> Seat<(), SpanView>
        requires table { seat.old.table_id ≡ self.now.table.shared.table_id }
        ensures table { (seat.new.table_id ≡ seat.old.table_id)
            × (result.table_id ≡ seat.old.table_id) }
        ensures left { seat.new.me ≡ (without_tellers seat.old.me.0, seat.old.me.1) }
        ensures right { result.me ≡ (only_tellers seat.old.me.0, []) }
    {
        self.table.shared.split_seat::<Goes>(seat)
    }

    fn join_tellers(&self, seat: &mut Seat<(), SpanView>, other: Seat<(), SpanView>)
        requires table { (seat.old.table_id ≡ self.now.table.shared.table_id)
            × (other.table_id ≡ self.now.table.shared.table_id) }
        requires tellers { other.me ≡ (only_tellers other.me.0, []) }
        ensures table { seat.new.table_id ≡ seat.old.table_id }
        ensures both { seat.new.me ≡ (with_teller seat.old.me.0 other.me.0, seat.old.me.1) }
    {
        self.table.shared.join_seat::<Comes>(seat, other);
    }

    fn split_run(&self, seat: &mut Seat<(), SpanView>) -> Seat<(), SpanView>
        requires table { seat.old.table_id ≡ self.now.table.shared.table_id }
        requires run { seat.old.me.0.runs ≡ 1 }
        ensures table { (seat.new.table_id ≡ seat.old.table_id)
            × (result.table_id ≡ seat.old.table_id) }
        ensures left { seat.new.me ≡ (with_opened seat.old.me.0, seat.old.me.1) }
        ensures right { result.me ≡ (opened_inside seat.old.me.0, []) }
    {
        self.table.shared.split_seat::<Opens>(seat)
    }

    fn join_run(&self, seat: &mut Seat<(), SpanView>, other: Seat<(), SpanView>)
        requires table { (seat.old.table_id ≡ self.now.table.shared.table_id)
            × (other.table_id ≡ self.now.table.shared.table_id) }
        requires home { other.me.1 ≡ [] }
        requires may { MayComeBack seat.old.me.0 other.me.0 }
        ensures table { seat.new.table_id ≡ seat.old.table_id }
        ensures both { seat.new.me ≡ (with_back seat.old.me.0 other.me.0, seat.old.me.1) }
    {
        self.table.shared.join_seat::<ComesBack>(seat, other);
    }

    fn add<A: Amount>(&self, seat: &mut Seat<(), SpanView>, count: u64)
        requires count { A.count ≡ count }
        requires table { seat.old.table_id ≡ self.now.table.shared.table_id }
        requires teller { 1 ≤ seat.old.me.0.tellers }
        requires run { 1 ≤ seat.old.me.0.runs }
        ensures table { seat.new.table_id ≡ seat.old.table_id }
        ensures noted { seat.new.me ≡ (with_noted count seat.old.me.0, seat.old.me.1) }
    {
        self.table.shared.load::<Notes<A>>(seat, WORD);
    }

    fn compare<A: Amount>(&self, seat: &mut Seat<(), SpanView>)
        requires count { A.count ≡ self.now.table.shared.key }
        requires table { seat.old.table_id ≡ self.now.table.shared.table_id }
        requires tally { IsTally seat.old.me.0 }
        ensures table { seat.new.table_id ≡ seat.old.table_id }
        ensures same { seat.new.me ≡ seat.old.me }
        ensures settled { IsSettled self.now.table.shared.key seat.old.me.0 }
    {
        self.table.shared.load::<Settles<A>>(seat, WORD);
    }
}
