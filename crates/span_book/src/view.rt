// What the seats of a book know, its rule, and what its steps tell.
ghost use Rattle.std.specs.Prelude.{ℕ};

use atomic_table::{Join, Play, Split, TableRule};
use std::marker::{Brand, PhantomData};

/// What a seat knows. No value of it is made.
pub struct SpanView {
    /// The tellers, and the spans that they told.
    pub tellers: u64,
    pub told: u64,
    /// The runs, one or none, and the depth at which it is.
    pub runs: u64,
    pub depth: u64,
    /// The spans that the run's keeper took in, and the runs inside it that were opened and that came back.
    pub noted: u64,
    pub opened: u64,
    pub back: u64,
}

/// The totals over all views agree.
pub struct Agrees;

impl TableRule<(), SpanView, u64> for Agrees {
    ghost use Rattle.span_book.specs.inside.SpanViews.{KeepsBook, first_view};

    ghost holds = { λ tellers s. KeepsBook tellers s.views };

    ghost first = { first_view };
}

/// A number that a step depends on.
pub trait Amount {
    ghost count: { ℕ };
}

impl Amount for Brand {
    ghost count = { 0 };
}

/// A teller leaves a tally.
pub struct Deals;

impl Split<SpanView> for Deals {
    ghost use Rattle.span_book.specs.inside.SpanViews.{one_teller, without_one};

    ghost left = { without_one };

    ghost right = { λ _. one_teller };
}

/// A run is opened inside another.
pub struct Opens;

impl Split<SpanView> for Opens {
    ghost use Rattle.span_book.specs.inside.SpanViews.{opened_inside, with_opened};

    ghost left = { with_opened };

    ghost right = { opened_inside };
}

/// A run comes back to the one around it.
pub struct ComesBack;

impl Join<SpanView> for ComesBack {
    ghost use Rattle.span_book.specs.inside.SpanViews.{nothing, with_back};

    ghost both = { with_back };

    ghost spent = { nothing };
}

/// A teller comes to a run.
pub struct Comes;

impl Join<SpanView> for Comes {
    ghost use Rattle.span_book.specs.inside.SpanViews.{nothing, with_teller};

    ghost both = { with_teller };

    ghost spent = { nothing };
}

/// The tellers leave a run.
pub struct Goes;

impl Split<SpanView> for Goes {
    ghost use Rattle.span_book.specs.inside.SpanViews.{only_tellers, without_tellers};

    ghost left = { without_tellers };

    ghost right = { only_tellers };
}

/// A run notes spans that the teller with it told.
pub struct Notes<A> {
    told: PhantomData<A>,
}

impl<A: Amount> Play<(), SpanView> for Notes<A> {
    ghost use Rattle.std.specs.Prelude.{◌≡◌};
    ghost use Rattle.span_book.specs.inside.SpanViews.{with_noted};

    ghost then = { λ _ me n me'. me' ≡ (with_noted A.count me.0, me.1) };
}

/// The outermost run, with all tellers, noted what they told.
pub struct Settles<A> {
    told: PhantomData<A>,
}

impl<A: Amount> Play<(), SpanView> for Settles<A> {
    ghost use Rattle.std.specs.Prelude.{◌≡◌};
    ghost use Rattle.span_book.specs.inside.SpanViews.{IsSettled};

    ghost then = { λ _ me n me'. (me' ≡ me) × IsSettled A.count me.0 };
}
