// The books of a desk: who asked for what, whose turn it is, and what is outstanding.
ghost use Rattle.std.specs.Prelude.{◌≡◌, ◌+◌, ◌*◌, ◌≤◌, ◌<◌, ◌++◌, ◌∷◌, [], ℕ, Some, None, Option, length, IfOk, IfNone, IfSome, OnOk, OnErr, replicate, slice_get, slice_set, vec_capacity, if◌then◌else◌};
ghost use Rattle.desk_book.specs.declared.entry.DeskEntry.TheVariants.{Asked};
ghost use Rattle.desk_book.specs.declared.entry.Ask.{Ask as AskOf};
ghost use Rattle.desk_book.specs.declared.turn.Turn.TheVariants.{Waiting};
ghost use Rattle.desk_book.specs.Histories.{AskRule, IsDeskHistory, IsFirstUnended, IsOldestWaiting, IsOver, NoneMayBeTaken, NoneWaits, asks_of, ask_limit, turn_of};
ghost use Rattle.desk_book.specs.Books.{BookHistory, NothingOut, book_history, caller_of, with_entry, with_items};
ghost use Rattle.desk_book.specs.Taking.{HasSeen, IsFreshPass, IsPassFor, entries_seen};
ghost use Rattle.desk_book.specs.Changes.{EndsTaken, TakesFirst};
ghost use Rattle.desk_book.specs.inside.Looks.{IsIdle};

use crate::entry::{Ask, DeskEntry};
use crate::looks::{first_after, first_unended, first_waiting, is_over, last_of, least};
use crate::outstanding::Outstanding;
use crate::taken::Taken;
use crate::turn::Turn;
use outside_io::NoMemory;
use std::alloc::Global;
use std::marker::Model;
use std::snapshot::Snapshot;
use tickets::{Book, Register, Ticket};

/// The books of a desk between two calls. Contracts see them as a `BookHistory`.
#[derive(Drop)]
pub struct DeskBook {
    graphs: u32,
    callers: u32,
    history: Vec<DeskEntry>,
    asks: Vec<Ask>,
    turns: Vec<Turn>,
    // For each graph the ask whose turn has come, if there is one.
    next: Vec<Option<u64>>,
    // All asks with lesser numbers were taken.
    oldest: usize,
    book: Book<Outstanding>,
}

impl Model for DeskBook {
    ghost use Rattle.std.specs.Prelude.{vec_capacity};
    ghost use Rattle.desk_book.specs.Books.{BookHistory, book_history};

    ghost Value = { BookHistory };

    ghost use Rattle.desk_book.specs.inside.Keeps.{KeepsTickets, KeepsTurns};

    ghost view = { λ b. book_history b.book.register b.graphs b.callers b.history.items
        b.book.items };

    ghost invariant = { λ b. KeepsTurns b.graphs b.callers (vec_capacity b.history)
        b.history.items b.asks.items b.turns.items b.next.items b.oldest
        × KeepsTickets b.history.items b.book.items };
}

impl DeskBook {
    /// The books of a desk where nobody has asked.
    pub fn new(
        alloc: Global,
        graphs: u32,
        callers: u32,
        book: Book<Outstanding>,
    ) -> Result<DeskBook, NoMemory>
        requires { book.items ≡ [] }
        ensures { IfOk result (λ made. made ≡ book_history book.register graphs callers [] []) }
    {
        let next = none_next(alloc, graphs)?;
        Ok(DeskBook {
            graphs,
            callers,
            history: Vec::new(alloc),
            asks: Vec::new(alloc),
            turns: Vec::new(alloc),
            next,
            oldest: 0,
            book,
        })
    }

    /// Appends an ask. The memory for what is to come of it is taken here. After an `Err` the books are as they were.
    pub fn ask_in(&mut self, ask: Ask) -> Result<(), NoMemory>
        requires ask { AskRule self.old.graphs self.old.callers self.old.history ask }
        requires pass { NothingOut (caller_of ask.caller) self.old.items }
        ensures ok { OnOk result (self.new ≡ with_entry self.old (Asked ask)) }
        ensures waits { OnOk result (turn_of self.old.history ask.number ≡ Waiting) }
        ensures err { OnErr result (self.new ≡ self.old) }
    {
        make_room(&mut self.history, &mut self.asks, &mut self.turns)?;
        let idle = is_idle(&self.asks, &self.turns, ask.graph);
        self.history.push_reserved(DeskEntry::Asked(ask));
        self.asks.push_reserved(ask);
        self.turns.push_reserved(Turn::Waiting);
        set_next_if(&mut self.next, ask.graph, idle, ask.number);
        Ok(())
    }

    /// Takes the first ask that may be taken: asks of busy graphs are passed over. `None` exactly where there is none.
    /// It takes no memory.
    pub fn take_in(&mut self, register: &Register<Outstanding>) -> Option<Taken>
        requires register { self.old.register ≡ register.now }
        ensures items { length self.old.items ≤ length self.new.items }
        ensures passes { (c : ℕ) → NothingOut (caller_of c) self.old.items
            → NothingOut (caller_of c) self.new.items }
        ensures taken { IfSome result (TakesFirst self.old self.new) }
        ensures none { IfNone result ((self.new ≡ self.old) × NoneMayBeTaken self.old.history) }
    {
        let Some(number) = least(&self.next) else {
            return None;
        };
        let ask = self.asks[number as usize];
        self.history.push_reserved(DeskEntry::Took(number));
        set_turn(&mut self.turns, number, Turn::Open);
        set_next(&mut self.next, ask.graph, None);
        let ticket = register.issue(&mut self.book, Outstanding::Running { ask });
        Some(Taken { ticket, ask })
    }

    /// Ends an ask that was taken. It takes no memory.
    pub fn end_in(&mut self, register: &Register<Outstanding>, taken: Taken, whole: bool)
        requires register { self.old.register ≡ register.now }
        requires taken { taken.register ≡ register.now }
        ensures { EndsTaken self.old taken whole self.new }
    {
        let Taken { ticket, ask } = taken;
        register.redeem(&mut self.book, ticket);
        let following = first_after(&self.asks, ask.graph, ask.number as usize);
        self.history
            .push_reserved(DeskEntry::Ended(ask.number, whole));
        set_turn(&mut self.turns, ask.number, Turn::Over(whole));
        set_next(&mut self.next, ask.graph, following);
    }
}

impl DeskBook {
    /// How many asks there are.
    pub fn ask_count(&self) -> u64
        ensures count { result ≡ length (asks_of self.now.history) }
        ensures few { result ≤ ask_limit }
    {
        self.asks.len() as u64
    }

    /// The oldest ask that nobody has taken.
    pub fn oldest_waiting(&mut self) -> Option<u64>
        ensures same { self.new ≡ self.old }
        ensures some { IfSome result (IsOldestWaiting self.old.history) }
        ensures none { IfNone result (NoneWaits self.old.history) }
    {
        self.oldest = first_waiting(&self.turns, self.oldest);
        if self.oldest == self.turns.len() {
            return None;
        }
        Some(self.oldest as u64)
    }

    /// The first ask that has not ended.
    pub fn first_unended(&self) -> Option<u64>
        ensures some { IfSome result (IsFirstUnended self.now.history) }
        ensures none { IfNone result ((n : ℕ) → n < length (asks_of self.now.history)
            → IsOver (turn_of self.now.history n)) }
    {
        let first = first_unended(&self.turns);
        if first == self.turns.len() {
            return None;
        }
        Some(first as u64)
    }

    /// The history. It is a right one.
    pub fn into_history(self) -> Vec<DeskEntry>
        ensures history { result.items ≡ self.history }
        ensures right { IsDeskHistory self.graphs self.callers self.history }
        ensures callers { (n : ℕ) (ask : AskOf) → slice_get (asks_of self.history) n ≡ Some ask
            → ask.caller < self.callers }
    {
        let DeskBook { history, .. } = self;
        history
    }
}

impl DeskBook {
    /// Takes a pass's ticket back, and learns that what it has seen is a prefix of the history, with all asks of its
    /// caller.
    pub fn close_pass(
        &mut self,
        register: &Register<Outstanding>,
        ticket: Ticket<Outstanding>,
        caller: u32,
    )
        requires register { self.old.register ≡ register.now }
        requires ticket { ticket.register ≡ register.now }
        requires caller { IsPassFor caller ticket.item }
        ensures book { self.new ≡ with_items self.old self.new.items }
        ensures none { NothingOut (caller_of caller) self.new.items }
        ensures seen { HasSeen self.old.history caller (entries_seen ticket.item) }
        ensures number { ticket.number < length self.new.items }
    {
        let _ = caller;
        register.redeem(&mut self.book, ticket);
    }

    /// A ticket for the pass of a caller, which has seen all entries.
    pub fn open_pass(
        &mut self,
        register: &Register<Outstanding>,
        caller: u32,
    ) -> Ticket<Outstanding>
        requires register { self.old.register ≡ register.now }
        requires none { NothingOut (caller_of caller) self.old.items }
        ensures book { self.new ≡ with_items self.old self.new.items }
        ensures ticket { IsFreshPass self.old caller result }
        ensures others { (c : ℕ) → NothingOut (caller_of c) self.old.items → (c ≡ caller → ⊥)
            → NothingOut (caller_of c) self.new.items }
    {
        let seen = Outstanding::Pass {
            caller,
            seen: Snapshot::of(&self.history),
        };
        register.issue(&mut self.book, seen)
    }
}

// No ask's turn has come, for so many graphs.
fn none_next(alloc: Global, graphs: u32) -> Result<Vec<Option<u64>>, NoMemory>
    ensures { IfOk result (λ next. next.items ≡ replicate graphs None) }
{
    let mut next = Vec::new(alloc);
    next.resize(graphs as usize, None)?;
    Ok(next)
}

// Whether each ask of a graph has ended.
fn is_idle(asks: &[Ask], turns: &[Turn], graph: u32) -> bool
    ensures { IsIdle asks.now turns.now graph result }
{
    match last_of(asks, graph) {
        Some(n) => is_over(turns, n),
        None => true,
    }
}

// Takes the memory for one ask more, and for what is to come of it and of those before it.
fn make_room(
    history: &mut Vec<DeskEntry>,
    asks: &mut Vec<Ask>,
    turns: &mut Vec<Turn>,
) -> Result<(), NoMemory>
    requires few { length asks.old.items ≤ ask_limit }
    requires entries { length history.old.items ≤ 3 * length asks.old.items }
    ensures same { (history.new.items ≡ history.old.items) × (asks.new.items ≡ asks.old.items)
        × (turns.new.items ≡ turns.old.items) }
    ensures kept { vec_capacity history.old ≤ vec_capacity history.new }
    ensures history { OnOk result (3 * length asks.old.items + 3 ≤ vec_capacity history.new) }
    ensures asks { OnOk result (length asks.new.items < vec_capacity asks.new) }
    ensures turns { OnOk result (length turns.new.items < vec_capacity turns.new) }
{
    asks.reserve(1)?;
    turns.reserve(1)?;
    history.reserve(3 * asks.len() + 3 - history.len())?;
    Ok(())
}

// Writes down how far an ask is.
fn set_turn(turns: &mut Vec<Turn>, n: u64, turn: Turn)
    ensures { turns.new.items ≡ slice_set turns.old.items n turn }
{
    if let Some(at) = turns.get_mut(n as usize) {
        *at = turn;
    }
}

// Writes down which ask of a graph has its turn.
fn set_next(next: &mut Vec<Option<u64>>, graph: u32, ask: Option<u64>)
    ensures { next.new.items ≡ slice_set next.old.items graph ask }
{
    if let Some(at) = next.get_mut(graph as usize) {
        *at = ask;
    }
}

// Does so, or leaves it as it is.
fn set_next_if(next: &mut Vec<Option<u64>>, graph: u32, is_set: bool, ask: u64)
    ensures { next.new.items
        ≡ (if is_set then slice_set next.old.items graph (Some ask) else next.old.items) }
{
    if is_set {
        set_next(next, graph, Some(ask));
    }
}
