// Which tokens wait for which.
ghost use Rattle.std.specs.Prelude.{◌≡◌, ◌<◌, ◌==◌, [], ℕ, None, Some, length, slice_index_or, replicate, if◌then◌else◌, IfOk, OnOk};
ghost use Rattle.std.specs.List.{list_any};
ghost use Rattle.pipe_lines.specs.DeferRows.{AreApart};
ghost use Rattle.pipe_lines.specs.PassOrder.{targets};
ghost use Rattle.pipe_lines.specs.inside.Waiting.{ArePlaces, AreWaiters, AreWaits, GainsWaiter, rows_of, tokens_of, waiters};

use crate::deferral::DeferRow;
use outside_io::{List, NoMemory};
use std::alloc::Global;

/// The targets of each token, and the tokens that wait for it.
#[derive(Drop)]
pub(crate) struct Waits<'a> {
    rows: &'a [DeferRow],
    // Of each token the index of its row, if it has one.
    places: Vec<Option<usize>>,
    // Of each token those that wait for it, by rising number and each once.
    waiters: Vec<List<u64>>,
}

impl<'a> Waits<'a> {
    /// Those of so many tokens, of which these are deferred. It takes time in proportion to tokens and rows.
    pub(crate) fn new(
        alloc: Global,
        tokens: u64,
        rows: &'a [DeferRow],
    ) -> Result<Waits<'a>, NoMemory>
        requires apart { AreApart rows.now }
        ensures rows { IfOk result (λ waits. rows_of waits ≡ rows.now) }
        ensures tokens { IfOk result (λ waits. tokens_of waits ≡ tokens) }
        ensures waits { IfOk result AreWaits }
    {
        let places = places_of(alloc, tokens, rows)?;
        let waiters = waiters_of(alloc, tokens, rows, places.as_slice())?;
        Ok(Waits {
            rows,
            places,
            waiters,
        })
    }

    /// How many tokens there are.
    pub(crate) fn tokens(&self) -> u64
        ensures { result ≡ tokens_of self.now }
    {
        self.places.len() as u64
    }

    /// The targets of a token.
    pub(crate) fn targets(&self, token: u64) -> &[u64]
        requires waits { AreWaits self.now }
        requires token { token < tokens_of self.now }
        ensures { result.now ≡ targets (rows_of self.now) token }
    {
        targets_of(self.rows, self.places.as_slice(), token)
    }

    /// The tokens that wait for one, by rising number.
    pub(crate) fn waiters(&self, token: u64) -> &[u64]
        requires waits { AreWaits self.now }
        requires token { token < tokens_of self.now }
        ensures { result.now ≡ waiters (rows_of self.now) (tokens_of self.now) token }
    {
        self.waiters[token as usize].as_slice()
    }
}

// Of each of so many tokens the index of its row, if it has one.
fn places_of(alloc: Global, tokens: u64, rows: &[DeferRow]) -> Result<Vec<Option<usize>>, NoMemory>
    ensures { IfOk result (λ places. ArePlaces tokens rows.now (length rows.now) places.items) }
{
    let mut places = vec![in alloc; None; tokens as usize]?;
    for (place, row) in rows.iter().enumerate() {
        note_row(&mut places, row.token, place);
    }
    Ok(places)
}

// Notes the index of a token's row, if it is a token that comes.
fn note_row(places: &mut Vec<Option<usize>>, token: u64, place: usize)
    ensures len { length places.new.items ≡ length places.old.items }
    ensures each { (t : ℕ) → t < length places.old.items →
        slice_index_or places.new.items t None
        ≡ (if token == t then Some place else slice_index_or places.old.items t None) }
{
    if let Some(noted) = places.get_mut(token as usize) {
        *noted = Some(place);
    }
}

// The targets of a token.
fn targets_of<'a>(rows: &'a [DeferRow], places: &[Option<usize>], token: u64) -> &'a [u64]
    requires apart { AreApart rows.now }
    requires places { ArePlaces (length places.now) rows.now (length rows.now) places.now }
    requires token { token < length places.now }
    ensures { result.now ≡ targets rows.now token }
{
    match places[token as usize] {
        Some(place) => rows[place].to.as_slice(),
        None => &[],
    }
}

// Of each of so many tokens those that wait for it.
fn waiters_of(
    alloc: Global,
    tokens: u64,
    rows: &[DeferRow],
    places: &[Option<usize>],
) -> Result<Vec<List<u64>>, NoMemory>
    requires apart { AreApart rows.now }
    requires places { ArePlaces tokens rows.now (length rows.now) places.now }
    ensures { IfOk result (λ waiters. AreWaiters tokens rows.now tokens waiters.items) }
{
    let mut waiters = no_waiters(alloc, tokens)?;
    for token in 0..tokens {
        add_waiter(&mut waiters, token, targets_of(rows, places, token))?;
    }
    Ok(waiters)
}

// So many empty lists.
fn no_waiters(alloc: Global, tokens: u64) -> Result<Vec<List<u64>>, NoMemory>
    ensures { IfOk result (λ waiters. waiters.items ≡ replicate tokens []) }
{
    let mut waiters = Vec::with_capacity(alloc, tokens as usize)?;
    for _token in 0..tokens {
        waiters.push(List::new(alloc))?;
    }
    Ok(waiters)
}

// Adds a token to the waiters of each of its targets, once.
fn add_waiter(waiters: &mut Vec<List<u64>>, token: u64, targets: &[u64]) -> Result<(), NoMemory>
    ensures { OnOk result (GainsWaiter waiters.old.items waiters.new.items token
        (λ t. list_any (λ target. target == t) targets.now)) }
{
    for (place, target) in targets.iter().enumerate() {
        if !has_target(&targets[..place], *target) {
            add_to(waiters, *target, token)?;
        }
    }
    Ok(())
}

// Adds a token to the waiters of a target, if that is a token that comes.
fn add_to(waiters: &mut Vec<List<u64>>, target: u64, token: u64) -> Result<(), NoMemory>
    ensures { OnOk result
        (GainsWaiter waiters.old.items waiters.new.items token (λ t. target == t)) }
{
    if target < waiters.len() as u64 {
        waiters[target as usize].push(token)?;
    }
    Ok(())
}

// Whether this is one of these targets.
fn has_target(targets: &[u64], target: u64) -> bool
    ensures { result ≡ list_any (λ t. t == target) targets.now }
{
    targets.iter().any(|&other| other == target)
}
