// How the order in which tokens pass is found.
ghost use Rattle.std.specs.Prelude.{◌≡◌, ◌+◌, ◌<◌, ◌≤◌, ◌++◌, ◌∷◌, [], ℕ, List, Some, filter, length, nat_lt, slice_set, true, if◌then◌else◌, IfOk, OnOk};
ghost use Rattle.pipe_lines.specs.DeferRows.{token_limit};
ghost use Rattle.pipe_lines.specs.PassOrder.{has_passed, is_free, least_left, next_new, next_token, pass_order};
ghost use Rattle.pipe_lines.specs.inside.Waiting.{AreWaits, rows_of, tokens_of};
ghost use Rattle.pipe_lines.specs.inside.Walks.{AreMarks, IsWalk, is_waiting};

use crate::waits::Waits;
use outside_io::{List, NoMemory};
use std::alloc::Global;

/// The tokens that have passed so far, and what decides which one is next.
#[derive(Drop)]
pub(crate) struct Walk {
    passed: List<u64>,
    // Of each token whether it has passed.
    marks: Vec<bool>,
    // Each token below this one has passed or waits.
    looked: u64,
    // The tokens that waited and were freed, in the order in which they pass, and how many of them have passed.
    freed: List<u64>,
    resumed: usize,
}

/// Lets all tokens pass that ever do. It takes time in proportion to the tokens and their targets.
pub(crate) fn pass_all(alloc: Global, waits: &Waits) -> Result<Walk, NoMemory>
    requires waits { AreWaits waits.now }
    requires tokens { tokens_of waits.now ≤ token_limit }
    ensures passed { IfOk result
        (λ walk. walk.passed ≡ pass_order (tokens_of waits.now) (rows_of waits.now)) }
    ensures marks { IfOk result
        (λ walk. AreMarks (tokens_of waits.now) walk.passed walk.marks.items) }
    ensures few { IfOk result (λ walk. length walk.passed ≤ tokens_of waits.now) }
{
    let mut walk = Walk::new(alloc, waits)?;
    for _place in 0..waits.tokens() {
        match walk.next(waits) {
            None => return Ok(walk),
            Some(token) => walk.pass(alloc, waits, token)?,
        }
    }
    Ok(walk)
}

impl Walk {
    // No token has passed.
    fn new(alloc: Global, waits: &Waits) -> Result<Walk, NoMemory>
        requires waits { AreWaits waits.now }
        ensures walk { IfOk result (IsWalk waits.now) }
        ensures none { IfOk result (λ walk. walk.passed ≡ []) }
    {
        Ok(Walk {
            passed: List::new(alloc),
            marks: vec![in alloc; false; waits.tokens() as usize]?,
            looked: 0,
            freed: List::new(alloc),
            resumed: 0,
        })
    }

    // The token that passes next, if one does.
    fn next(&self, waits: &Waits) -> Option<u64>
        requires waits { AreWaits waits.now }
        requires walk { IsWalk waits.now self.now }
        ensures { result ≡ next_token (tokens_of waits.now) (rows_of waits.now) self.now.passed }
    {
        match self.freed.get(self.resumed) {
            Some(token) => Some(*token),
            None => self.next_new(waits),
        }
    }

    // The least new token that is free.
    fn next_new(&self, waits: &Waits) -> Option<u64>
        requires waits { AreWaits waits.now }
        requires walk { IsWalk waits.now self.now }
        ensures { result ≡ next_new (tokens_of waits.now) (rows_of waits.now) self.now.passed }
    {
        for token in self.looked..waits.tokens() {
            if self.is_free(waits, token) {
                return Some(token);
            }
        }
        None
    }

    // Lets the next token pass.
    fn pass(&mut self, alloc: Global, waits: &Waits, token: u64) -> Result<(), NoMemory>
        requires waits { AreWaits waits.now }
        requires tokens { tokens_of waits.now ≤ token_limit }
        requires walk { IsWalk waits.now self.old }
        requires next { next_token (tokens_of waits.now) (rows_of waits.now) self.old.passed
            ≡ Some token }
        ensures passed { OnOk result (self.new.passed ≡ self.old.passed ++ token ∷ []) }
        ensures walk { OnOk result (IsWalk waits.now self.new) }
    {
        self.note(token)?;
        let freed = self.newly_freed(alloc, waits, waits.waiters(token))?;
        self.freed.add_all(freed.as_slice())?;
        Ok(())
    }

    // Notes that a token passes: the first that was freed and hasn't passed, or a new one where there is none.
    fn note(&mut self, token: u64) -> Result<(), NoMemory>
        requires token { token < length self.old.marks.items }
        requires few { token < token_limit }
        ensures passed { OnOk result (self.new.passed ≡ self.old.passed ++ token ∷ []) }
        ensures marks { OnOk result
            (self.new.marks.items ≡ slice_set self.old.marks.items token true) }
        ensures freed { OnOk result (self.new.freed ≡ self.old.freed) }
        ensures resumed { OnOk result (self.new.resumed
            ≡ (if nat_lt self.old.resumed (length self.old.freed) then self.old.resumed + 1
            else self.old.resumed)) }
        ensures looked { OnOk result (self.new.looked
            ≡ (if nat_lt self.old.resumed (length self.old.freed) then self.old.looked
            else token + 1)) }
    {
        self.passed.push(token)?;
        self.marks[token as usize] = true;
        if self.resumed < self.freed.len() {
            self.resumed += 1;
        } else {
            self.looked = token + 1;
        }
        Ok(())
    }

    // Those of these tokens that wait and are free.
    fn newly_freed(
        &self,
        alloc: Global,
        waits: &Waits,
        waiters: &[u64],
    ) -> Result<List<u64>, NoMemory>
        requires waits { AreWaits waits.now }
        requires marks { AreMarks (tokens_of waits.now) self.now.passed self.now.marks.items }
        requires looked { self.now.looked ≤ tokens_of waits.now }
        ensures { IfOk result (λ freed. freed
            ≡ filter (is_waiting (rows_of waits.now) self.now.passed self.now.looked) waiters.now) }
    {
        let mut freed = List::new(alloc);
        for waiter in waiters {
            if self.is_waiting(waits, *waiter) {
                freed.push(*waiter)?;
            }
        }
        Ok(freed)
    }

    // Whether a token was looked at, has not passed, and is free.
    fn is_waiting(&self, waits: &Waits, token: u64) -> bool
        requires waits { AreWaits waits.now }
        requires marks { AreMarks (tokens_of waits.now) self.now.passed self.now.marks.items }
        requires looked { self.now.looked ≤ tokens_of waits.now }
        ensures { result ≡ is_waiting (rows_of waits.now) self.now.passed self.now.looked token }
    {
        token < self.looked && !self.has_passed(token) && self.is_free(waits, token)
    }

    // Whether all targets of a token have passed.
    fn is_free(&self, waits: &Waits, token: u64) -> bool
        requires waits { AreWaits waits.now }
        requires marks { AreMarks (tokens_of waits.now) self.now.passed self.now.marks.items }
        requires token { token < tokens_of waits.now }
        ensures { result ≡ is_free (rows_of waits.now) self.now.passed token }
    {
        waits
            .targets(token)
            .iter()
            .all(|&target| self.has_passed(target))
    }

    // Whether a token has passed.
    fn has_passed(&self, token: u64) -> bool
        requires { AreMarks (length self.now.marks.items) self.now.passed self.now.marks.items }
        ensures { result ≡ has_passed self.now.passed token }
    {
        match self.marks.get(token as usize) {
            Some(mark) => *mark,
            None => false,
        }
    }

    /// The tokens that have passed, with the least that hasn't.
    pub(crate) fn into_parts(self) -> (List<u64>, Option<u64>)
        requires { AreMarks (length self.marks.items) self.passed self.marks.items }
        ensures passed { result.0 ≡ self.passed }
        ensures left { result.1 ≡ least_left (length self.marks.items) self.passed }
    {
        let left = first_unmarked(self.marks.as_slice());
        let Walk { passed, .. } = self;
        (passed, left)
    }
}

// The least token that has not passed, by these marks.
fn first_unmarked(marks: &[bool]) -> Option<u64>
    ensures { (passed : List ℕ) → AreMarks (length marks.now) passed marks.now
        → result ≡ least_left (length marks.now) passed }
{
    for token in 0..marks.len() {
        if !marks[token] {
            return Some(token as u64);
        }
    }
    None
}
