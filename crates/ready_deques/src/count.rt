// The count word of a list, and the spare counts of its owners.
ghost use Rattle.std.specs.Prelude.{◌≡◌, ◌≢◌, ◌+◌, ◌-◌, ◌*◌, ◌<◌, [], IfOk, IsTrue, IsFalse};
ghost use Rattle.ready_deques.specs.declared.count.TheConstants.{WORDS};
ghost use Rattle.ready_deques.specs.Limits.{max_workers};
ghost use Rattle.ready_deques.specs.inside.Counts.{counting, seen, account_state, with_count, with_counts, without_count, count_alone, drawn, half_kept, half_given, IsSpare};

use atomic_table::{Play, Seat, Split, Table, TableRule};
use outside_io::NoMemory;
use std::alloc::Global;
use std::marker::Model;
use std::sync::Wait;

/// The greatest number of workers of a list. So many owners have a word for spare counts.
pub const MAX_WORKERS: usize = 16;

// The words of the table. One word of each line is used, the one in the middle, so that no other data is on its cache
// line: first the count word, then the spare counts of each owner.
const WORDS: usize = 272;

// How many words a line has here: twice those of a cache line, since processors fetch cache lines in pairs.
const LINE: usize = 16;

const WORD: usize = 8;

// How much room there is at first. Below this number the word may be raised without room, too.
const ROOM: u64 = 1 << 62;

/// What a seat knows: the counts that it holds, how often it read 0, and how many counts it may still add. No value
/// of it is made.
pub struct Counting {
    pub count: u64,
    pub zeros: u64,
    pub room: u64,
}

/// The count word is the number of counts that the seats hold and of those that are spare, and room bounds it.
pub struct Counted;

impl TableRule<(), Counting, ()> for Counted {
    ghost use Rattle.ready_deques.specs.inside.Counts.{HoldsCounts, counting};

    ghost holds = { λ _ s. HoldsCounts s.words s.views };

    ghost first = { λ _. counting 0 0 4611686018427387904 };
}

/// A new seat holds no count and has no room.
pub struct BeginsEmpty;

impl Play<(), Counting> for BeginsEmpty {
    ghost use Rattle.ready_deques.specs.inside.Counts.{EntersIt};

    ghost then = { EntersIt };
}

/// If the word is as it was seen, it is one more, and so are the seat's counts.
pub struct Raises;

impl Play<(), Counting> for Raises {
    ghost use Rattle.ready_deques.specs.inside.Counts.{RaisesIt};

    ghost then = { RaisesIt };
}

/// The word and the seat's counts are one more, and its room is one less.
pub struct Draws;

impl Play<(), Counting> for Draws {
    ghost use Rattle.ready_deques.specs.inside.Counts.{DrawsIt};

    ghost then = { DrawsIt };
}

/// The word and the seat's counts are less by the same number.
pub struct Lowers;

impl Play<(), Counting> for Lowers {
    ghost use Rattle.ready_deques.specs.inside.Counts.{LowersIt};

    ghost then = { LowersIt };
}

/// The seat has one count less, and there is one more to spare.
pub struct Keeps;

impl Play<(), Counting> for Keeps {
    ghost use Rattle.ready_deques.specs.inside.Counts.{KeepsCount};

    ghost then = { KeepsCount };
}

/// If there are as many counts to spare as were seen, there is one less, and the seat has one more.
pub struct Spends;

impl Play<(), Counting> for Spends {
    ghost use Rattle.ready_deques.specs.inside.Counts.{RaisesIt};

    ghost then = { RaisesIt };
}

/// The seat has all counts that there were to spare.
pub struct GathersSpares;

impl Play<(), Counting> for GathersSpares {
    ghost use Rattle.ready_deques.specs.inside.Counts.{GathersIt};

    ghost then = { GathersIt };
}

/// A load that finds 0 is counted.
pub struct Sees;

impl Play<(), Counting> for Sees {
    ghost use Rattle.ready_deques.specs.inside.Counts.{SeesIt};

    ghost then = { SeesIt };
}

/// The counts go to a seat of their own.
pub struct HandsCountsOn;

impl Split<Counting> for HandsCountsOn {
    ghost use Rattle.ready_deques.specs.inside.Counts.{without_count, count_alone};

    ghost left = { without_count };

    ghost right = { count_alone };
}

/// Half of the room goes to another seat.
pub struct Halves;

impl Split<Counting> for Halves {
    ghost use Rattle.ready_deques.specs.inside.Counts.{half_kept, half_given};

    ghost left = { half_kept };

    ghost right = { half_given };
}

/// A seat without a count, with its room, and the word of its owner's spare counts.
#[derive(Drop)]
pub struct Account {
    seat: Seat<(), Counting>,
    room: u64,
    spare: usize,
}

impl Model for Account {
    ghost use Rattle.std.specs.Prelude.{◌≡◌, []};
    ghost use Rattle.ready_deques.specs.inside.Counts.{counting, AccountState, account_state, IsSpare};

    ghost Value = { AccountState };

    ghost view = { λ a. account_state a.seat.table_id a.seat.me.0.zeros };

    ghost invariant = { λ a. (a.seat.me ≡ (counting 0 a.seat.me.0.zeros a.room, []))
        × IsSpare a.spare };
}

/// The table of the count word and of the spare counts.
#[derive(Drop)]
pub struct Counter {
    pub table: Table<(), Counting, (), Counted, Global>,
    ghost words: { table.shared.table_id.words ≡ WORDS },
}

// Where the spare counts of the owner with this number are.
fn spare_word(number: usize) -> usize
    requires { number < max_workers }
    ensures { IsSpare result }
{
    WORD + LINE * (number + 1)
}

impl Counter {
    /// A word that is 0, no spare counts, and an account with all room.
    #[tactic(auto, using(crate::proofs::Counting::begins))]
    pub fn new(alloc: Global) -> Result<(Counter, Account), NoMemory>
        ensures { IfOk result (λ made. made.1 ≡ account_state made.0.table.shared.table_id 0) }
    {
        let (table, seat) = Table::of_words(alloc, &[0; WORDS], &())?;
        let account = Account {
            seat,
            room: ROOM,
            spare: spare_word(0),
        };
        Ok((Counter { table }, account))
    }

    /// The account of the owner with this number, with half of another's room.
    pub fn open(&self, from: &mut Account, number: usize) -> Account
        requires account { from.old.counts ≡ self.now.table.shared.table_id }
        requires number { number < max_workers }
        ensures from { from.new ≡ from.old }
        ensures opened { result ≡ account_state self.now.table.shared.table_id 0 }
    {
        let half = from.room / 2;
        let seat = self.split_room(&mut from.seat);
        from.room -= half;
        Account {
            seat,
            room: half,
            spare: spare_word(number),
        }
    }

    /// A seat that holds one count: one that the owner has to spare, else a new one. While the account has room a new
    /// one is made by a sum, which room keeps from wrapping.
    pub fn count<R: Wait>(&self, rt: &R, account: &mut Account) -> Seat<(), Counting>
        requires { account.old.counts ≡ self.now.table.shared.table_id }
        ensures account { account.new ≡ account.old }
        ensures table { result.table_id ≡ self.now.table.shared.table_id }
        ensures view { result.me ≡ (counting 1 0 0, []) }
    {
        if self.spend(&mut account.seat, account.spare) {
            return self.hand_over(&mut account.seat);
        }
        if account.room == 0 {
            return self.raise(rt);
        }
        account.room -= 1;
        self.draw(&mut account.seat);
        self.hand_over(&mut account.seat)
    }

    /// A seat that holds one count. The word is raised by a compare-exchange, from a number that is far from
    /// wrapping.
    pub fn raise<R: Wait>(&self, rt: &R) -> Seat<(), Counting>
        ensures table { result.table_id ≡ self.now.table.shared.table_id }
        ensures view { result.me ≡ (counting 1 0 0, []) }
    {
        let shared = &self.table.shared;
        let mut seat = self.enter();
        for _ in rt.forever() {
            let found = shared.peek(WORD);
            if found < ROOM
                && shared.compare_exchange::<Raises>(&mut seat, WORD, found, found + 1) == found
            {
                return seat;
            }
        }
        unreachable!()
    }

    // Takes the seat's counts, so many, out of the word.
    fn lower_by(&self, seat: &mut Seat<(), Counting>, count: u64)
        requires table { seat.old.table_id ≡ self.now.table.shared.table_id }
        requires count { seat.old.me.0.count ≡ count }
        ensures table { seat.new.table_id ≡ seat.old.table_id }
        ensures view { seat.new.me ≡ (without_count seat.old.me.0, seat.old.me.1) }
    {
        self.table.shared.fetch_sub::<Lowers>(seat, WORD, count);
    }

    /// Takes a seat's count out of the word.
    pub fn lower(&self, mut seat: Seat<(), Counting>)
        requires table { seat.table_id ≡ self.now.table.shared.table_id }
        requires view { seat.me ≡ (counting 1 0 0, []) }
    {
        self.lower_by(&mut seat, 1);
    }

    /// Adds a seat's count to those that the account's owner has to spare.
    pub fn keep(&self, account: &Account, mut seat: Seat<(), Counting>)
        requires table { seat.table_id ≡ self.now.table.shared.table_id }
        requires view { seat.me ≡ (counting 1 0 0, []) }
    {
        self.table
            .shared
            .fetch_add::<Keeps>(&mut seat, account.spare, 1);
    }

    /// Takes the spare counts of all owners out of the count word.
    pub fn gather(&self, account: &mut Account)
        requires { account.old.counts ≡ self.now.table.shared.table_id }
        ensures { account.new ≡ account.old }
    {
        for number in 0..MAX_WORKERS {
            self.gather_from(account, spare_word(number));
        }
    }

    /// Whether the word is 0 at a step of this call. The account counts it if so.
    pub fn finds_zero(&self, account: &mut Account) -> bool
        requires { account.old.counts ≡ self.now.table.shared.table_id }
        ensures counts { account.new.counts ≡ account.old.counts }
        ensures zero { IsTrue result → account.new.zeros ≡ account.old.zeros + 1 }
        ensures more { IsFalse result → account.new.zeros ≡ account.old.zeros }
    {
        self.load(&mut account.seat) == 0
    }

    /// Whether the word is 0 now, which is of no use to a proof.
    pub fn is_zero(&self) -> bool {
        self.table.shared.peek(WORD) == 0
    }

    fn enter(&self) -> Seat<(), Counting>
        ensures table { result.table_id ≡ self.now.table.shared.table_id }
        ensures view { result.me ≡ (counting 0 0 0, []) }
    {
        self.table.shared.load_new_seat::<BeginsEmpty>(WORD).1
    }

    fn load(&self, seat: &mut Seat<(), Counting>) -> u64
        requires table { seat.old.table_id ≡ self.now.table.shared.table_id }
        ensures table { seat.new.table_id ≡ seat.old.table_id }
        ensures view { seat.new.me ≡ (seen result seat.old.me.0, seat.old.me.1) }
    {
        self.table.shared.load::<Sees>(seat, WORD)
    }

    fn split_room(&self, seat: &mut Seat<(), Counting>) -> Seat<(), Counting>
        requires table { seat.old.table_id ≡ self.now.table.shared.table_id }
        ensures table { (seat.new.table_id ≡ seat.old.table_id)
            × (result.table_id ≡ seat.old.table_id) }
        ensures kept { seat.new.me ≡ (half_kept seat.old.me.0, seat.old.me.1) }
        ensures given { result.me ≡ (half_given seat.old.me.0, []) }
    {
        self.table.shared.split_seat::<Halves>(seat)
    }

    // Raises the word by a sum, for one of the seat's room.
    fn draw(&self, seat: &mut Seat<(), Counting>)
        requires table { seat.old.table_id ≡ self.now.table.shared.table_id }
        requires room { 0 < seat.old.me.0.room }
        ensures table { seat.new.table_id ≡ seat.old.table_id }
        ensures drawn { seat.new.me ≡ (drawn seat.old.me.0, seat.old.me.1) }
    {
        self.table.shared.fetch_add::<Draws>(seat, WORD, 1);
    }

    // Whether the seat now has one spare count more. It has none where there is none, or where another gathers them
    // meanwhile.
    fn spend(&self, seat: &mut Seat<(), Counting>, word: usize) -> bool
        requires table { seat.old.table_id ≡ self.now.table.shared.table_id }
        requires word { IsSpare word }
        ensures table { seat.new.table_id ≡ seat.old.table_id }
        ensures spent { IsTrue result → seat.new.me ≡ (with_count seat.old.me.0, seat.old.me.1) }
        ensures none { IsFalse result → seat.new.me ≡ seat.old.me }
    {
        let shared = &self.table.shared;
        let found = shared.peek(word);
        found != 0 && shared.compare_exchange::<Spends>(seat, word, found, found - 1) == found
    }

    // The seat's counts, as a seat of their own.
    fn hand_over(&self, seat: &mut Seat<(), Counting>) -> Seat<(), Counting>
        requires table { seat.old.table_id ≡ self.now.table.shared.table_id }
        ensures table { (seat.new.table_id ≡ seat.old.table_id)
            × (result.table_id ≡ seat.old.table_id) }
        ensures kept { seat.new.me ≡ (without_count seat.old.me.0, seat.old.me.1) }
        ensures given { result.me ≡ (count_alone seat.old.me.0, []) }
    {
        self.table.shared.split_seat::<HandsCountsOn>(seat)
    }

    // Takes one owner's spare counts out of the count word.
    fn gather_from(&self, account: &mut Account, word: usize)
        requires account { account.old.counts ≡ self.now.table.shared.table_id }
        requires word { IsSpare word }
        ensures { account.new ≡ account.old }
    {
        if self.table.shared.peek(word) != 0 {
            let gathered = self.empty(&mut account.seat, word);
            self.lower_by(&mut account.seat, gathered);
        }
    }

    // Gives the seat all spare counts of one owner, and answers how many.
    fn empty(&self, seat: &mut Seat<(), Counting>, word: usize) -> u64
        requires table { seat.old.table_id ≡ self.now.table.shared.table_id }
        requires word { IsSpare word }
        ensures table { seat.new.table_id ≡ seat.old.table_id }
        ensures view { seat.new.me ≡ (with_counts result seat.old.me.0, seat.old.me.1) }
    {
        self.table.shared.swap::<GathersSpares>(seat, word, 0)
    }
}
