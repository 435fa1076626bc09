// A journal with the values of its Ends, made of the fates of all turns.
ghost use Rattle.std.specs.Prelude.{◌≡◌, ◌<◌, ◌++◌, ◌∷◌, [], None, IfOk, IfSome, OnOk, length, map, replicate, reverse};
ghost use Rattle.std.specs.List.{AllByRecursion};
ghost use Rattle.join_tables.specs.Keeping.{entries_of, entries_told};
ghost use Rattle.join_tables.specs.declared.fates.Fate.TheVariants.{Ended, Faulted};
ghost use Rattle.join_tables.specs.inside.Merging.{all_rows, drop_row, fate_rows, placed, value_if, IsFinishedOf};

use crate::entry_row::EntryRow;
use crate::fates::{Dropping, Failure, Fate};
use crate::keeper::{FinishedRun, RecordedValue};
use crate::turns::EndedStart;
use journal_rules::Entry;
use outside_io::{List, NoMemory};
use std::alloc::Global;

/// The journal that has each entry of these fates at its place, and the values of its Ends.
pub fn merged<V: Drop>(alloc: Global, fates: Vec<Fate<V>>) -> Result<FinishedRun<V>, NoMemory>
    requires { AllByRecursion (λ r. r.place < length (entries_told fates.items))
        (entries_told fates.items) }
    ensures { IfOk result (IsFinishedOf
        (placed (all_rows fates.items) (replicate (length (entries_told fates.items)) None))) }
{
    let Some(count) = count_entries(&fates) else {
        return Err(NoMemory);
    };
    let mut places = empty_places(alloc, count)?;
    put_all(&mut places, fates);
    finished(alloc, places)
}

// How many entries there are, if a `usize` can say it.
fn count_entries<V>(fates: &Vec<Fate<V>>) -> Option<usize>
    ensures { IfSome result (λ count. count ≡ length (entries_told fates.now.items)) }
{
    let mut count: usize = 0;
    for fate in fates {
        count = count.checked_add(entry_count(fate))?;
    }
    Some(count)
}

// How many entries a turn that is done has.
fn entry_count<V>(fate: &Fate<V>) -> usize
    ensures { result ≡ length (entries_of fate.now) }
{
    match fate {
        Fate::Ended(_) | Fate::Faulted(_) => 2,
        Fate::Dropped(_) => 1,
        Fate::AllDropped(drops) => drops.len(),
    }
}

// So many places without an entry.
fn empty_places<V: Drop>(alloc: Global, count: usize) -> Result<Vec<Option<EntryRow<V>>>, NoMemory>
    ensures { IfOk result (λ places. places.items ≡ replicate count None) }
{
    let mut places = Vec::with_capacity(alloc, count)?;
    for _ in 0..count {
        places.push_reserved(None);
    }
    Ok(places)
}

// Puts the entries of all fates at their places.
fn put_all<V: Drop>(places: &mut Vec<Option<EntryRow<V>>>, fates: Vec<Fate<V>>)
    requires { AllByRecursion (λ f. f.0 < length places.old.items) (all_rows fates.items) }
    ensures { places.new.items ≡ placed (all_rows fates.items) places.old.items }
{
    for fate in fates {
        put(places, fate);
    }
}

// Puts the entries of a fate at their places.
fn put<V: Drop>(places: &mut Vec<Option<EntryRow<V>>>, fate: Fate<V>)
    requires { AllByRecursion (λ f. f.0 < length places.old.items) (fate_rows fate) }
    ensures { places.new.items ≡ placed (fate_rows fate) places.old.items }
{
    match fate {
        Fate::Ended(ended) => put_ended(places, ended),
        Fate::Faulted(failure) => put_failure(places, failure),
        Fate::Dropped(dropping) => put_drop(places, dropping),
        Fate::AllDropped(drops) => put_drops(places, drops),
    }
}

// Puts the entries of a start that ended at their places.
fn put_ended<V: Drop>(places: &mut Vec<Option<EntryRow<V>>>, ended: EndedStart<V>)
    requires { AllByRecursion (λ f. f.0 < length places.old.items) (fate_rows (Ended ended)) }
    ensures { places.new.items ≡ placed (fate_rows (Ended ended)) places.old.items }
{
    let EndedStart {
        task,
        cause,
        start,
        found,
        value,
        place,
        gives,
        inner,
    } = ended;
    let entry = Entry::Start {
        task,
        cause,
        ins: found.parts,
    };
    places[start as usize] = Some(EntryRow { entry, value: None });
    let entry = Entry::End {
        start,
        gives,
        inner,
    };
    places[place as usize] = Some(EntryRow {
        entry,
        value: Some(value),
    });
}

// Puts the entries of a start that faulted at their places.
fn put_failure<V: Drop>(places: &mut Vec<Option<EntryRow<V>>>, failure: Failure<V>)
    requires { AllByRecursion (λ f. f.0 < length places.old.items) (fate_rows (Faulted failure)) }
    ensures { places.new.items ≡ placed (fate_rows (Faulted failure)) places.old.items }
{
    let Failure {
        task,
        cause,
        start,
        found,
        place,
        why,
    } = failure;
    let entry = Entry::Start {
        task,
        cause,
        ins: found.parts,
    };
    places[start as usize] = Some(EntryRow { entry, value: None });
    let entry = Entry::Fault { start, why };
    places[place as usize] = Some(EntryRow { entry, value: None });
}

// Puts the entry of a Drop at its place.
fn put_drop<V: Drop>(places: &mut Vec<Option<EntryRow<V>>>, dropping: Dropping)
    requires { dropping.place < length places.old.items }
    ensures { places.new.items ≡ placed (drop_row dropping ∷ []) places.old.items }
{
    let Dropping {
        task,
        cause,
        place,
        why,
    } = dropping;
    let entry = Entry::Drop { task, cause, why };
    places[place as usize] = Some(EntryRow { entry, value: None });
}

// Puts the entries of Drops at their places, the newest first.
fn put_drops<V: Drop>(places: &mut Vec<Option<EntryRow<V>>>, mut drops: Vec<Dropping>)
    requires { AllByRecursion (λ f. f.0 < length places.old.items)
        (map (drop_row {V = V}) (reverse drops.items)) }
    ensures { places.new.items ≡ placed (map drop_row (reverse drops.items)) places.old.items }
{
    while let Some(dropping) = drops.pop() {
        put_drop(places, dropping);
    }
}

// The entries that are there, in the order of their places, with the values of the Ends.
fn finished<V: Drop>(
    alloc: Global,
    places: Vec<Option<EntryRow<V>>>,
) -> Result<FinishedRun<V>, NoMemory>
    ensures { IfOk result (IsFinishedOf places.items) }
{
    let mut run = FinishedRun {
        journal: List::with_room(alloc, places.len())?,
        values: Vec::new(alloc),
    };
    for row in places {
        if let Some(row) = row {
            add_entry(&mut run, row)?;
        }
    }
    Ok(run)
}

// Adds an entry, with its value.
fn add_entry<V: Drop>(run: &mut FinishedRun<V>, row: EntryRow<V>) -> Result<(), NoMemory>
    ensures journal { OnOk result (run.new.journal ≡ run.old.journal ++ row.entry ∷ []) }
    ensures values { OnOk result
        (run.new.values.items
        ≡ run.old.values.items ++ value_if (length run.old.journal) row.value) }
{
    let EntryRow { entry, value } = row;
    let place = run.journal.len() as u64;
    run.journal.push(entry)?;
    if let Some(value) = value {
        run.values.push(RecordedValue { place, value })?;
    }
    Ok(())
}
