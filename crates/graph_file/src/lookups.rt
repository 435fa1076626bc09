// The places of names.
ghost use Rattle.std.specs.Prelude.{◌≡◌, [], true, IfOk, OnOk, None, is_none, map};
ghost use Rattle.graph_file.specs.PlanText.{number_among, with_text};
ghost use Rattle.graph_file.specs.inside.Lookups.{HasPlaces, IsIndex, KeepsPlace, OccurOnce, place_in};
ghost use Rattle.graph_drafts.specs.inside.Reading.{strings};

use graph_drafts::{Draft, FileTask};
use outside_io::{List, NoMemory};
use std::alloc::Global;
use std::collections::HashMap;

/// The places of names in a list.
pub(crate) type Places<'n> = HashMap<&'n [u8], usize>;

/// The first places of these names.
pub(crate) fn places_of<'n>(alloc: Global, names: &[&'n str]) -> Result<Places<'n>, NoMemory>
    ensures { IfOk result (λ places. HasPlaces places (strings names.now)) }
{
    let (places, _) = places_and_once(alloc, names)?;
    Ok(places)
}

/// The same, and whether each name occurs once.
pub(crate) fn places_and_once<'n>(
    alloc: Global,
    names: &[&'n str],
) -> Result<(Places<'n>, bool), NoMemory>
    ensures places { IfOk result (λ found. HasPlaces found.0 (strings names.now)) }
    ensures once { IfOk result (λ found. found.1 ≡ true → OccurOnce (strings names.now)) }
{
    let mut places = HashMap::with_capacity(alloc, names.len())?;
    let mut once = true;
    for (place, name) in names.iter().enumerate() {
        let new = keep_place(&mut places, name.as_bytes(), place)?;
        once = once & new;
    }
    Ok((places, once))
}

/// Names, and the first place of each.
#[derive(Drop)]
pub(crate) struct Index<'n> {
    pub names: List<&'n str>,
    pub places: Places<'n>,
}

/// The index of these names.
pub(crate) fn index_of<'n>(alloc: Global, names: List<&'n str>) -> Result<Index<'n>, NoMemory>
    ensures index { IfOk result IsIndex }
    ensures names { IfOk result (λ index. strings index.names ≡ strings names.entry) }
{
    let places = places_of(alloc, names.as_slice())?;
    Ok(Index { names, places })
}

/// The number of a name in the index, or of the place behind its names.
pub(crate) fn number_among(index: &Index<'_>, name: &str) -> usize
    requires { IsIndex index.now }
    ensures { result ≡ number_among (strings index.now.names) name.now }
{
    match index.places.get(name.as_bytes()) {
        Some(number) => *number,
        None => index.names.len(),
    }
}

/// The names of these tasks.
pub(crate) fn names_of_tasks<'v>(
    alloc: Global,
    tasks: &[FileTask<'v>],
) -> Result<List<&'v str>, NoMemory>
    ensures { IfOk result (λ names. strings names ≡ map (λ task. task.names.name.now) tasks.now) }
{
    let mut names = List::with_room(alloc, tasks.len())?;
    for task in tasks {
        names.push(task.names.name)?;
    }
    Ok(names)
}

/// The names of these graphs.
pub(crate) fn names_of_graphs<'v>(
    alloc: Global,
    drafts: &[Draft<'v>],
) -> Result<List<&'v str>, NoMemory>
    ensures { IfOk result (λ names. strings names ≡ map (λ draft. draft.name.now) drafts.now) }
{
    let mut names = List::with_room(alloc, drafts.len())?;
    for draft in drafts {
        names.push(draft.name)?;
    }
    Ok(names)
}

/// Keeps a name's first place, and says whether this is the first one.
pub(crate) fn keep_place<'n>(
    places: &mut Places<'n>,
    name: &'n [u8],
    place: usize,
) -> Result<bool, NoMemory>
    ensures new { IfOk result (λ new. new ≡ is_none (place_in places.old name.now)) }
    ensures kept { OnOk result (KeepsPlace places.old name.now place places.new) }
{
    let Some(first) = places.insert(name, place)? else {
        return Ok(true);
    };
    places.insert(name, first)?;
    Ok(false)
}

/// Puts a name at the end of those of an index, unless it is among them.
pub(crate) fn mention<'n>(index: &mut Index<'n>, name: &'n str) -> Result<(), NoMemory>
    requires { IsIndex index.old }
    ensures index { OnOk result (IsIndex index.new) }
    ensures names { OnOk result (strings index.new.names
        ≡ with_text (strings index.old.names) name.now) }
{
    if index.places.contains_key(name.as_bytes()) {
        return Ok(());
    }
    put_place(&mut index.places, name.as_bytes(), index.names.len())?;
    index.names.push(name)?;
    Ok(())
}

// Puts a name's place into the map, which has none for it.
fn put_place<'n>(places: &mut Places<'n>, name: &'n [u8], place: usize) -> Result<(), NoMemory>
    requires { place_in places.old name.now ≡ None }
    ensures { OnOk result (KeepsPlace places.old name.now place places.new) }
{
    places.insert(name, place)?;
    Ok(())
}
