// The fields of the objects in a graph file.
ghost use Rattle.std.specs.Prelude.{◌≡◌, [], ◌++◌, codes, map, option_and_then, option_map, string_bytes, ok_or, Some};
ghost use Rattle.std.specs.Option.{option_map_or};
ghost use Rattle.std.specs.BTreeMap.{keys};
ghost use Rattle.std.specs.List.{find, list_any};
ghost use Rattle.std.specs.Str.{bytes_eq};
ghost use Rattle.serde_json.specs.Find.{as_str, get};
ghost use Rattle.json_values.specs.inside.View.{view};
ghost use Rattle.graph_drafts.specs.Contents.{each, line_count_of, list_of, name_of, name_list_of, objects_of, part_size_of, text_name_of, whole_of, word_of, words_of};
ghost use Rattle.graph_drafts.specs.Fields.{allowed, is_unknown, needed, only, unknown};
ghost use Rattle.graph_drafts.specs.inside.Reading.{Leads, Reads, ReadsAs, put_each, strings};
ghost use Rattle.graph_drafts.specs.Steps.{walk};

use crate::bad_fields::bad_field;
use crate::contents::{list_of, name_of, objects_of, text_name_of, whole_of, word_of};
use crate::refusals::GraphError;
use graph_plans::Spot;
use json_values::Value;
use outside_io::{Bytes, List};
use std::alloc::Global;

const MAX_LINES: u64 = 1_000_000_000;

const MAX_WORDS: usize = 256;

/// The name of a task, a semaphore or a module.
pub(crate) fn read_name<'v>(
    alloc: Global,
    spot: Spot,
    object: &Value<'v>,
) -> Result<&'v str, GraphError>
    ensures { ReadsAs (λ s. s.now) result
        (needed name_of spot (codes "name") (view object.now)) }
{
    let Some(name) = object.get("name").and_then(name_of) else {
        return Err(bad_field(alloc, spot, "name"));
    };
    Ok(name)
}

/// The objects in the list that a field holds, if it holds one.
pub(crate) fn objects_in<'o, 'v>(object: &'o Value<'v>, field: &str) -> Option<&'o [Value<'v>]>
    ensures { option_map (λ items. map view items.now) result
        ≡ option_and_then objects_of (get field.now (view object.now)) }
{
    let list = object.get(field)?;
    objects_of(list)
}

/// The same of a field that may be missing, which is then an empty list.
pub(crate) fn some_objects_in<'o, 'v>(object: &'o Value<'v>, field: &str) -> Option<&'o [Value<'v>]>
    ensures { option_map (λ items. map view items.now) result
        ≡ option_map_or objects_of (get field.now (view object.now)) (Some []) }
{
    let Some(list) = object.get(field) else {
        return Some(<&[Value<'v>]>::default());
    };
    objects_of(list)
}

/// The names in a list, which may be missing and is then empty.
pub(crate) fn read_names<'v>(
    alloc: Global,
    spot: Spot,
    field: &str,
    object: &Value<'v>,
) -> Result<List<&'v str>, GraphError>
    ensures { ReadsAs strings result
        (allowed [] name_list_of spot field.now (view object.now)) }
{
    let Some(list) = object.get(field) else {
        return Ok(List::new(alloc));
    };
    let Some(items) = list_of(list) else {
        return Err(bad_field(alloc, spot, field));
    };
    listed_names(alloc, spot, field, items)
}

fn listed_names<'v>(
    alloc: Global,
    spot: Spot,
    field: &str,
    items: &[Value<'v>],
) -> Result<List<&'v str>, GraphError>
    ensures { ReadsAs strings result (walk
        (put_each name_of (λ name. name) (GraphError.BadField spot field.now)) []
        (map view items.now)) }
{
    let mut names = List::with_room(alloc, items.len())?;
    for item in items {
        read_listed(alloc, spot, field, item, &mut names)?;
    }
    Ok(names)
}

fn read_listed<'v>(
    alloc: Global,
    spot: Spot,
    field: &str,
    item: &Value<'v>,
    names: &mut List<&'v str>,
) -> Result<(), GraphError>
    ensures { Leads result (strings names.new)
        (put_each name_of (λ name. name) (GraphError.BadField spot field.now)
        (strings names.old) (view item.now)) }
{
    let Some(name) = name_of(item) else {
        return Err(bad_field(alloc, spot, field));
    };
    names.push(name)?;
    Ok(())
}

/// The name of the text that an operation reads.
pub(crate) fn read_text_name<'v>(
    alloc: Global,
    spot: Spot,
    object: &Value<'v>,
) -> Result<&'v str, GraphError>
    ensures { ReadsAs (λ s. s.now) result
        (needed text_name_of spot (codes "text") (view object.now)) }
{
    let Some(text) = object.get("text").and_then(text_name_of) else {
        return Err(bad_field(alloc, spot, "text"));
    };
    Ok(text)
}

/// The word of an operation.
pub(crate) fn read_word(alloc: Global, spot: Spot, object: &Value<'_>) -> Result<Bytes, GraphError>
    ensures { Reads result (needed word_of spot (codes "word") (view object.now)) }
{
    let Some(word) = object.get("word").and_then(word_of) else {
        return Err(bad_field(alloc, spot, "word"));
    };
    Ok(Bytes::from_slice(alloc, word.as_bytes())?)
}

/// The name of the module that an operation runs.
pub(crate) fn read_module_name<'v>(
    alloc: Global,
    spot: Spot,
    object: &Value<'v>,
) -> Result<&'v str, GraphError>
    ensures { ReadsAs (λ s. s.now) result
        (needed as_str spot (codes "module") (view object.now)) }
{
    let Some(name) = string_in(object, "module") else {
        return Err(bad_field(alloc, spot, "module"));
    };
    Ok(name)
}

// The string of a field, if it holds one.
fn string_in<'v>(object: &Value<'v>, field: &str) -> Option<&'v str>
    ensures { option_map (λ s. s.now) result
        ≡ option_and_then as_str (get field.now (view object.now)) }
{
    object.get(field)?.as_str()
}

/// The number of lines in each part that an operation makes.
pub(crate) fn read_part_lines(
    alloc: Global,
    spot: Spot,
    object: &Value<'_>,
) -> Result<u64, GraphError>
    ensures { Reads result (needed part_size_of spot (codes "n") (view object.now)) }
{
    let Some(lines) = object.get("n").and_then(part_size_of) else {
        return Err(bad_field(alloc, spot, "n"));
    };
    Ok(lines)
}

/// A number of lines in a part.
pub(crate) fn part_size_of(value: &Value<'_>) -> Option<u64>
    ensures { result ≡ part_size_of (view value.now) }
{
    whole_of(value, 1, MAX_LINES)
}

/// The number of lines that an operation names.
pub(crate) fn read_lines(alloc: Global, spot: Spot, object: &Value<'_>) -> Result<u64, GraphError>
    ensures { Reads result (needed line_count_of spot (codes "n") (view object.now)) }
{
    let Some(lines) = object.get("n").and_then(line_count_of) else {
        return Err(bad_field(alloc, spot, "n"));
    };
    Ok(lines)
}

fn line_count_of(value: &Value<'_>) -> Option<u64>
    ensures { result ≡ line_count_of (view value.now) }
{
    whole_of(value, 0, MAX_LINES)
}

// The items of a field, if it holds a list.
fn list_in<'o, 'v>(object: &'o Value<'v>, field: &str) -> Option<&'o [Value<'v>]>
    ensures { option_map (λ items. map view items.now) result
        ≡ option_and_then list_of (get field.now (view object.now)) }
{
    let list = object.get(field)?;
    list_of(list)
}

/// The words of an operation.
pub(crate) fn read_words(
    alloc: Global,
    spot: Spot,
    object: &Value<'_>,
) -> Result<List<Bytes>, GraphError>
    ensures { Reads result (needed words_of spot (codes "words") (view object.now)) }
{
    let Some(words) = list_in(object, "words") else {
        return Err(bad_field(alloc, spot, "words"));
    };
    if words.len() > MAX_WORDS {
        return Err(bad_field(alloc, spot, "words"));
    }
    copied_words(alloc, spot, words)
}

fn copied_words(alloc: Global, spot: Spot, words: &[Value<'_>]) -> Result<List<Bytes>, GraphError>
    ensures { Reads result (walk
        (put_each word_of (λ word. word) (GraphError.BadField spot (codes "words"))) []
        (map view words.now)) }
{
    let mut copies = List::new(alloc);
    for word in words {
        copy_word(alloc, spot, word, &mut copies)?;
    }
    Ok(copies)
}

fn copy_word(
    alloc: Global,
    spot: Spot,
    word: &Value<'_>,
    copies: &mut List<Bytes>,
) -> Result<(), GraphError>
    ensures { Leads result copies.new
        (put_each word_of (λ word. word) (GraphError.BadField spot (codes "words")) copies.old
        (view word.now)) }
{
    let Some(word) = word_of(word) else {
        return Err(bad_field(alloc, spot, "words"));
    };
    copies.push(Bytes::from_slice(alloc, word.as_bytes())?)?;
    Ok(())
}
