// What the fields of a graph file may hold.
ghost use Rattle.std.specs.Prelude.{◌≡◌, map, option_map, option_and_then};
ghost use Rattle.std.specs.List.{list_all};
ghost use Rattle.serde_json.specs.Find.{get};
ghost use Rattle.json_values.specs.inside.View.{view};
ghost use Rattle.graph_drafts.specs.Contents.{is_name, is_name_byte, is_object, is_text, list_of, name_of, objects_of, text_name_of, whole_of, word_of};

use json_values::Value;

const MAX_NAME_LEN: usize = 64;

const MAX_WORD_LEN: usize = 4_096;

#[tactic(auto, unfolding(crate::specs::Contents::is_name_byte))]
fn is_name_byte(byte: u8) -> bool
    ensures { result ≡ is_name_byte byte }
{
    matches!(byte, b'A'..=b'Z' | b'a'..=b'z' | b'0'..=b'9' | b'_' | b'-' | b'.')
}

fn are_name_bytes(bytes: &[u8]) -> bool
    ensures { result ≡ list_all is_name_byte bytes.now }
{
    bytes.iter().all(|byte| is_name_byte(*byte))
}

fn is_name(text: &str) -> bool
    ensures { result ≡ is_name text.now }
{
    1 <= text.len() && text.len() <= MAX_NAME_LEN && are_name_bytes(text.as_bytes())
}

/// The string, if this is one and a name.
pub(crate) fn name_of<'v>(value: &Value<'v>) -> Option<&'v str>
    ensures { option_map (λ s. s.now) result ≡ name_of (view value.now) }
{
    let name = value.as_str()?;
    if is_name(name) { Some(name) } else { None }
}

// Whether a string has so many bytes.
#[tactic(auto, using(crate::proofs::ContentLemmas::text_is_utf8))]
fn is_text(text: &str, least: usize, most: usize) -> bool
    ensures { result ≡ is_text least most text.now }
{
    least <= text.len() && text.len() <= most
}

/// The string, if this is one and may name a text.
pub(crate) fn text_name_of<'v>(value: &Value<'v>) -> Option<&'v str>
    ensures { option_map (λ s. s.now) result ≡ text_name_of (view value.now) }
{
    let text = value.as_str()?;
    if is_text(text, 1, MAX_WORD_LEN) {
        Some(text)
    } else {
        None
    }
}

/// The string, if this is one and a word.
pub(crate) fn word_of<'v>(value: &Value<'v>) -> Option<&'v str>
    ensures { option_map (λ s. s.now) result ≡ word_of (view value.now) }
{
    let word = value.as_str()?;
    if is_text(word, 0, MAX_WORD_LEN) {
        Some(word)
    } else {
        None
    }
}

/// The whole number, if this is one in the range.
pub(crate) fn whole_of(value: &Value<'_>, least: u64, most: u64) -> Option<u64>
    ensures { result ≡ whole_of least most (view value.now) }
{
    let number = value.as_u64()?;
    if least <= number && number <= most {
        Some(number)
    } else {
        None
    }
}

/// The items, if this is a list.
#[tactic(auto, using(crate::proofs::ContentLemmas::lists))]
pub(crate) fn list_of<'o, 'v>(value: &'o Value<'v>) -> Option<&'o [Value<'v>]>
    ensures { option_map (λ items. map view items.now) result ≡ list_of (view value.now) }
{
    let items = value.as_array()?;
    Some(items.as_slice())
}

/// The items, if this is a list of objects.
#[tactic(auto, using(crate::proofs::ContentLemmas::lists))]
pub(crate) fn objects_of<'o, 'v>(value: &'o Value<'v>) -> Option<&'o [Value<'v>]>
    ensures { option_map (λ items. map view items.now) result ≡ objects_of (view value.now) }
{
    let items = list_of(value)?;
    if are_objects(items) {
        Some(items)
    } else {
        None
    }
}

fn are_objects(values: &[Value<'_>]) -> bool
    ensures { result ≡ list_all (λ value. is_object (view value)) values.now }
{
    values.iter().all(|value| value.is_object())
}
