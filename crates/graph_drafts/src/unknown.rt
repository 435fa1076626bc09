// Fields that an object may not have.
ghost use Rattle.std.specs.Prelude.{◌≡◌, ◌++◌, IfOk, map, not, option_map, string_bytes};
ghost use Rattle.std.specs.BTreeMap.{keys as keys_in};
ghost use Rattle.std.specs.List.{find, list_all, list_any};
ghost use Rattle.std.specs.Str.{bytes_eq};
ghost use Rattle.serde_json.specs.View.{members_view as tree_members};
ghost use Rattle.json_values.specs.inside.View.{members_view, view};
ghost use Rattle.graph_drafts.specs.declared.refusals.GraphError.TheVariants.{BadField};
ghost use Rattle.graph_drafts.specs.Fields.{is_unknown, keys_of, only, unknown};
ghost use Rattle.graph_drafts.specs.Steps.{unless};
ghost use Rattle.graph_drafts.specs.inside.Reading.{Reads};

use crate::bad_fields::bad_field;
use crate::refusals::GraphError;
use graph_plans::Spot;
use json_values::Value;
use outside_io::NoMemory;
use serde_json::{Map, Value as Tree, put};
use std::alloc::Global;

/// That an object has no field but these, which every object of its kind may have, and its own.
pub(crate) fn check_fields(
    alloc: Global,
    spot: Spot,
    object: &Value<'_>,
    common: &[&str],
    own: &[&str],
) -> Result<(), GraphError>
    ensures { Reads result (only (map (λ s. s.now) common.now ++ map (λ s. s.now) own.now) spot
        (view object.now)) }
{
    let Some(members) = object.as_object() else {
        return Ok(());
    };
    check_members(alloc, spot, members.as_slice(), common, own)
}

// That these members have no key but these.
#[tactic(auto, using(crate::proofs::FieldLemmas::find_known))]
fn check_members(
    alloc: Global,
    spot: Spot,
    members: &[(&str, Value<'_>)],
    common: &[&str],
    own: &[&str],
) -> Result<(), GraphError>
    ensures { Reads result (unless (find (is_unknown
        (map (λ s. s.now) common.now ++ map (λ s. s.now) own.now))
        (keys_of (members_view members.now))) (λ key. BadField spot key)) }
{
    if are_known(members, common, own) {
        return Ok(());
    }
    let keys = sorted_keys(alloc, members)?;
    match first_unknown(&keys, common, own) {
        Some(field) => Err(bad_field(alloc, spot, field)),
        None => Ok(()),
    }
}

fn are_known(members: &[(&str, Value<'_>)], common: &[&str], own: &[&str]) -> bool
    ensures { result ≡ list_all (λ member. not (is_unknown
        (map (λ s. s.now) common.now ++ map (λ s. s.now) own.now) member.0.now)) members.now }
{
    members.iter().all(|member| is_known(common, own, member.0))
}

// The keys in the order of their bytes, each once. It is made where some key is refused, to find the first.
fn sorted_keys(alloc: Global, members: &[(&str, Value<'_>)]) -> Result<Map<String, Tree>, NoMemory>
    ensures { IfOk result (λ keys. keys_of (tree_members keys.entries)
        ≡ keys_of (members_view members.now)) }
{
    let mut keys = Map::new(alloc);
    for member in members {
        put(&mut keys, alloc, member.0, Tree::Null)?;
    }
    Ok(keys)
}

// The first key that is none of these fields.
fn first_unknown<'k>(keys: &'k Map<String, Tree>, common: &[&str], own: &[&str]) -> Option<&'k str>
    ensures { option_map (λ s. s.now) result
        ≡ find (is_unknown (map (λ s. s.now) common.now ++ map (λ s. s.now) own.now))
        (keys_of (tree_members keys.now.entries)) }
{
    let Some(key) = unknown_key(keys, common, own) else {
        return None;
    };
    Some(key.as_str())
}

fn unknown_key<'k>(keys: &'k Map<String, Tree>, common: &[&str], own: &[&str]) -> Option<&'k String>
    ensures { option_map (λ k. k.now) result
        ≡ find (λ key. is_unknown (map (λ s. s.now) common.now ++ map (λ s. s.now) own.now)
        (string_bytes key)) (keys_in keys.now) }
{
    keys.keys().find(|key| !is_known(common, own, key.as_str()))
}

// Whether the key is one of these fields.
#[tactic(auto, using(crate::proofs::FieldLemmas::is_unknown_two))]
fn is_known(common: &[&str], own: &[&str], key: &str) -> bool
    ensures { not result ≡ is_unknown (map (λ s. s.now) common.now ++ map (λ s. s.now) own.now)
        key.now }
{
    is_one_of(common, key) || is_one_of(own, key)
}

fn is_one_of(fields: &[&str], key: &str) -> bool
    ensures { result ≡ list_any (λ field. bytes_eq field.now key.now) fields.now }
{
    fields.iter().any(|field| *field == key)
}
