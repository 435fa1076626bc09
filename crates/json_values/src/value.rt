// What a value holds.
ghost use Rattle.std.specs.Prelude.{◌≡◌, is_some, map, option_map, option_and_then};
ghost use Rattle.serde_json.specs.Find.{as_array, as_bool, as_number, as_object, as_str, as_u64, get, get_member};
ghost use Rattle.json_values.specs.inside.View.{items_view, members_view, view};

use serde_json::Number;

/// A value of JSON. Its strings lie in the text or, if they have escapes, in the memory that was lent for reading.
#[derive(Drop)]
pub enum Value<'v> {
    Null,
    Bool(bool),
    Number(Number),
    String(&'v str),
    Array(Vec<Value<'v>>),
    /// The members in the order of the text. The last of a key counts.
    Object(Vec<(&'v str, Value<'v>)>),
}

impl<'v> Value<'v> {
    /// The last member of this name, if this is an object.
    pub fn get(&self, name: &str) -> Option<&Value<'v>>
        ensures { option_map (λ v. view v.now) result ≡ get name.now (view self.now) }
    {
        if let Value::Object(members) = self {
            find(members, name)
        } else {
            None
        }
    }

    /// The members of an object, in the order of the text.
    pub fn as_object(&self) -> Option<&Vec<(&'v str, Value<'v>)>>
        ensures { option_map (λ ms. members_view ms.now.items) result ≡ as_object (view self.now) }
    {
        if let Value::Object(members) = self {
            Some(members)
        } else {
            None
        }
    }

    /// Whether this is an object.
    pub fn is_object(&self) -> bool
        ensures { result ≡ is_some (as_object (view self.now)) }
    {
        self.as_object().is_some()
    }

    /// The items of an array.
    pub fn as_array(&self) -> Option<&Vec<Value<'v>>>
        ensures { option_map (λ items. items_view items.now.items) result
            ≡ as_array (view self.now) }
    {
        if let Value::Array(items) = self {
            Some(items)
        } else {
            None
        }
    }

    /// The string, if this is one.
    pub fn as_str(&self) -> Option<&'v str>
        ensures { option_map (λ s. s.now) result ≡ as_str (view self.now) }
    {
        if let Value::String(text) = self {
            Some(*text)
        } else {
            None
        }
    }

    /// The truth value, if this is one.
    pub fn as_bool(&self) -> Option<bool>
        ensures { result ≡ as_bool (view self.now) }
    {
        if let Value::Bool(truth) = self {
            Some(*truth)
        } else {
            None
        }
    }

    /// The number, if this is a whole one from 0 below 2^64.
    pub fn as_u64(&self) -> Option<u64>
        ensures { result ≡ option_and_then as_u64 (as_number (view self.now)) }
    {
        if let Value::Number(number) = self {
            number.as_u64()
        } else {
            None
        }
    }
}

fn find<'m, 'v>(members: &'m Vec<(&'v str, Value<'v>)>, name: &str) -> Option<&'m Value<'v>>
    ensures { option_map (λ v. view v.now) result
        ≡ get_member name.now (members_view members.now.items) }
{
    let mut left = members.len();
    while left > 0 {
        left -= 1;
        let member = &members[left];
        if member.0 == name {
            return Some(&member.1);
        }
    }
    None
}
