// Items for ready lists.
ghost use Rattle.std.specs.Prelude.{◌≡◌, [], All, IfOk};

use ready_deques::{Owner, Tagged};
use std::test::Fail;

/// A number, which belongs on any list without a tag.
#[derive(Clone, Copy, Debug, PartialEq, Eq)]
pub(crate) struct Number(pub(crate) u32);

impl Tagged for Number {
    ghost use Rattle.std.specs.Prelude.{[]};

    ghost tag = { λ _. [] };
}

/// The last of these owners.
pub(crate) fn next_owner(owners: &mut Vec<Owner<Number>>) -> Result<Owner<Number>, Fail>
    requires { All (λ owner. owner.tag ≡ []) owners.old.items }
    ensures rest { All (λ owner. owner.tag ≡ []) owners.new.items }
    ensures owner { IfOk result (λ owner. owner.tag ≡ []) }
{
    match owners.pop() {
        Some(owner) => Ok(owner),
        None => Err("no owner is left".into()),
    }
}
