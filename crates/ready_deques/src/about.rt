// What all deques of one list have in common.
ghost use Rattle.std.specs.Prelude.{ℕ, List};
ghost use base.Fml.{ftrue};
ghost use Rattle.atomic_table.specs.Seated.{TableId, table_id_coded};

use std::marker::{Model, PhantomData};

/// The tag of a list's items, and the table of its count word. No value of it is made.
pub struct About {
    marker: PhantomData<()>,
    pub ghost tag: { List ℕ },
    pub ghost counts: { TableId } by { table_id_coded },
}

impl Model for About {
    ghost also_owns = { λ _. ftrue };
}
