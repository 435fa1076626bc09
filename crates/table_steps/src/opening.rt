// A table with its first seat.
ghost use Rattle.std.specs.Prelude.{◌≡◌, IfOk, [], length, flat_map};
ghost use Rattle.std.specs.Arc.{arc_value};
ghost use Rattle.atomic_table.specs.Table.{opening};
ghost use Rattle.table_steps.specs.Values.{given_parts, values_in};
ghost use Rattle.table_steps.specs.inside.Accounts.{KeepsAccounts, opening_notes};

use crate::parcels::Parcels;
use crate::table_seat::TableSeat;
use crate::view::{AccountsHold, LimitedNet, SeatView};
use atomic_table::Table;
use outside_io::NoMemory;
use std::alloc::Global;

/// A table of these words, with these parcels in its slots, and its first seat. No parcel is a value yet.
pub fn table_of<V: Drop>(
    alloc: Global,
    words: &[u64],
    parcels: Vec<Parcels<V>>,
    limited: &LimitedNet,
) -> Result<
    (
        Table<Parcels<V>, SeatView<V>, LimitedNet, AccountsHold, Global>,
        TableSeat<V>,
    ),
    NoMemory,
>
    requires accounts { KeepsAccounts given_parts (arc_value limited.now.net) limited.now.limit
        (opening words.now parcels.items
        (opening_notes (arc_value limited.now.net) limited.now.limit)) }
    requires no_values { flat_map values_in parcels.items ≡ [] }
    ensures table { IfOk result
        (λ made. (made.0.shared.table_id.words ≡ length words.now)
        × (made.0.shared.key ≡ limited.now)) }
    ensures seat { IfOk result
        (λ made. (made.1.table_id ≡ made.0.shared.table_id) × (made.1.id ≡ 0)
        × (made.1.me ≡ (opening_notes (arc_value limited.now.net) limited.now.limit, []))) }
    ensures values { IfOk result (λ made. (made.1.values ≡ []) × (made.1.found ≡ [])) }
{
    match Table::new(alloc, words, parcels, limited) {
        Ok((table, seat)) => Ok((table, TableSeat::first(seat))),
        Err(_) => Err(NoMemory),
    }
}
