// A table with its first turns and its keeper.
ghost use Rattle.std.specs.Prelude.{◌≡◌, ◌≤◌, IfOk, []};
ghost use Rattle.std.specs.Arc.{arc_value};
ghost use Rattle.journal_rules.specs.Limits.{max_limit};
ghost use Rattle.join_tables.specs.Openings.{OpensTable};
ghost use Rattle.join_tables.specs.States.{fresh_state};
ghost use Rattle.table_steps.specs.inside.Accounts.{first_notes};
ghost use Rattle.join_tables.specs.inside.FirstReleases.{duties_of, states_of, DealsFirst};
ghost use Rattle.table_steps.specs.inside.Kinds.{kept_back};

use crate::keeper::Keeper;
use crate::releases::{FirstRelease, first_parcels, first_releases, opening_words};
use crate::turns::{Fresh, NetTable};
use journal_rules::{Cause, is_once_net};
use outside_io::{List, NoMemory};
use std::alloc::Global;
use std::sync::Arc;
use table_steps::{LimitedNet, TableSeat, Words, table_of};
use task_graph::Net;

/// A table with its first releases, by rising task, and its keeper.
#[derive(Drop)]
pub struct Opening<V> {
    pub table: NetTable<V>,
    pub fresh: Vec<Fresh<V>>,
    pub keeper: Keeper<V>,
}

impl<V: Drop> NetTable<V> {
    /// The table of a run of a net, which may have this many starts.
    pub fn new(alloc: Global, net: Arc<Net>, limit: u64) -> Result<Opening<V>, NoMemory>
        requires limit { limit ≤ max_limit }
        ensures { IfOk result (OpensTable (arc_value net) limit) }
    {
        let gives_once = is_once_net(&net);
        let releases = first_releases(alloc, &net)?;
        let words = opening_words(alloc, &net, releases.len() as u64)?;
        let parcels = first_parcels(alloc, &net)?;
        let limited = LimitedNet { net, limit };
        let (table, mut seat) = table_of(alloc, words.as_slice(), parcels, &limited)?;
        let LimitedNet { net, limit } = limited;
        let words = Words {
            table,
            net,
            limit,
            alloc,
        };
        let table = NetTable { words, gives_once };
        let fresh = table.deal_all(alloc, &mut seat, &releases)?;
        Ok(Opening {
            table,
            fresh,
            keeper: Keeper::new(alloc, seat),
        })
    }

    // Deals each release to a seat of its own.
    fn deal_all(
        &self,
        alloc: Global,
        seat: &mut TableSeat<V>,
        releases: &Vec<FirstRelease>,
    ) -> Result<Vec<Fresh<V>>, NoMemory>
        requires table { seat.old.table_id ≡ self.now.table }
        requires keeper { seat.old.id ≡ 0 }
        requires view { seat.old.me ≡ (first_notes (duties_of releases.now.items), []) }
        requires found { seat.old.found ≡ [] }
        ensures table { (seat.new.table_id ≡ seat.old.table_id) × (seat.new.id ≡ 0) }
        ensures view { IfOk result (λ fresh. seat.new.me ≡ ([], [])) }
        ensures values { seat.new.values ≡ seat.old.values }
        ensures found { seat.new.found ≡ [] }
        ensures fresh { IfOk result
            (λ fresh. fresh.items ≡ states_of self.now.table releases.now.items) }
    {
        let mut fresh = Vec::with_capacity(alloc, releases.len())?;
        for release in releases {
            let FirstRelease { task, cause } = *release;
            fresh.push_reserved(self.deal_first(seat, task, cause));
        }
        Ok(fresh)
    }

    // Deals a release with its turn to a new seat.
    fn deal_first(&self, seat: &mut TableSeat<V>, task: u32, cause: Cause) -> Fresh<V>
        requires table { seat.old.table_id ≡ self.now.table }
        requires keeper { seat.old.id ≡ 0 }
        requires home { seat.old.me.1 ≡ [] }
        requires first { DealsFirst task cause seat.old.me.0 }
        ensures table { (seat.new.table_id ≡ seat.old.table_id) × (seat.new.id ≡ 0) }
        ensures view { seat.new.me ≡ (kept_back seat.old.me.0, []) }
        ensures values { seat.new.values ≡ seat.old.values }
        ensures found { seat.new.found ≡ seat.old.found }
        ensures fresh { result ≡ fresh_state self.now.table task cause }
    {
        let seat = self.words.deal(seat);
        Fresh { seat, task, cause }
    }
}
