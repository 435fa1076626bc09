// The calls that credit units and claim them. None takes memory, and none waits.
ghost use Rattle.std.specs.Prelude.{◌≡◌, ◌<◌, ◌≤◌, None, true, length};
ghost use Rattle.journal_rules.specs.SemaphoreRule.{puts};
ghost use Rattle.table_steps.specs.Giving.{times};
ghost use Rattle.join_tables.specs.Claims.{ClaimsUnit, credit_one, with_units};

use crate::turns::{Claim, NetTable, Running};
use table_steps::FIRST_CREDIT;

impl<V: Drop> NetTable<V> {
    /// Credits a unit that a start took and its task doesn't put, so that another start may claim it.
    #[tactic(auto, using(table_steps::proofs::Values::knows_again))]
    pub fn credit(&self, running: Running<V>, sem: u32) -> Running<V>
        requires table { running.table ≡ self.now.table }
        requires to_credit { 1 ≤ times sem running.units.to_credit }
        requires in_range { sem < length self.now.net.sems }
        ensures state { result ≡ with_units running (credit_one sem running.units) result }
        ensures found { result.found ≡ running.found }
    {
        let Running {
            mut seat,
            task,
            cause,
            place,
            inputs,
        } = running;
        self.words.add_credit(&mut seat, sem);
        Running {
            seat,
            task,
            cause,
            place,
            inputs,
        }
    }

    /// Claims a unit that a start's task puts and doesn't take. It returns `Refused` exactly where its own step finds
    /// no credit. Then a legal journal with this start at its place allows a Fault of it for an over-release, and the
    /// call undoes its step.
    #[tactic(auto, using(table_steps::proofs::Values::knows_again))]
    pub fn claim(&self, running: Running<V>, sem: u32) -> Claim<V>
        requires table { running.table ≡ self.now.table }
        requires to_claim { 1 ≤ times sem running.units.to_claim }
        requires puts { puts self.now.net sem running.task ≡ true }
        requires not_refused { running.units.refused ≡ None }
        requires in_range { sem < length self.now.net.sems }
        ensures { ClaimsUnit self.now.net self.now.limit running sem result }
    {
        let Running {
            mut seat,
            task,
            cause,
            place,
            inputs,
        } = running;
        let found = self.words.draw_claim(&mut seat, sem);
        if found > FIRST_CREDIT {
            return Claim::Granted(Running {
                seat,
                task,
                cause,
                place,
                inputs,
            });
        }
        self.words.undo_claim(&mut seat, sem);
        Claim::Refused(Running {
            seat,
            task,
            cause,
            place,
            inputs,
        })
    }
}
