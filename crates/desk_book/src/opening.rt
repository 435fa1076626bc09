// The state of a new desk.
use crate::outstanding::Outstanding;
use crate::state::DeskState;
use nested_runs::Recurs;
use tickets::Register;

/// The state of a new desk, with the table of its tickets.
#[derive(Drop)]
pub struct Opening<J: Recurs + Drop> {
    pub register: Register<Outstanding>,
    pub state: DeskState<J>,
}
