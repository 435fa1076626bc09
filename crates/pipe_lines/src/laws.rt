// Laws of the order in which tokens pass. Each is the contract of an empty function.
ghost use Rattle.pipe_lines.specs.OrderRules.{PassAll, PassInTurn, PassOnce};

/// No token passes twice.
pub fn tokens_pass_once()
    ensures { PassOnce }
{}

/// If none is left, all pass.
pub fn all_tokens_pass()
    ensures { PassAll }
{}

/// Without rows they pass by their numbers.
pub fn tokens_pass_in_turn()
    ensures { PassInTurn }
{}
