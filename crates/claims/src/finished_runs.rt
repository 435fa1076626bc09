// Journals that are worked out by hand, and what the rules say of them.
ghost use Rattle.claims.specs.Findings.{IsFinished};
ghost use Rattle.task_graph.specs.NetBuilder.{empty_net};
ghost use Rattle.claims.specs.WorkedNets.{row_net, diamond_net, double_net, loop_net, kept_net, choice_net, route_net, nested_net, one_unit_net, across_net, takers_net, putter_net, putter_and_taker_net, putters_and_taker_net, apart_net, self_net, two_rings_net};
ghost use Rattle.claims.specs.WorkedJournals.{row_run, diamond_run, double_run, loop_run, kept_rounds, kept_run, kept_run_with_nothing, choice_run, route_run, nested_run, one_unit_run, across_run, stuck_run, over_run, over_before_run, over_beside_run, halted_run, limited_run, two_rings_run, two_rings_limited_run};
ghost use Rattle.journal_rules.specs.Waiting.{waiting};
ghost use Rattle.journal_rules.specs.declared.entry.Cause.TheVariants.{Strong};
ghost use Rattle.journal_rules.specs.declared.entry.Part.TheVariants.{From, First, Nothing};
ghost use Rattle.journal_rules.specs.declared.entry.Entry.TheVariants.{Start};
ghost use Rattle.task_graph.specs.Chosen.{chosen_edges};
ghost use Rattle.std.specs.Prelude.{◌≡◌, pos, negsuc, [], ◌∷◌};

/// Finished runs of nets of strong edges.
pub fn strong_runs()
    ensures empty { IsFinished empty_net 10 [] }
    ensures row { IsFinished row_net 10 row_run }
    ensures row_at_its_limit { IsFinished row_net 2 row_run }
    ensures diamond { IsFinished diamond_net 10 diamond_run }
    ensures double { IsFinished double_net 10 double_run }
{}

/// Finished runs of nets in which a task chooses.
pub fn choosing_runs()
    ensures looped { IsFinished loop_net 10 loop_run }
    ensures choice { IsFinished choice_net 10 choice_run }
    ensures nested { IsFinished nested_net 10 nested_run }
{}

/// A finished run of a net with a task that chooses several successors.
pub fn routed_run()
    ensures { IsFinished route_net 10 route_run }
{}

/// Finished runs in which tokens are left over.
pub fn kept_runs()
    ensures kept { IsFinished kept_net 10 kept_run }
    ensures with_nothing { IsFinished kept_net 10 kept_run_with_nothing }
{}

/// Finished runs in which tasks take units.
pub fn unit_runs()
    ensures one_unit { IsFinished one_unit_net 10 one_unit_run }
    ensures across { IsFinished across_net 10 across_run }
    ensures stuck { IsFinished takers_net 10 stuck_run }
    ensures over { IsFinished putter_net 10 over_run }
{}

/// Finished runs in which a start would have given back a unit that was out, but not at some earlier moment.
pub fn over_runs()
    ensures before { IsFinished putter_and_taker_net 10 over_before_run }
    ensures beside { IsFinished putters_and_taker_net 10 over_beside_run }
{}

/// Finished runs in which releases were dropped.
pub fn dropped_runs()
    ensures halted { IsFinished apart_net 10 halted_run }
    ensures limited { IsFinished self_net 10 limited_run }
    ensures two_rings { IsFinished two_rings_net 10 two_rings_run }
    ensures two_rings_limited { IsFinished two_rings_net 3 two_rings_limited_run }
{}

/// What waits at an edge: the last End that gave it, the token with which it began, or nothing once that was used.
pub fn what_waits()
    ensures given { waiting kept_net 2 kept_rounds ≡ From 11 }
    ensures begun { waiting two_rings_net 2 [] ≡ First }
    ensures used { waiting two_rings_net 2 (Start 0 Strong (First ∷ []) ∷ []) ≡ Nothing }
{}

/// The edges that indices choose: those in range, each once, where it is first named.
pub fn chosen_by_indices()
    ensures { chosen_edges (5 ∷ 7 ∷ 9 ∷ []) (pos 2 ∷ pos 0 ∷ pos 2 ∷ negsuc 0 ∷ []) ≡ 9 ∷ 5 ∷ [] }
{}
