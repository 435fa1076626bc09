// Entries that may not follow a worked journal, each with the rule that it is to break; but for four numbers
// out of range it breaks no other.
ghost use Rattle.std.specs.Prelude.{true, false, [], ◌∷◌, ◌++◌};
ghost use Rattle.journal_rules.specs.declared.entry.Cause.TheVariants.{Source, Strong, Weak};
ghost use Rattle.journal_rules.specs.declared.entry.Part.TheVariants.{From, First, Nothing};
ghost use Rattle.journal_rules.specs.declared.entry.Why.TheVariants.{OverRelease};
ghost use Rattle.journal_rules.specs.declared.entry.DropWhy.TheVariants.{Halted, Limit, Stuck};
ghost use Rattle.journal_rules.specs.declared.entry.Entry.TheVariants.{Start, End, Fault, Drop};
ghost use Rattle.claims.specs.Findings.{BreaksOnly, IsOutOfRange, Range, Release, Closing, Choosing, Units, Ending};
ghost use Rattle.claims.specs.WorkedNets.{row_net, diamond_net, loop_net, choice_net, route_net, one_unit_net, across_net, takers_net, takers_and_free_net, putter_net, apart_net};
ghost use Rattle.claims.specs.WorkedJournals.{source_run, row_front, row_run, diamond_front, loop_front, loop_run, choice_run, chosen_front, route_front, one_unit_front, across_front, stuck_run, long};

/// Starts and Drops of releases that aren't there: too early, used already, or never there.
pub fn not_released()
    ensures early { BreaksOnly Release row_net 10 (Start 0 Source [] ∷ [])
        (Start 1 Strong (From 1 ∷ [])) }
    ensures early_drop { BreaksOnly Release row_net 10 (Start 0 Source [] ∷ [])
        (Drop 1 Strong Limit) }
    ensures half { BreaksOnly Release diamond_net 10 diamond_front
        (Start 3 Strong (First ∷ From 4 ∷ [])) }
    ensures source_again { BreaksOnly Release row_net 10 (source_run (0 ∷ [])) (Start 0 Source []) }
    ensures strong_again { BreaksOnly Release row_net 10 row_front (Start 1 Strong (From 1 ∷ [])) }
    ensures weak_again { BreaksOnly Release loop_net 20 loop_run (Start 3 (Weak 3) (From 13 ∷ [])) }
    ensures dropped_before { BreaksOnly Release row_net 10
        (source_run (0 ∷ []) ++ Drop 1 Strong Limit ∷ []) (Start 1 Strong (From 1 ∷ [])) }
    ensures not_source { BreaksOnly Release row_net 10 [] (Start 1 Source []) }
    ensures no_strong_edge { BreaksOnly Release row_net 10 [] (Start 0 Strong []) }
    ensures not_chosen { BreaksOnly Release choice_net 10 choice_run
        (Start 2 (Weak 1) (From 3 ∷ [])) }
    ensures strong_edge_alone { BreaksOnly Release row_net 10 (source_run (0 ∷ []))
        (Start 1 (Weak 0) (From 1 ∷ [])) }
    ensures edge_of_another { BreaksOnly Release choice_net 10 chosen_front
        (Start 0 (Weak 1) (From 3 ∷ [])) }
{}

/// Ends and Faults that name no open Start.
pub fn not_open()
    ensures ended { BreaksOnly Closing row_net 10 row_run (End 2 [] false) }
    ensures ended_before_fault { BreaksOnly Closing row_net 10 row_run (Fault 2 long) }
    ensures faulted { BreaksOnly Closing apart_net 10 (Start 0 Source [] ∷ Fault 0 long ∷ [])
        (End 0 [] false) }
    ensures not_a_start { BreaksOnly Closing row_net 10 row_run (Fault 1 long) }
    ensures not_there { BreaksOnly Closing row_net 10 row_run (Fault 4 long) }
{}

/// Ends that give what their task may not give.
pub fn not_chosen()
    ensures of_another { BreaksOnly Choosing row_net 10 row_front (End 2 (0 ∷ []) false) }
    ensures some { BreaksOnly Choosing diamond_net 10 (Start 0 Source [] ∷ [])
        (End 0 (1 ∷ []) false) }
    ensures other_order { BreaksOnly Choosing diamond_net 10 (Start 0 Source [] ∷ [])
        (End 0 (1 ∷ 0 ∷ []) false) }
    ensures two { BreaksOnly Choosing loop_net 10 loop_front (End 4 (2 ∷ 3 ∷ []) false) }
    ensures chosen_of_another { BreaksOnly Choosing loop_net 10 loop_front (End 4 (1 ∷ []) false) }
    ensures inner { BreaksOnly Choosing row_net 10 row_front (End 2 [] true) }
{}

/// An End of a Many that gives an edge twice.
pub fn not_distinct()
    ensures { BreaksOnly Choosing route_net 10 route_front (End 2 (3 ∷ 1 ∷ 3 ∷ []) false) }
{}

/// Starts that take a unit that isn't there, Ends that give one back that isn't out, and Faults that tell this falsely.
pub fn over_units()
    ensures taken { BreaksOnly Units one_unit_net 10 one_unit_front (Start 1 Strong (From 1 ∷ [])) }
    ensures lost_by_fault { BreaksOnly Units one_unit_net 10 (one_unit_front ++ Fault 2 long ∷ [])
        (Start 1 Strong (From 1 ∷ [])) }
    ensures nothing_out { BreaksOnly Units putter_net 10 (Start 0 Source [] ∷ []) (End 0 [] false) }
    ensures not_over { BreaksOnly Units across_net 10 across_front (Fault 2 (OverRelease 0)) }
    ensures not_put { BreaksOnly Units across_net 10 (Start 0 Source [] ∷ [])
        (Fault 0 (OverRelease 0)) }
    ensures own_unit { BreaksOnly Units one_unit_net 10 one_unit_front (Fault 2 (OverRelease 0)) }
{}

/// Starts past the limit, and Drops whose cause isn't there.
pub fn past_limit_or_without_cause()
    ensures limit { BreaksOnly Ending row_net 1 (source_run (0 ∷ []))
        (Start 1 Strong (From 1 ∷ [])) }
    ensures halted { BreaksOnly Ending apart_net 10 (Start 0 Source [] ∷ [])
        (Drop 1 Source Halted) }
    ensures stuck_and_open { BreaksOnly Ending takers_net 10 (Start 0 Source [] ∷ [])
        (Drop 1 Source (Stuck 0)) }
    ensures stuck_after_fault { BreaksOnly Ending takers_net 10
        (Start 0 Source [] ∷ Fault 0 long ∷ []) (Drop 1 Source (Stuck 0)) }
    ensures stuck_without_need { BreaksOnly Ending across_net 10 (source_run (0 ∷ []))
        (Drop 1 Strong (Stuck 0)) }
    ensures stuck_with_unit { BreaksOnly Ending takers_net 10 [] (Drop 1 Source (Stuck 0)) }
    ensures after_stuck { BreaksOnly Ending takers_and_free_net 10 stuck_run (Start 2 Source []) }
    ensures limit_after_stuck { BreaksOnly Ending takers_and_free_net 10 stuck_run
        (Drop 2 Source Limit) }
{}

/// Entries with a number of a task, an edge or a semaphore that the net hasn't.
pub fn out_of_range()
    ensures task { BreaksOnly Range row_net 10 [] (Start 5 Source []) }
    ensures dropped_task { BreaksOnly Range row_net 10 [] (Drop 5 Source Limit) }
    ensures weak_edge { IsOutOfRange row_net 10 [] (Start 1 (Weak 9) (Nothing ∷ [])) }
    ensures given_edge { IsOutOfRange row_net 10 (Start 0 Source [] ∷ []) (End 0 (9 ∷ []) false) }
    ensures released { IsOutOfRange putter_net 10 (Start 0 Source [] ∷ [])
        (Fault 0 (OverRelease 9)) }
    ensures wanted { IsOutOfRange takers_net 10 (source_run []) (Drop 1 Source (Stuck 9)) }
{}
