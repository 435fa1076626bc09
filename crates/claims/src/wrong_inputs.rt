// Starts that find what they may not, in worked journals, and runs that aren't finished.
ghost use Rattle.std.specs.Prelude.{false, [], ◌∷◌, ◌++◌};
ghost use Rattle.journal_rules.specs.declared.entry.Cause.TheVariants.{Source, Strong, Weak};
ghost use Rattle.journal_rules.specs.declared.entry.Part.TheVariants.{From, First, Nothing};
ghost use Rattle.journal_rules.specs.declared.entry.Entry.TheVariants.{Start, End};
ghost use Rattle.claims.specs.Findings.{IsUnfinished, FindsWrong};
ghost use Rattle.claims.specs.WorkedNets.{row_net, diamond_net, kept_net, choice_net, self_net, ring_net, two_rings_net};
ghost use Rattle.claims.specs.WorkedJournals.{source_run, row_front, diamond_front, kept_rounds, chosen_front, limited_run, ring_rounds, rings_round, two_rings_front};

/// Starts with a part that they may not have, or with too few or too many.
pub fn starts_with_wrong_inputs()
    ensures not_an_end { FindsWrong row_net 10 (source_run (0 ∷ []))
        (Start 1 Strong (From 0 ∷ [])) }
    ensures not_given { FindsWrong diamond_net 10 (diamond_front ++ End 3 (2 ∷ []) false ∷ [])
        (Start 3 Strong (From 4 ∷ From 5 ∷ [])) }
    ensures nothing { FindsWrong row_net 10 (source_run (0 ∷ [])) (Start 1 Strong (Nothing ∷ [])) }
    ensures no_token { FindsWrong kept_net 10 kept_rounds (Start 4 Strong (First ∷ From 15 ∷ [])) }
    ensures found_before { FindsWrong two_rings_net 10 two_rings_front
        (Start 2 Strong (From 1 ∷ From 7 ∷ [])) }
    ensures first_found_before { FindsWrong two_rings_net 10 rings_round
        (Start 0 Strong (First ∷ [])) }
    ensures not_the_last { FindsWrong ring_net 10 ring_rounds (Start 1 Strong (From 1 ∷ [])) }
    ensures too_few { FindsWrong row_net 10 (source_run (0 ∷ [])) (Start 1 Strong []) }
    ensures too_many { FindsWrong row_net 10 (source_run (0 ∷ []))
        (Start 1 Strong (From 1 ∷ From 1 ∷ [])) }
    ensures source { FindsWrong row_net 10 [] (Start 0 Source (Nothing ∷ [])) }
    ensures weak { FindsWrong choice_net 10 chosen_front (Start 2 (Weak 1) (From 1 ∷ [])) }
{}

/// Legal journals of runs that go on: of which a start is open or a release is left, or of which a release was
/// dropped at a limit that the starts don't reach.
pub fn unfinished()
    ensures open { IsUnfinished row_net 10 row_front }
    ensures source_left { IsUnfinished row_net 10 [] }
    ensures strong_left { IsUnfinished row_net 10 (source_run (0 ∷ [])) }
    ensures weak_left { IsUnfinished choice_net 10 chosen_front }
    ensures below_limit { IsUnfinished self_net 11 limited_run }
{}
