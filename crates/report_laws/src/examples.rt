// The definitions, computed on small plans.
ghost use Rattle.std.specs.Prelude.{◌≡◌, codes};
ghost use Rattle.report_laws.specs.PlainReport.{IsPlainJob, RunsWell, plain_feedback, plain_report};
ghost use Rattle.report_laws.specs.SmallPlans.{behind_a_circle, chooses_a_branch, exchanges_parts, kept_together, pipes_a_text, runs_a_choice, runs_modules, runs_one_module, spreads_a_text, takes_and_keeps, waits_for_ever, worked_job};

/// The report of two texts whose lines with an `a` are kept together, of which one goes to another task besides. A run
/// of at most four starts isn't cut short, and one of three is.
pub fn kept_together_reports()
    ensures report { plain_report (worked_job kept_together 4) ≡ codes "== k\na1\na2\n== h\nb\n" }
    ensures enough { RunsWell (worked_job kept_together 4) }
    ensures too_few { ¬ RunsWell (worked_job kept_together 3) }
    ensures feedback { plain_feedback (worked_job kept_together 4) ≡ codes "b\n" }
{}

/// Tasks on a circle, and the one behind it, don't start and have no value: one start is enough.
pub fn circle_reports()
    ensures report { plain_report (worked_job behind_a_circle 1) ≡ codes "== p\na1\nb\n-- h\n" }
    ensures enough { RunsWell (worked_job behind_a_circle 1) }
    ensures too_few { ¬ RunsWell (worked_job behind_a_circle 0) }
{}

/// The values of modules, of the parts of a text and of a pipeline: a module that keeps lines, run by a task and by
/// another module; a spread; a pipe that numbers the lines, also where the first waits for the second, or for one that
/// never comes. A module's run has the limit of the run around it; a spread and a pipeline have starts enough.
pub fn nested_reports()
    ensures modules { plain_report (worked_job runs_modules 4) ≡ codes "== m\na1\n== x\na2\n" }
    ensures enough { RunsWell (worked_job runs_modules 4) }
    ensures too_few { ¬ RunsWell (worked_job runs_modules 3) }
    ensures too_few_inside { ¬ RunsWell (worked_job runs_one_module 1) }
    ensures parts { plain_report (worked_job spreads_a_text 2) ≡ codes "== s\na1\nb\n" }
    ensures pipe { plain_report (worked_job pipes_a_text 2) ≡ codes "== s\n0 a1\n1 b\n" }
    ensures waits { plain_report (worked_job exchanges_parts 2) ≡ codes "== s\n1 b\n0 a1\n" }
    ensures unmet { ¬ RunsWell (worked_job waits_for_ever 2) }
{}

/// Of these jobs those that keep lines together, spread a text, put it through a pipe and run a module are plain; one
/// with a condition isn't, nor is one that runs a module with one, nor one of whose tasks one takes a unit that it
/// doesn't put.
pub fn plain_plans()
    ensures plain { IsPlainJob (worked_job kept_together 4) }
    ensures condition { ¬ IsPlainJob (worked_job chooses_a_branch 4) }
    ensures unit { ¬ IsPlainJob (worked_job takes_and_keeps 4) }
    ensures spreads { IsPlainJob (worked_job spreads_a_text 4) }
    ensures runs { IsPlainJob (worked_job runs_one_module 4) }
    ensures chooses_inside { ¬ IsPlainJob (worked_job runs_a_choice 4) }
    ensures pipes { IsPlainJob (worked_job pipes_a_text 4) }
{}
