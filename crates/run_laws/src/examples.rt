// The definitions, computed on small nets and journals.
ghost use Rattle.std.specs.Prelude.{[], ◌∷◌, ◌≡◌};
ghost use Rattle.run_laws.specs.OneThreadValue.{one_thread_value};
ghost use Rattle.run_laws.specs.Steady.{Steady};
ghost use Rattle.run_laws.specs.SmallNets.{four_tasks, two_in_a_ring, adding, adding_to_3, failing_on_2, end, run_of_the_ring, run_of_four, open_twice, after_drop, given_twice};

/// The values of tasks.
pub fn small_values()
    ensures no_steps { one_thread_value four_tasks (adding four_tasks) 0 0 ≡ [] }
    ensures source { one_thread_value four_tasks (adding four_tasks) 1 0 ≡ end 1 (0 ∷ 1 ∷ []) ∷ [] }
    ensures not_yet { one_thread_value four_tasks (adding four_tasks) 2 3 ≡ [] }
    ensures last { one_thread_value four_tasks (adding four_tasks) 3 3 ≡ end 5 [] ∷ [] }
    ensures more { one_thread_value four_tasks (adding four_tasks) 7 3 ≡ end 5 [] ∷ [] }
    ensures ring { one_thread_value two_in_a_ring (adding two_in_a_ring) 4 0
        ≡ end 1 (0 ∷ []) ∷ end 3 (0 ∷ []) ∷ [] }
    ensures ring_stops { one_thread_value two_in_a_ring (adding_to_3 two_in_a_ring) 9 0
        ≡ end 1 (0 ∷ []) ∷ end 3 [] ∷ [] }
    ensures ring_fails { one_thread_value two_in_a_ring (failing_on_2 two_in_a_ring) 9 0
        ≡ end 1 (0 ∷ []) ∷ [] }
{}

/// Steady journals.
pub fn steady_runs()
    ensures ring { Steady two_in_a_ring run_of_the_ring }
    ensures diamond { Steady four_tasks run_of_four }
{}

/// Journals that aren't.
pub fn unsteady_runs()
    ensures twice { ¬ Steady two_in_a_ring open_twice }
    ensures after_drop { ¬ Steady two_in_a_ring after_drop }
    ensures given_twice { ¬ Steady two_in_a_ring given_twice }
{}
