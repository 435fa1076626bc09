// What ends rounds.
ghost use Rattle.std.specs.Prelude.{◌≡◌, Bool, List, All};
ghost use Rattle.run_frame.specs.Legal.{IsKept};
ghost use Rattle.run_frame.specs.declared.run.FrameRun.{FrameRun};

use run_frame::{FrameRun, Job};

/// A test of the rounds that were run, after which there is no further one if it is met.
pub trait Until<J: Job> {
    /// After which rounds it is met.
    ghost ends: { Self → List (FrameRun J J.V) → Bool };

    /// Whether it is met after these rounds, also before the first.
    fn is_met(&self, runs: &[FrameRun<J>]) -> bool
        requires { All (IsKept J.meaning) runs.now }
        ensures { result ≡ ends self.now runs.now };
}

/// It is never met.
pub(crate) struct Never;

impl<J: Job> Until<J> for Never {
    ghost use Rattle.std.specs.Prelude.{false};

    ghost ends = { λ until runs. false };

    fn is_met(&self, _: &[FrameRun<J>]) -> bool {
        false
    }
}
