// The law of reports, the contract of a function that does nothing.
ghost use Rattle.report_laws.specs.PlainReport.{ReportsPlainly};

use run_frame::FrameRun;
use text_tasks::TextJob;

/// A kept run of a plan without conditions is fine exactly where the values by one thread run through, and its report
/// is then that of one thread.
pub fn same_report(run: &FrameRun<TextJob>)
    ensures { ReportsPlainly run.now }
{}
