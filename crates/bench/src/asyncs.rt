// Books of async tasks.
mod apart;
mod chains;
mod work_only;

use std::alloc::Global;
use std::io;
use std::sync::Wait;
use std::thread::Threads;
use std::time::Clock;

/// By the word `chains` two callers add 50,000 tasks each, every one after the caller's last, beside two workers. By
/// the word `work` the work of 100,000 tasks of about two microseconds is done without a book. By any other, one
/// worker, or four by the word `4`, runs such tasks, which wait for nothing. It prints how long these took.
pub fn measure<R: Threads + Wait + Clock + Print + Sync>(
    rt: &R,
    alloc: Global,
    word: &str,
) -> io::Result<()> {
    match word {
        "chains" => chains::measure(rt, alloc),
        "work" => work_only::measure(rt, alloc),
        "4" => apart::measure(rt, alloc, 4),
        _ => apart::measure(rt, alloc, 1),
    }
}
