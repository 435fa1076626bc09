//! The program `flow`: the real texts, streams and watchers for `flow_run`, and its exit code.
#![tactic(auto)]

use call_status::{Status, put_note};
use flow_run::flow_main;
use outside_io::{FolderTexts, NoMemory, StdSink};
use span_profile::{SpanCount, Watch};
use std::env;
use std::io::ErrorKind;
use std::process::ExitCode;

/// How many watchers a call is handed.
const WATCHERS: usize = 16;

fn main(rt: HostRuntime) -> ExitCode {
    let mut watchers: Vec<Box<dyn Watch + Send>> = Vec::new(rt.alloc());
    for _seat in 0..WATCHERS {
        let Ok(watcher) = Box::new(rt.alloc(), SpanCount::new()) else {
            return without_memory(&rt);
        };
        if watchers.push(watcher).is_err() {
            return without_memory(&rt);
        }
    }
    let Ok(arguments) = arguments(&rt) else {
        return without_memory(&rt);
    };
    let outcome = flow_main(
        &rt,
        rt.alloc(),
        arguments.as_slice(),
        &mut FolderTexts::new(&rt),
        &mut StdSink::out(rt.alloc(), &rt),
        &mut StdSink::notes(rt.alloc(), &rt),
        watchers,
    );
    ExitCode::from(outcome.into_code())
}

// The end of a program that finds no memory for the arguments or the watchers.
fn without_memory(rt: &HostRuntime) -> ExitCode {
    let status = Status::NoMemory;
    let _noted = put_note(
        rt.alloc(),
        &mut StdSink::notes(rt.alloc(), rt),
        None,
        &status,
    );
    ExitCode::from(status.code())
}

// The arguments after the program's own name. Where they aren't UTF-8 there are none, which is no command.
fn arguments(rt: &HostRuntime) -> Result<Vec<String>, NoMemory> {
    let mut arguments = Vec::new(rt.alloc());
    let all = match env::args(rt) {
        Ok(all) => all,
        Err(error) if error.kind() == ErrorKind::InvalidData => return Ok(arguments),
        Err(_) => return Err(NoMemory),
    };
    for argument in all.skip(1) {
        arguments.push(argument)?;
    }
    Ok(arguments)
}
