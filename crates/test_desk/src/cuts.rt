// Asks that are cut where memory is refused to a round, and only there.
use desk_trials::{ByThreads, TickJob, TwoCallers, callers_of, finish, team};
use outside_io::NoMemory;
use run_desk::{Ask, DeskEnd, DeskEntry, DeskRun, Served, serve};
use std::sync::Wait;
use std::test::Fail;
use std::thread::Threads;

// A job of which there is memory for some rounds, an ask for so many of it, and what serving it comes to.
struct Case {
    with_memory: u64,
    asked: u64,
    kept: usize,
    served: Served,
}

const CASES: [Case; 4] = [
    Case {
        with_memory: 2,
        asked: 3,
        kept: 2,
        served: Served::Cut(0),
    },
    Case {
        with_memory: 2,
        asked: 2,
        kept: 2,
        served: Served::Ran(0),
    },
    Case {
        with_memory: 3,
        asked: 3,
        kept: 3,
        served: Served::Ran(0),
    },
    Case {
        with_memory: 1,
        asked: 0,
        kept: 0,
        served: Served::Ran(0),
    },
];

// What serving the one ask of a desk comes to, and finishing the desk then.
fn served_once<R: Threads + Wait + AllocGlobal + Sync>(
    rt: &R,
    case: &Case,
) -> Result<(Served, DeskEnd<TickJob>), NoMemory> {
    let alloc = rt.alloc();
    let mut alone = team(alloc, 1)?;
    let job = TickJob::of_rounds(alloc, 1, case.with_memory)?;
    let TwoCallers {
        desk,
        mut first,
        second,
    } = callers_of(alloc, job, TickJob::of_tasks(alloc, 0)?)?;
    let Ok(_) = desk.ask(rt, &mut first, 0, case.asked) else {
        return Err(NoMemory);
    };
    let served = serve::<_, _, ByThreads, _>(rt, alloc, &desk, &mut first, &mut alone);
    let callers = TwoCallers {
        desk,
        first,
        second,
    };
    Ok((served, finish(rt, alloc, callers)?))
}

// Whether the ask ended with so many rounds, all of them or not.
fn has_ended(run: &DeskRun<TickJob>, case: &Case) -> bool {
    let ask = Ask {
        number: 0,
        caller: 0,
        graph: 0,
        times: case.asked,
    };
    let history = [
        DeskEntry::Asked(ask),
        DeskEntry::Took(0),
        DeskEntry::Ended(0, case.served == Served::Ran(0)),
    ];
    run.history.as_slice() == history.as_slice()
        && run.runs.len() == 1
        && run.runs.get(0).is_some_and(|runs| runs.len() == case.kept)
}

#[test]
fn an_ask_is_cut_only_where_memory_is_refused(rt: HostRuntime) -> Result<(), Fail> {
    for case in &CASES {
        let (served, end) = served_once(&rt, case)?;
        assert_eq!(rt; served, case.served);
        let DeskEnd::Done(run) = end else {
            panic!(rt; "the ask has not ended")
        };
        assert!(rt; has_ended(&run, case));
    }
    Ok(())
}
