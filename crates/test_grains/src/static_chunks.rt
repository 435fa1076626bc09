// Static chunks as a job.
use crate::samples::Visits;
use grain_tasks::{ChunkJob, GrainError};
use run_frame::Job;
use std::sync::Arc;
use std::test::Fail;

#[test]
fn a_job_has_a_task_for_each_chunk(rt: HostRuntime) -> Result<(), Fail> {
    for (count, grain, tasks) in [
        (0, 1, 0),
        (5, 2, 3),
        (65_536, 1, 65_536),
        (65_537, 2, 32_769),
    ] {
        let fold = Arc::new(rt.alloc(), Visits { count })?;
        match ChunkJob::new(rt.alloc(), fold, count, grain) {
            Ok(job) => assert_eq!(rt; job.net().tasks().len(), tasks),
            Err(_) => assert!(rt; false),
        }
    }
    let fold = Arc::new(rt.alloc(), Visits { count: 65_537 })?;
    let zero = ChunkJob::new(rt.alloc(), Arc::try_clone(&fold)?, 65_537, 0);
    assert!(rt; matches!(zero, Err(GrainError::ZeroGrain)));
    let many = ChunkJob::new(rt.alloc(), fold, 65_537, 1);
    assert!(rt; matches!(many, Err(GrainError::TooMany(65_537))));
    Ok(())
}
