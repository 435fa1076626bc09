// The pitfall check of nets of 1,000,000 tasks and 8,000,000 edges.
ghost use Rattle.std.specs.Prelude.{IsTrue};
ghost use Rattle.pitfall_check.specs.Pitfalls.{BeginsWithoutTokens};

use crate::clock::micros_since;
use crate::nets::{NetKind, net_of};
use pitfall_check::check;
use std::alloc::{AllocError, Global};
use std::io;
use std::time::Instant;
use task_graph::Net;

const KINDS: [(NetKind, &str); 4] = [
    (NetKind::Random, "edges at random"),
    (NetKind::Conditions, "a third of the tasks conditions"),
    (NetKind::RandomLater, "edges to later tasks at random"),
    (NetKind::Ring, "edges to the next tasks, in a ring"),
];

/// Prints how long the building and the check of each kind of net take.
pub fn measure(rt: &HostRuntime) -> io::Result<()> {
    for (kind, name) in &KINDS {
        let start = Instant::now(rt)?;
        let net = net_of(rt.alloc(), *kind, 1_000_000, 8_000_000)?;
        let built = micros_since(rt, start)?;
        let start = Instant::now(rt)?;
        let count = count_findings(rt.alloc(), &net)?;
        let checked = micros_since(rt, start)?;
        println!(rt; "{name}: built in {built} us, {count} findings in {checked} us")?;
    }
    Ok(())
}

// How many findings a net has; 0 where an edge begins with a token.
fn count_findings(alloc: Global, net: &Net) -> io::Result<usize> {
    if !begins_without_tokens(net) {
        return Ok(0);
    }
    match check(alloc, net) {
        Ok(findings) => Ok(findings.len()),
        Err(_) => Err(AllocError.into()),
    }
}

fn begins_without_tokens(net: &Net) -> bool
    ensures { IsTrue result → BeginsWithoutTokens net.now }
{
    net.edges().iter().all(|edge| !edge.start)
}
