// Jobs whose tasks open runs of their own. `job_cases.rt` says how a case is written.

// Runs inside runs.
const NESTED: &str = "\
a row inside a row: pnp ab bc / ppp ab bc -> starts 6
nothing inside: pnp ab bc -> starts 3
an empty run inside: pnp ab bc / - -> starts 3
four runs inside each other: pnp ab bc / pnp ab bc / pnp ab bc / pnp ab bc / ppp ab bc -> starts 15
a chain that closes level by level: n / n / n / n / n / - -> starts 5";

// Several runs inside one.
const BESIDE: &str = "\
three runs beside each other: nnnp ad bd cd / ppp ab bc -> starts 13
parts beside each other: pnp ab bc / pppppppp -> starts 11
two parts that meet: pnp ab bc / pp, meeting 2 -> starts 5
a run that begins by tokens: pnp ab bc / pp bb ab* -> starts 4
three tokens to a task with a run inside: ppcn ab bc cb bd / p, turns 6 -> starts 13
runs that hold the one unit in turn: 1kkkp ad bd cd / ppp ab bc -> starts 13";

// Runs inside that are cut short.
const CUT_INSIDE: &str = "\
a fault inside: pnp ab bc / ppp ab bc, fault 3 -> starts 5, inner
a fault three runs below: pnp ab bc / pnp ab bc / pnp ab bc / ppp ab bc, fault 3 -> starts 9, inner
a run inside that comes to its limit: pnp ab bc / ppp ab bc, limit 2 -> starts 4, inner
a run inside that gets stuck: pnp ab bc / 1tt -> starts 3, inner
parts that wait for the one unit of their run: pnp ab bc / 1ttttgggg ae bf cg dh -> starts 11
a run that isn't gathered: pnp ab bc / ppp ab bc, fault 6 -> starts 5, wide 6";

pub(crate) const TABLES: [&str; 3] = [NESTED, BESIDE, CUT_INSIDE];
