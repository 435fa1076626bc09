// Jobs whose tasks take and give back units of semaphores. A release that finds no unit is parked. `job_cases.rt` says
// how a case is written.

// Units that tasks hold.
const HELD: &str = "\
one unit that all hold: 1uuuuuuuuuuuuuuuu -> starts 16
three units that all hold: 3uuuuuuuuuuuuuuuu -> starts 16
a join of tasks that hold the unit: 1uuuuu ad bd cd de -> starts 5
two loops whose conditions hold the unit: 1pdppdp ab bb bc de ee ef, turns 10 -> starts 22
three values in one loop, whose conditions hold the unit: 1pddddp ab ac ad be ce de ee ef, turns 6 -> starts 19";

// Units that other tasks give back. Where three tokens lead to the task that takes the unit, it may be parked as they
// come to its one edge.
const GIVEN_BACK: &str = "\
a unit that others give back: 1ttttgggg ae bf cg dh -> starts 8
two units that others give back, and tasks that hold one: 2ttttgggguuuu ae bf cg dh -> starts 12
three tokens to a task that waits for its unit: 1tpcug ab bc cb bd ae, turns 6 -> starts 11
three tokens to a task whose unit another gives back: 1pcccctg ab ac ad be ce de ef fg, turns 9 -> starts 13
a unit that is taken and given back in turn: 1tg ab ba*, limit 20 -> starts 20";

// Two semaphores. Beside tasks that take a unit of one, those that hold both take the unit of the first, find none of
// the second, and put the first one back.
const TWO_SEMAPHORES: &str = "\
two semaphores that all hold: 11hhhhhhhh -> starts 8
two semaphores that some hold, while others take and give back a unit of one: 11tgvwhhhh ab cd -> starts 8
more tasks that hold two semaphores than may start: 11hhhhhhhh, limit 3 -> starts 3";

// Runs that are cut short.
const CUT_SHORT: &str = "\
a unit that none gives back: 1tttppp ad be cf -> starts 2
two units that none gives back: 2tttppp ad be cf -> starts 4
a fault while others wait for a unit: 1tttppp ad be cf, fault 2 -> starts 2, long 2
a fault of a task that holds the unit: 1uuuuuuuuuuuuuuuu, fault 1 -> starts 1, long 1
more tasks that hold the unit than may start: 1uuuuuuuuuuuuuuuu, limit 5 -> starts 5";

// Units that nobody took.
const OVER_RELEASED: &str = "\
a unit that is given back and wasn't taken: 1gp ab -> starts 1, over 0
a unit that is given back twice: 1tgg -> starts 1 to 3, over 0";

pub(crate) const TABLES: [&str; 5] = [HELD, GIVEN_BACK, TWO_SEMAPHORES, CUT_SHORT, OVER_RELEASED];
