// Jobs whose tasks need no unit: joins, choices, loops, tokens that are kept or queue up, limits and faults.
// `job_cases.rt` says how a case is written.

// Tasks that wait for each other.
const JOINS: &str = "\
no task: - -> starts 0
two tasks beside each other: pp -> starts 2
a row: ppppp ab bc cd de -> starts 5
a diamond: pppp ab ac bd cd -> starts 4
double edges before a join and behind it: pppp ac ac bc cd cd -> starts 4
a task that waits for one that never begins: ppp ac bb bc -> starts 1";

// Conditions.
const CHOICES: &str = "\
the first edge of a choice: pcpp ab bc bd, turns 3 -> starts 3
the second edge of a choice: pcpp ab bc bd -> starts 3
the second edge where there is one: cp ab -> starts 1
two loops of nine turns: pcppcp ab bb bc de ee ef, turns 10 -> starts 22
two of four successors, and a task that waits for both: mppppp ab ac ad ae bf df, turns 9 -> starts 4
a task that two others choose: ccpp ac bc cd, turns 9 -> starts 6";

// Tokens that are there at first.
const FIRST_TOKENS: &str = "\
a first token that is used, and one that waits: ppp ab bc bb* -> starts 3
a first token with a value behind it: ppp cb ab* -> starts 3
a first token that starts a task whose other edge gets none: pp aa ab* -> starts 1
tokens that wait, one that is there at first, and some that stay: pppcppp ab bc de df ag eg bb* -> starts 5";

// Tokens that wait at an edge. Of the three values in one loop each goes round until it is 6, so that one that isn't
// found shows in the number of starts.
const WAITING_TOKENS: &str = "\
tokens that stay, since what they wait for isn't chosen: pcppp ae bc bd ce -> starts 3
a weak edge beside a strong one: pcp ac bc, turns 9 -> starts 4
three branches back to a condition, whose one edge gets three tokens: pccccp ab ac ad be ce de ef, turns 9 -> starts 10
three values in one loop: pccccp ab ac ad be ce de ee ef, turns 6 -> starts 19
a diamond in a loop: ppppc ab bc bd ce de eb, turns 30 -> starts 41";

// Runs that come to their limit.
const LIMITS: &str = "\
a row that is cut short: ppppp ab bc cd de, limit 3 -> starts 3
no start at all: ppppp ab bc cd de, limit 0 -> starts 0
more tasks that are ready than may start: pppppppp ag bg ch, limit 5 -> starts 5
a task that starts itself each time, and another: pp ab aa*, limit 20 -> starts 20";

// Loops that their limit alone ends.
const ENDLESS: &str = "\
a loop that its limit alone ends: pc ab bb, limit 12, turns 2097152 -> starts 12
two loops up to a limit that they share: pcppcp ab bb bc de ee ef, limit 100, turns 1000 -> starts 100
a ring up to a limit: pppppppp ab cd ef gh bc* de* fg* ha*, limit 60 -> starts 60
six tasks that turn by themselves before a join, up to a limit: ppppppp ag bg cg dg eg fg aa* bb* cc* dd* ee* ff*, limit 60 -> starts 60";

// Faults.
const FAULTS: &str = "\
a fault of the third task of a row: ppppp ab bc cd de, fault 3 -> starts 3, long 3
a fault in a turn of a loop: pc ab bb, turns 9, fault 7 -> starts 7, long 7
a fault in each of two loops, of which one may be first: pcppcp ab bb bc de ee ef, turns 10, fault 3 -> starts 3 to 6, long 3
a fault beside a task that is ready: pp, fault 1 -> starts 1 to 2, long 1
a fault beside tasks that are started or dropped: pppppp ab bc de, fault 2 -> starts 2 to 6, long 2
a fault of one of two tasks that turn by themselves before a join: ppp ac bc aa* bb*, fault 5 -> starts 5 to 14, long 5";

// Many tasks at once, and tasks that have to meet.
const SIDE_BY_SIDE: &str = "\
a fan of three hundred tasks: pp +300 -> starts 302
two tasks that meet: pp, meeting 2 -> starts 2";

pub(crate) const TABLES: [&str; 8] = [
    JOINS,
    CHOICES,
    FIRST_TOKENS,
    WAITING_TOKENS,
    LIMITS,
    ENDLESS,
    FAULTS,
    SIDE_BY_SIDE,
];
