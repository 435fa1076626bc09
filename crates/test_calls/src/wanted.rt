// What rows say is seen of their calls.
use command_line::GREATEST_TIMES;
use outside_io::NoMemory;
use std::alloc::Global;

// What a row names: the rounds of an empty graph, as many as there may be; or what it is, where `|` ends a line.
pub fn wanted_of(alloc: Global, seen: &str) -> Result<String, NoMemory> {
    match seen {
        "1000 ROUNDS" => most_rounds(alloc),
        seen => Ok(seen.replace(alloc, "|", "\n")?),
    }
}

fn most_rounds(alloc: Global) -> Result<String, NoMemory> {
    let mut runs = String::new(alloc);
    let mut lines = String::new(alloc);
    for round in 0..GREATEST_TIMES {
        runs.push_str(", run of 0")?;
        lines.push_str(format!(in alloc; "## round {}\n", round + 1)?.as_str())?;
    }
    Ok(format!(in alloc; "0 written{} [{}] []", runs.as_str(), lines.as_str())?)
}
