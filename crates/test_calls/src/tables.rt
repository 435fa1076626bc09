// The tables of the input, line by line.
use crate::calls::row_difference;
use outside_io::NoMemory;
use std::alloc::Global;
use std::sync::Wait;
use std::thread::Threads;

// What the next line of the input belongs to.
#[derive(Clone, Copy)]
enum Part {
    /// A test or a table begins, or there is a comment.
    Outside,
    Graph,
    Call,
    Rows,
}

/// The test that is read, how many rows it had so far, and its table.
#[derive(Drop)]
pub struct Tables {
    test: String,
    rows: u64,
    part: Part,
    graph: String,
    call: String,
}

impl Tables {
    pub fn new(alloc: Global) -> Tables {
        Tables {
            test: String::new(alloc),
            rows: 0,
            part: Part::Outside,
            graph: String::new(alloc),
            call: String::new(alloc),
        }
    }

    /// Takes the next line, and says what is to be printed of it: where a test begins, how many rows the one before
    /// had, and of a row what was seen of its call if that isn't as it says.
    pub fn take<R: Threads + Wait + Sync>(
        &mut self,
        rt: &R,
        alloc: Global,
        line: &str,
    ) -> Result<String, NoMemory> {
        match self.part {
            Part::Outside => return self.begin(alloc, line),
            Part::Graph => match line.strip_prefix("call ") {
                Some(call) => {
                    self.call = String::from_str(alloc, call)?;
                    self.part = Part::Call;
                }
                None => add_line(&mut self.graph, line)?,
            },
            Part::Call if line == "rows" => self.part = Part::Rows,
            Part::Call => add_line(&mut self.call, line)?,
            Part::Rows if line.is_empty() => self.part = Part::Outside,
            Part::Rows => {
                self.rows = self.rows.saturating_add(1);
                return row_difference(rt, alloc, self.graph.as_str(), self.call.as_str(), line);
            }
        }
        Ok(String::new(alloc))
    }

    // Takes a line outside the tables.
    fn begin(&mut self, alloc: Global, line: &str) -> Result<String, NoMemory> {
        if let Some(graph) = line.strip_prefix("graph ") {
            self.graph = String::from_str(alloc, graph)?;
            self.part = Part::Graph;
        }
        let Some(test) = line.strip_prefix("test ") else {
            return Ok(String::new(alloc));
        };
        let counted = self.count(alloc)?;
        self.test = String::from_str(alloc, test)?;
        self.rows = 0;
        Ok(counted)
    }

    /// How many rows the test had, or nothing before the first.
    pub fn count(&self, alloc: Global) -> Result<String, NoMemory> {
        if self.test.is_empty() {
            return Ok(String::new(alloc));
        }
        Ok(format!(in alloc; "{}: {} rows", self.test.as_str(), self.rows)?)
    }
}

// A line more of a graph or a call.
fn add_line(text: &mut String, line: &str) -> Result<(), NoMemory> {
    text.push_str("\n")?;
    text.push_str(line)?;
    Ok(())
}
