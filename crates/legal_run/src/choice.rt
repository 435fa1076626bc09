// Which edges an End may give.
ghost use Rattle.std.specs.Prelude.{◌≡◌, ◌↔◌, ◌==◌, ◌<◌, ◌⊎◌, [], length, IsTrue, All};
ghost use Rattle.std.specs.List.{list_any};
ghost use Rattle.task_graph.specs.Net.{out_edges};
ghost use Rattle.journal_rules.specs.ChoiceRule.{AreAmong, GivesFit, InnerFits};

use super::marks::Marks;
use task_graph::{Net, Shape};

/// Whether a task of this shape may give these edges.
pub fn gives_fit(net: &Net, marks: &mut Marks, shape: Shape, task: u32, gives: &[u32]) -> bool
    requires task { task < length net.now.tasks }
    requires edges { All (λ e. e < length net.now.edges) gives.now }
    requires marks { marks.old ≡ length net.now.edges }
    ensures fit { IsTrue result ↔ GivesFit shape (out_edges net.now task) gives.now }
    ensures marks { marks.new ≡ marks.old }
{
    match shape {
        Shape::Plain => are_all_or_none(net, task, gives),
        Shape::Nested => are_all_or_none(net, task, gives),
        Shape::Choice => gives.len() <= 1 && are_out_edges(net, task, gives),
        Shape::Many => marks.are_distinct(gives) && are_out_edges(net, task, gives),
    }
}

/// Whether an End of a task of this shape may be inner.
pub fn inner_fits(shape: Shape, inner: bool) -> bool
    ensures { IsTrue result ↔ InnerFits shape inner }
{
    !inner || shape == Shape::Nested
}

fn are_all_or_none(net: &Net, task: u32, gives: &[u32]) -> bool
    requires { task < length net.now.tasks }
    ensures { IsTrue result ↔ ((gives.now ≡ out_edges net.now task) ⊎ (gives.now ≡ [])) }
{
    gives.is_empty() || gives == net.out_edges(task)
}

// Whether each of these edges leads out of a task.
fn are_out_edges(net: &Net, task: u32, gives: &[u32]) -> bool
    requires { All (λ e. e < length net.now.edges) gives.now }
    ensures { IsTrue result ↔ AreAmong (out_edges net.now task) gives.now }
{
    for edge in gives {
        if !is_out_edge(net, task, *edge) {
            return false;
        }
    }
    true
}

fn is_out_edge(net: &Net, task: u32, edge: u32) -> bool
    requires { edge < length net.now.edges }
    ensures { result ≡ list_any (λ e. e == edge) (out_edges net.now task) }
{
    net.edges()[edge as usize].from == task
}
