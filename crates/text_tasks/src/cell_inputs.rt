// What a cell of a pipeline finds along its line and along its pipe.
ghost use Rattle.std.specs.Prelude.{◌≡◌, false, slice_index_or};
ghost use Rattle.std.specs.Option.{option_copied};
ghost use Rattle.text_tasks.specs.inside.Finding.{founds};
ghost use Rattle.text_tasks.specs.inside.CellInputs.{found_or, has_tag, input_tagged, next_place_of};

use crate::item::Item;
use join_words::{Given, Ins};

// The first of the inputs of these edges that came along a pipe, or else along a line.
pub(crate) fn input_along<'i>(
    along_pipe: &[bool],
    edges: &[u32],
    ins: &'i Ins<Item>,
    pipe: bool,
) -> Option<&'i Given<Item>>
    ensures { found_or (option_copied result)
        ≡ input_tagged along_pipe.now pipe edges.now (founds ins.now) }
{
    for place in 0..edges.len() {
        if leads_along(along_pipe, edges[place], pipe) {
            return ins.get(place);
        }
    }
    None
}

// Whether an edge leads along a pipe, or else along a line.
fn leads_along(along_pipe: &[bool], edge: u32, pipe: bool) -> bool
    ensures { result ≡ has_tag along_pipe.now pipe edge }
{
    is_along_pipe(along_pipe, edge) == pipe
}

// Whether an edge leads along a pipe.
fn is_along_pipe(along_pipe: &[bool], edge: u32) -> bool
    ensures { result ≡ slice_index_or along_pipe.now edge false }
{
    match along_pipe.get(edge as usize) {
        Some(along) => *along,
        None => false,
    }
}

// The place after that of an input, the first one without a value. It stays at the greatest u64.
pub(crate) fn next_place(input: Option<&Given<Item>>) -> u64
    ensures { result ≡ next_place_of (found_or (option_copied input.entry)) }
{
    match input {
        Some(Given::Value(_, item)) => item.place().saturating_add(1),
        _ => 0,
    }
}
