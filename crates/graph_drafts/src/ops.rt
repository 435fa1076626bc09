// The operations of a graph file: a row for each.
ghost use Rattle.std.specs.Prelude.{◌≡◌, codes, map, option_and_then, option_map};
ghost use Rattle.serde_json.specs.Find.{as_str, get};
ghost use Rattle.json_values.specs.inside.View.{view};
ghost use Rattle.graph_drafts.specs.OpRows.{does, each_in, op_called, op_in, op_rows, spread_in, text_op_in, text_rows, used_by};
ghost use Rattle.graph_drafts.specs.inside.Reading.{Reads, ReadsAs};
ghost use Rattle.graph_drafts.specs.inside.Reader.{found_op, found_text_op};

use crate::bad_fields::bad_field;
use crate::fields::{
    read_lines, read_module_name, read_part_lines, read_text_name, read_word, read_words,
};
use crate::file_op::{FileOp, FoundOp, does, with};
use crate::pipes::read_pipe;
use crate::refusals::GraphError;
use crate::unknown::check_fields;
use graph_plans::{Op, Spot, TextOp};
use json_values::Value;
use std::alloc::Global;

/// The operation of a task, with its own fields.
pub(crate) fn read_op<'v>(
    alloc: Global,
    spot: Spot,
    task: &Value<'v>,
) -> Result<FoundOp<FileOp<'v>>, GraphError>
    ensures { ReadsAs found_op result (op_in op_rows spot (view task.now)) }
{
    let Some(name) = op_name(task) else {
        return Err(bad_field(alloc, spot, "op"));
    };
    read_op_called(alloc, name, spot, task)
}

/// The name in an object's field `op`.
pub(crate) fn op_name<'v>(object: &Value<'v>) -> Option<&'v str>
    ensures { option_map (λ s. s.now) result
        ≡ option_and_then as_str (get (codes "op") (view object.now)) }
{
    object.get("op")?.as_str()
}

// The operation of this name, with its own fields in an object.
#[tactic(auto, unfolding(crate::specs::OpRows::op_rows))]
fn read_op_called<'v>(
    alloc: Global,
    name: &str,
    spot: Spot,
    object: &Value<'v>,
) -> Result<FoundOp<FileOp<'v>>, GraphError>
    ensures { ReadsAs found_op result (op_called op_rows name.now spot (view object.now)) }
{
    Ok(match name {
        "input" => does(&[], Op::Input),
        "read" => with(
            &["text"],
            FileOp::Reads(read_text_name(alloc, spot, object)?),
        ),
        "match" => does(&[], Op::Match),
        "back" => does(&[], Op::Back),
        "ifmore" => does(&["n"], Op::IfMore(read_lines(alloc, spot, object)?)),
        "ifhas" => does(&["word"], Op::IfHas(read_word(alloc, spot, object)?)),
        "route" => does(&["words"], Op::Route(read_words(alloc, spot, object)?)),
        "spread" => does(&["n", "each"], read_spread(alloc, spot, object)?),
        "module" => with(
            &["module"],
            FileOp::Runs(read_module_name(alloc, spot, object)?),
        ),
        "pipe" => does(
            &["lines", "n", "pipes", "defer"],
            read_pipe(alloc, spot, object)?,
        ),
        _ => return read_used_text_op(alloc, name, spot, object),
    })
}

// The parts that an operation makes, and what becomes of each.
fn read_spread(alloc: Global, spot: Spot, object: &Value<'_>) -> Result<Op, GraphError>
    ensures { Reads result (spread_in spot (view object.now)) }
{
    let lines = read_part_lines(alloc, spot, object)?;
    let each = read_each(alloc, spot, object)?;
    Ok(Op::Spread(lines, each))
}

// The operation on each part. Whatever is wrong with it is wrong with the field that holds it.
fn read_each(alloc: Global, spot: Spot, object: &Value<'_>) -> Result<TextOp, GraphError>
    ensures { Reads result (each_in spot (view object.now)) }
{
    let Some(each) = object.get("each") else {
        return Err(bad_field(alloc, spot, "each"));
    };
    match read_own_op(alloc, spot, each) {
        Ok(op) => Ok(op),
        Err(GraphError::NoMemory) => Err(GraphError::NoMemory),
        Err(_) => Err(bad_field(alloc, spot, "each")),
    }
}

// The operation on one text that an object is, and nothing else.
fn read_own_op(alloc: Global, spot: Spot, object: &Value<'_>) -> Result<TextOp, GraphError>
    ensures { Reads result (text_op_in spot (view object.now)) }
{
    let Some(name) = op_name(object) else {
        return Err(bad_field(alloc, spot, "op"));
    };
    let found = read_text_op(alloc, name, spot, object)?;
    check_fields(alloc, spot, object, &["op"], found.fields)?;
    Ok(found.op)
}

// The operation on one text of this name, as a task's.
#[tactic(auto, using(crate::proofs::OpLemmas::op_called_used))]
fn read_used_text_op<'v>(
    alloc: Global,
    name: &str,
    spot: Spot,
    object: &Value<'v>,
) -> Result<FoundOp<FileOp<'v>>, GraphError>
    ensures { ReadsAs found_op result
        (op_called (map (used_by (λ op. does (Op.Text op))) text_rows) name.now spot
        (view object.now)) }
{
    match read_text_op(alloc, name, spot, object) {
        Ok(found) => Ok(does(found.fields, Op::Text(found.op))),
        Err(refusal) => Err(refusal),
    }
}

/// The operation on one text of this name, with its own fields in an object.
#[tactic(auto, unfolding(crate::specs::OpRows::text_rows))]
pub(crate) fn read_text_op(
    alloc: Global,
    name: &str,
    spot: Spot,
    object: &Value<'_>,
) -> Result<FoundOp<TextOp>, GraphError>
    ensures { ReadsAs found_text_op result (op_called text_rows name.now spot (view object.now)) }
{
    Ok(match name {
        "pass" => with(&[], TextOp::Pass),
        "keep" => with(&["word"], TextOp::Keep(read_word(alloc, spot, object)?)),
        "without" => with(&["word"], TextOp::Without(read_word(alloc, spot, object)?)),
        "head" => with(&["n"], TextOp::Head(read_lines(alloc, spot, object)?)),
        "tail" => with(&["n"], TextOp::Tail(read_lines(alloc, spot, object)?)),
        "skip" => with(&["n"], TextOp::Skip(read_lines(alloc, spot, object)?)),
        "sort" => with(&[], TextOp::Sort),
        "uniq" => with(&[], TextOp::Uniq),
        "count" => with(&[], TextOp::Count),
        "tally" => with(&[], TextOp::Tally),
        _ => return Err(bad_field(alloc, spot, "op")),
    })
}
