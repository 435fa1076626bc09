// How operations are written: a row for each.
ghost use Rattle.std.specs.Prelude.{◌≡◌, ◌++◌, ◌∷◌, [], ◌<◌, All, IfOk, OnOk, length, map, slice_index_or};
ghost use Rattle.serde_json.specs.Data.{string};
ghost use Rattle.serde_json.specs.View.{view};
ghost use Rattle.graph_plans.specs.PlanRows.{graph_rows, names_of_graphs};
ghost use Rattle.graph_writer.specs.WrittenPlan.{each_data, lines_data, op_text, spread_text, strings_data, text_op_text, with_field, without_field};
ghost use Rattle.graph_writer.specs.inside.Writer.{HasUtf8, HasUtf8Word, IsString, op_text_of};

use crate::pipe_writer::written_pipe;
use graph_plans::{Graph, Op, TextOp};
use outside_io::Bytes;
use serde_json::{Map, Value, put};
use std::alloc::{AllocError, Global};
use std::str;

/// The name of an operation, and its own fields.
#[derive(Drop)]
pub(crate) struct WrittenOp {
    pub name: &'static str,
    pub own: Map<String, Value>,
}

/// The operation of a task, where these are the names of the texts and the modules.
pub(crate) fn written_op(
    alloc: Global,
    texts: &[Bytes],
    modules: &[Graph],
    op: &Op,
) -> Result<WrittenOp, AllocError>
    requires { HasUtf8 texts.now (names_of_graphs (map graph_rows modules.now)) op.now }
    ensures { IfOk result (λ written. op_text_of written
        ≡ op_text texts.now (names_of_graphs (map graph_rows modules.now)) op.now) }
{
    match op {
        Op::Input => Ok(bare(alloc, "input")),
        Op::Read(text) => having(
            alloc,
            "read",
            "text",
            string_value(alloc, &texts[*text as usize])?,
        ),
        Op::Text(op) => written_text_op(alloc, op),
        Op::Match => Ok(bare(alloc, "match")),
        Op::Back => Ok(bare(alloc, "back")),
        Op::IfMore(lines) => having(alloc, "ifmore", "n", Value::from(*lines)),
        Op::IfHas(word) => having(alloc, "ifhas", "word", string_value(alloc, word)?),
        Op::Route(words) => having(
            alloc,
            "route",
            "words",
            strings_value(alloc, words.as_slice())?,
        ),
        Op::Spread(lines, each) => written_spread(alloc, *lines, each),
        Op::Module(module) => having(
            alloc,
            "module",
            "module",
            string_value(alloc, &modules[*module as usize].name)?,
        ),
        Op::Pipe(plan) => written_pipe(alloc, plan),
    }
}

// The parts that an operation makes, and what becomes of each.
fn written_spread(alloc: Global, lines: u64, each: &TextOp) -> Result<WrittenOp, AllocError>
    requires { HasUtf8Word each.now }
    ensures { IfOk result (λ written. op_text_of written ≡ spread_text lines each.now) }
{
    let each = each_value(alloc, each)?;
    let mut spread = having(alloc, "spread", "n", Value::from(lines))?;
    put(&mut spread.own, alloc, "each", each)?;
    Ok(spread)
}

// An operation on one text, as an object.
fn each_value(alloc: Global, op: &TextOp) -> Result<Value, AllocError>
    requires { HasUtf8Word op.now }
    ensures { IfOk result (λ value. view value ≡ each_data op.now) }
{
    let written = written_text_op(alloc, op)?;
    let mut members = written.own;
    put(
        &mut members,
        alloc,
        "op",
        Value::try_from_str(alloc, written.name)?,
    )?;
    Ok(Value::Object(members))
}

/// An operation on one text.
pub(crate) fn written_text_op(alloc: Global, op: &TextOp) -> Result<WrittenOp, AllocError>
    requires { HasUtf8Word op.now }
    ensures { IfOk result (λ written. op_text_of written ≡ text_op_text op.now) }
{
    match op {
        TextOp::Pass => Ok(bare(alloc, "pass")),
        TextOp::Keep(word) => having(alloc, "keep", "word", string_value(alloc, word)?),
        TextOp::Without(word) => having(alloc, "without", "word", string_value(alloc, word)?),
        TextOp::Head(lines) => having(alloc, "head", "n", Value::from(*lines)),
        TextOp::Tail(lines) => having(alloc, "tail", "n", Value::from(*lines)),
        TextOp::Skip(lines) => having(alloc, "skip", "n", Value::from(*lines)),
        TextOp::Sort => Ok(bare(alloc, "sort")),
        TextOp::Uniq => Ok(bare(alloc, "uniq")),
        TextOp::Count => Ok(bare(alloc, "count")),
        TextOp::Tally => Ok(bare(alloc, "tally")),
    }
}

/// An operation without a field of its own.
pub(crate) fn bare(alloc: Global, name: &'static str) -> WrittenOp
    ensures { op_text_of result ≡ without_field name.now }
{
    WrittenOp {
        name,
        own: Map::new(alloc),
    }
}

/// An operation with one field of its own.
pub(crate) fn having(
    alloc: Global,
    name: &'static str,
    field: &str,
    content: Value,
) -> Result<WrittenOp, AllocError>
    ensures { IfOk result (λ written. op_text_of written
        ≡ with_field name.now field.now (view content)) }
{
    let mut own = Map::new(alloc);
    put(&mut own, alloc, field, content)?;
    Ok(WrittenOp { name, own })
}

/// These bytes, which are UTF-8, as a string.
#[tactic(auto, using(crate::proofs::WritingLemmas::utf8_of))]
pub(crate) fn string_value(alloc: Global, bytes: &Bytes) -> Result<Value, AllocError>
    requires { IsString bytes.now }
    ensures { IfOk result (λ value. view value ≡ string bytes.now) }
{
    let Ok(text) = str::from_utf8(bytes.as_slice()) else {
        unreachable!()
    };
    Value::try_from_str(alloc, text)
}

fn strings_value(alloc: Global, words: &[Bytes]) -> Result<Value, AllocError>
    requires { All IsString words.now }
    ensures { IfOk result (λ value. view value ≡ strings_data words.now) }
{
    let mut values = Vec::new(alloc);
    for word in words {
        values.push(string_value(alloc, word)?)?;
    }
    Ok(Value::Array(values))
}
