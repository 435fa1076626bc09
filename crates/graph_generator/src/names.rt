// The names of generated tasks.
ghost use Rattle.std.specs.Prelude.{◌≡◌, ◌≤◌, ◌++◌, [], ◌∷◌, IfOk, OnOk};
ghost use Rattle.graph_generator.specs.GeneratedPlan.{generated_names, last_names, layer_name, max_layers};

use crate::generated::LAYER_WIDTH;
use outside_io::{Bytes, List, NoMemory, add_numbered};
use std::alloc::Global;

/// The names of the tasks of so many layers.
pub(crate) fn names_of(alloc: Global, layers: usize) -> Result<List<Bytes>, NoMemory>
    requires { layers ≤ max_layers }
    ensures { IfOk result (λ names. names ≡ generated_names layers) }
{
    let mut names = List::new(alloc);
    for task in 0..LAYER_WIDTH * layers {
        names.push(layer_name(alloc, task)?)?;
    }
    add_last_names(alloc, &mut names)?;
    Ok(names)
}

fn layer_name(alloc: Global, task: usize) -> Result<Bytes, NoMemory>
    ensures { IfOk result (λ name. name ≡ layer_name task) }
{
    let mut name = List::new(alloc);
    add_numbered(&mut name, b"g", (task / LAYER_WIDTH) as u64)?;
    add_numbered(&mut name, b"_", (task % LAYER_WIDTH) as u64)?;
    Ok(name)
}

// The names of the tasks behind the layers.
fn add_last_names(alloc: Global, names: &mut List<Bytes>) -> Result<(), NoMemory>
    ensures { OnOk result (names.new ≡ names.old ++ last_names) }
{
    add_name(alloc, names, b"sum")?;
    add_name(alloc, names, b"init")?;
    add_name(alloc, names, b"body")?;
    add_name(alloc, names, b"more")?;
    add_name(alloc, names, b"done")?;
    add_name(alloc, names, b"pr")?;
    add_name(alloc, names, b"pp")
}

fn add_name(alloc: Global, names: &mut List<Bytes>, name: &[u8]) -> Result<(), NoMemory>
    ensures { OnOk result (names.new ≡ names.old ++ name.now ∷ []) }
{
    names.push(List::from_slice(alloc, name)?)?;
    Ok(())
}
