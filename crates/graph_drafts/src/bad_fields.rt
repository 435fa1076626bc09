// The refusals of fields.
ghost use Rattle.std.specs.Prelude.{◌≡◌, ◌≢◌};

use crate::refusals::GraphError;
use graph_plans::Spot;
use outside_io::Bytes;
use std::alloc::Global;

/// The refusal of a field's content, of a missing field or of an unknown one.
pub(crate) fn bad_field(alloc: Global, spot: Spot, field: &str) -> GraphError
    ensures { result ≢ GraphError.NoMemory → result ≡ GraphError.BadField spot field.now }
{
    match Bytes::from_slice(alloc, field.as_bytes()) {
        Ok(field) => GraphError::BadField(spot, field),
        Err(_) => GraphError::NoMemory,
    }
}

/// The refusal of a name that nothing has.
pub fn no_such_name(alloc: Global, spot: Spot, field: &str) -> GraphError
    ensures { result ≢ GraphError.NoMemory → result ≡ GraphError.NoSuchName spot field.now }
{
    match Bytes::from_slice(alloc, field.as_bytes()) {
        Ok(field) => GraphError::NoSuchName(spot, field),
        Err(_) => GraphError::NoMemory,
    }
}

/// The refusal of a name that an earlier field has.
pub fn repeated(alloc: Global, spot: Spot, field: &str) -> GraphError
    ensures { result ≢ GraphError.NoMemory → result ≡ GraphError.Repeated spot field.now }
{
    match Bytes::from_slice(alloc, field.as_bytes()) {
        Ok(field) => GraphError::Repeated(spot, field),
        Err(_) => GraphError::NoMemory,
    }
}
