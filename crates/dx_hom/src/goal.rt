// Where facts are to go.
use crate::gone::Gone;
use dx_instance::{Instance, NullMap};
use dx_model::Fact;

/// Where facts are to go: the instance, which of its facts are taken out, the nulls whose values are fixed, and a fact that may
/// not be met.
#[derive(Drop)]
pub(crate) struct Goal<'a> {
    pub into: &'a Instance,
    pub gone: &'a Gone,
    pub fixed: &'a NullMap,
    pub avoid: Option<&'a Fact>,
}
