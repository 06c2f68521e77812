// What rules are matched against.
use dx_funcs::Host;
use dx_instance::Numbers;

/// The rows of a source, and what computes the conversions of rules.
#[derive(Drop)]
pub(crate) struct Source<'a, 'n, F, M> {
    pub(crate) rows: &'a Numbers<'n>,
    pub(crate) host: &'a Host<F, M>,
}
