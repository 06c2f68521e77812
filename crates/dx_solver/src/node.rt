// Nodes of a search.
ghost use Rattle.std.specs.Prelude.{◌≡◌, ◌<◌, ◌^◌, ◌⊎◌, ℕ, IfOk, length, slice_index_or};
ghost use Rattle.dx_base.specs.Members.{◌∈◌};
ghost use Rattle.dx_solver.specs.Domains.{DomainHas, IsBranched, Keeps, domain_size, weight};
ghost use Rattle.dx_solver.specs.declared.domain.Domain.TheVariants.{Any, One, Many};

use crate::domain::Domain;
use crate::values::Values;
use std::alloc::{AllocError, Global};

/// What each variable can still become, and which one was changed last, if it is one alone.
#[derive(Drop)]
pub(crate) struct Node {
    pub domains: Vec<Domain>,
    pub changed: Option<u32>,
}

impl Node {
    /// A copy with another domain for a variable.
    ///
    /// # Errors
    ///
    /// `AllocError` if there is no memory.
    pub(crate) fn with(
        &self,
        alloc: Global,
        variable: u32,
        domain: Domain,
    ) -> Result<Node, AllocError>
        requires { variable < length self.now.domains.items }
        ensures kept { IfOk result (λ node. (a : ℕ → ℕ) → Keeps self.now.domains.items a → DomainHas domain (a variable)
            → Keeps node.domains.items a) }
        ensures many { IfOk result (λ node. length node.domains.items ≡ length self.now.domains.items) }
        ensures lighter { IfOk result (λ node. domain_size (2 ^ 32) domain < domain_size (2 ^ 32)
            (slice_index_or self.now.domains.items variable Any)
            → weight (2 ^ 32) node.domains.items < weight (2 ^ 32) self.now.domains.items) }
    {
        let mut domains = copies(alloc, &self.domains)?;
        domains[variable as usize] = domain;
        Ok(Node {
            domains,
            changed: Some(variable),
        })
    }
}

/// Copies of domains.
///
/// # Errors
///
/// `AllocError` if there is no memory.
pub(crate) fn copies(alloc: Global, domains: &[Domain]) -> Result<Vec<Domain>, AllocError>
    ensures { IfOk result (λ v. v.items ≡ domains.now) }
{
    let mut all = Vec::with_capacity(alloc, domains.len())?;
    for domain in domains {
        all.push(domain.copy(alloc)?)?;
    }
    Ok(all)
}

// All but the first of the numbers.
fn rest_of(alloc: Global, values: &Values) -> Result<Domain, AllocError>
    requires { 1 < length values.now }
    ensures all { IfOk result (λ d. (n : ℕ) → n ∈ values.now → DomainHas (One (slice_index_or values.now 0 0)) n ⊎ DomainHas d n) }
    ensures few { IfOk result (λ d. domain_size (2 ^ 32) d < length values.now) }
{
    let items = values.items();
    let mut rest = Vec::with_capacity(alloc, items.len())?;
    rest.extend_from_slice(&items[1..])?;
    Ok(Domain::of(rest))
}

/// Two nodes for a variable of which two numbers or more are left: one in which it has the first of them, and before it one in
/// which it has another.
///
/// # Errors
///
/// `AllocError` if there is no memory.
pub(crate) fn fork(
    alloc: Global,
    node: &Node,
    variable: u32,
    values: &Values,
    nodes: &mut Vec<Node>,
) -> Result<(), AllocError>
    requires variable { variable < length node.now.domains.items }
    requires values { slice_index_or node.now.domains.items variable Any ≡ Many values.now }
    requires many { 1 < length values.now }
    ensures { IfOk result (λ _. IsBranched (λ a. Unit {0}) node.now nodes.old.items nodes.new.items) }
{
    let first = values.items()[0];
    let rest = rest_of(alloc, values)?;
    let other = node.with(alloc, variable, rest)?;
    let one = node.with(alloc, variable, Domain::One(first))?;
    nodes.push(other)?;
    nodes.push(one)?;
    Ok(())
}
