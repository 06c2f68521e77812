// Picks: their order, and lists of them.
ghost use Rattle.std.specs.Prelude.{◌≡◌, IfOk};
ghost use Rattle.dx_lines.specs.Ways.{pick_cmp, term_cmp};
ghost use Rattle.dx_lines.specs.Kept.{is_pick_among};

use dx_base::Items;
use dx_lines::{Pick, Term};
use std::alloc::{AllocError, Global};
use std::cmp::Ordering;

/// How two terms compare: variables by number, then conversions by code and arguments.
fn term_order(a: &Term, b: &Term) -> Ordering
    ensures { result ≡ term_cmp a.now b.now }
{
    match (a, b) {
        (Term::Var(x), Term::Var(y)) => x.cmp(y),
        (Term::Var(_), Term::Call { .. }) => Ordering::Less,
        (Term::Call { .. }, Term::Var(_)) => Ordering::Greater,
        (Term::Call { code: c, args: cs }, Term::Call { code: d, args: ds }) => {
            c.cmp(d).then(cs.items().cmp(ds.items()))
        }
    }
}

/// How two picks compare: by the variable that gets the term, then by the term.
pub fn pick_order(a: &Pick, b: &Pick) -> Ordering
    ensures { result ≡ pick_cmp a.now b.now }
{
    a.variable
        .cmp(&b.variable)
        .then(term_order(&a.term, &b.term))
}

/// Whether a pick is one of these.
pub fn is_among(found: &[Pick], pick: &Pick) -> bool
    ensures { result ≡ is_pick_among found.now pick.now }
{
    found.iter().any(|one| pick_order(pick, one).is_eq())
}

/// A term of its own that is the same.
pub fn copy_term(alloc: Global, term: &Term) -> Result<Term, AllocError>
    ensures { IfOk result (λ t. t ≡ term.now) }
{
    match term {
        Term::Var(x) => Ok(Term::Var(*x)),
        Term::Call { code, args } => Ok(Term::Call {
            code: *code,
            args: Items::from_vec(Vec::from_slice(alloc, args.items())?),
        }),
    }
}

/// A pick of its own that is the same.
///
/// # Errors
///
/// `AllocError` if there is no memory.
pub fn copy_pick(alloc: Global, pick: &Pick) -> Result<Pick, AllocError>
    ensures { IfOk result (λ k. k ≡ pick.now) }
{
    Ok(Pick {
        variable: pick.variable,
        term: copy_term(alloc, &pick.term)?,
    })
}
