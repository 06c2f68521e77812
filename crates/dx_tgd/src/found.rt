// Rows of numbers, put in the order of their texts.
ghost use Rattle.std.specs.Prelude.{IfOk, length};
ghost use Rattle.std.specs.List.{AllZip};
ghost use Rattle.dx_base.specs.Members.{Each};
ghost use Rattle.dx_instance.specs.Cells.{IsOrderOf, NumbersAscend};
ghost use Rattle.dx_instance.specs.Numbers.{ValuesAscend};
ghost use Rattle.dx_instance.specs.Shown.{NumbersBelow, renumbered};
ghost use Rattle.dx_joins.specs.Shown.{AllTexts};
ghost use Rattle.dx_tgd.specs.Found.{IsRenumbering};

use dx_instance::{Ordered, Rows, Symbols};
use std::alloc::{AllocError, Global};

/// Symbols, and rows of their numbers in some tables.
#[derive(Drop)]
pub struct Found {
    pub symbols: Symbols,
    pub tables: Vec<Rows>,
}

// The rows under the ranks of their numbers, ascending.
fn ranked(alloc: Global, rows: &Rows, ranks: &[u32]) -> Result<Rows, AllocError>
    requires { Each rows.now.rows (NumbersBelow (length ranks.now)) }
    ensures { IfOk result (IsOrderOf (renumbered ranks.now rows.now)) }
{
    rows.renumbered(alloc, ranks)?.in_order(alloc)
}

// The same for each table.
fn all_ranked(alloc: Global, tables: &[Rows], ranks: &[u32]) -> Result<Vec<Rows>, AllocError>
    requires { Each tables.now (λ t. Each t.rows (NumbersBelow (length ranks.now))) }
    ensures { IfOk result (λ v. AllZip (λ t u. IsOrderOf (renumbered ranks.now t) u) tables.now v.items) }
{
    let mut all = Vec::new(alloc);
    for rows in tables {
        all.push(ranked(alloc, rows, ranks)?)?;
    }
    Ok(all)
}

/// The same tuples, as rows that ascend under symbols that do.
pub(crate) fn one_in_order(
    alloc: Global,
    symbols: Symbols,
    rows: Rows,
) -> Result<(Symbols, Rows), AllocError>
    requires ascend { NumbersAscend rows.rows }
    requires texts { Each rows.rows (AllTexts symbols) }
    ensures ascend { IfOk result (λ p. ValuesAscend p.0) }
    ensures same { IfOk result (λ p. IsRenumbering symbols p.0 rows p.1) }
{
    if symbols.is_ordered() {
        return Ok((symbols, rows));
    }
    let Ordered { symbols, ranks } = symbols.into_order(alloc)?;
    let rows = ranked(alloc, &rows, &ranks)?;
    Ok((symbols, rows))
}

impl Found {
    /// The same tuples in each table, as rows that ascend under symbols that do.
    ///
    /// # Errors
    ///
    /// `AllocError` if there is no memory.
    pub fn in_order(self, alloc: Global) -> Result<Found, AllocError>
        requires ascend { Each self.tables.items (λ t. NumbersAscend t.rows) }
        requires texts { Each self.tables.items (λ t. Each t.rows (AllTexts self.symbols)) }
        ensures ascend { IfOk result (λ f. ValuesAscend f.symbols) }
        ensures same { IfOk result (λ f. AllZip (IsRenumbering self.symbols f.symbols) self.tables.items f.tables.items) }
    {
        let Found { symbols, tables } = self;
        if symbols.is_ordered() {
            return Ok(Found { symbols, tables });
        }
        let Ordered { symbols, ranks } = symbols.into_order(alloc)?;
        let tables = all_ranked(alloc, &tables, &ranks)?;
        Ok(Found { symbols, tables })
    }
}
