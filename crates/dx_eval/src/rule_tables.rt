// The match tables of a script, at one of its rules.
ghost use Rattle.std.specs.Prelude.{◌<◌, length};
ghost use Rattle.dx_base.specs.Members.{Each};
ghost use Rattle.dx_joins.specs.Shown.{AllTexts};

use dx_instance::{Rows, Symbols};

/// The match tables of a script, as rows of numbers that stand for texts, and a rule of which one of them is.
#[derive(Clone, Copy)]
pub(crate) struct RuleTables<'a> {
    pub(crate) rule: u32,
    pub(crate) tables: &'a [Rows],
    pub(crate) symbols: &'a Symbols,
    ghost there: { rule < length tables.now },
    ghost texts: { Each tables.now (λ t. Each t.rows (AllTexts symbols.now)) },
}
