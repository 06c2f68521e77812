// Facts in little memory.
ghost use Rattle.std.specs.Prelude.{◌≡◌, ◌<◌, ◌++◌, ◌∷◌, [], ◌≤◌, IfOk, OnOk, Some, length, map, slice_get};
ghost use Rattle.dx_model.specs.declared.values.Value.TheVariants.{Const};
ghost use Rattle.dx_model.specs.declared.facts.Fact.{Fact as OneFact};
ghost use Rattle.dx_json.specs.Lines.{constants_in};

use crate::texts::{SharedTexts, Texts, stored};
use dx_base::Text;
use dx_model::{Fact, Row, Value};
use std::alloc::{AllocError, Global};
use std::marker::Model;

/// A fact: its table, and which texts are the constants of its row.
#[derive(Clone, Copy, Drop)]
pub struct Line {
    pub table: u32,
    pub start: u32,
    pub end: u32,
}

/// A list of facts that grows. A contract sees the list.
#[derive(Drop)]
pub struct FactList {
    texts: Texts,
    lines: Vec<Line>,
}

impl Model for FactList {
    ghost use Rattle.std.specs.Prelude.{List, map};
    ghost use Rattle.dx_model.specs.declared.facts.Fact.{Fact as OneFact};
    ghost use Rattle.dx_base.specs.Members.{Each};
    ghost use Rattle.dx_json.specs.Lines.{IsLine, line_fact};

    ghost Value = { List OneFact };

    ghost view = { λ f. map (line_fact f.texts) f.lines.items };

    ghost invariant = { λ f. Each f.lines.items (IsLine f.texts) };
}

impl FactList {
    /// No facts.
    pub fn new(alloc: Global) -> FactList
        ensures { result ≡ [] }
    {
        FactList {
            texts: Texts::new(alloc),
            lines: Vec::new(alloc),
        }
    }

    /// One fact more, at the end: its table, and the constants of its row. After an error nothing is said of the list.
    pub fn push(&mut self, table: u32, constants: &[Text]) -> Result<(), AllocError>
        ensures { OnOk result (self.new ≡ self.old ++ record { table = table; row = map Const constants.now } ∷ []) }
    {
        let start = stored(self.texts.len())?;
        for text in constants {
            self.texts.push(text.as_str())?;
        }
        let end = stored(self.texts.len())?;
        self.lines.push(Line { table, start, end })?;
        Ok(())
    }

    /// The same facts, whose constants share one buffer.
    pub fn shared(self, alloc: Global) -> Result<Facts, AllocError>
        ensures { IfOk result (λ facts. facts ≡ self) }
    {
        Ok(Facts {
            texts: self.texts.shared(alloc)?,
            lines: self.lines,
        })
    }
}

/// Facts whose constants share one buffer. A contract sees the list of the facts.
#[derive(Drop)]
pub struct Facts {
    texts: SharedTexts,
    lines: Vec<Line>,
}

impl Model for Facts {
    ghost use Rattle.std.specs.Prelude.{List, map};
    ghost use Rattle.dx_model.specs.declared.facts.Fact.{Fact as OneFact};
    ghost use Rattle.dx_base.specs.Members.{Each};
    ghost use Rattle.dx_json.specs.Lines.{IsLine, line_fact};

    ghost Value = { List OneFact };

    ghost view = { λ f. map (line_fact f.texts) f.lines.items };

    ghost invariant = { λ f. Each f.lines.items (IsLine f.texts) };
}

impl Facts {
    /// How many facts there are.
    pub fn len(&self) -> usize
        ensures { result ≡ length self.now }
    {
        self.lines.len()
    }

    /// The table of the fact at a place.
    pub fn table(&self, place: usize) -> u32
        requires { place < length self.now }
        ensures { (fact : OneFact) → slice_get self.now place ≡ Some fact → result ≡ fact.table }
    {
        self.lines[place].table
    }

    /// The fact at a place.
    ///
    /// # Errors
    ///
    /// `AllocError` if there is no memory.
    pub fn fact(&self, alloc: Global, place: usize) -> Result<Fact, AllocError>
        requires { place < length self.now }
        ensures { IfOk result (λ fact. slice_get self.now place ≡ Some fact) }
    {
        let line = self.lines[place];
        let row = row_of(alloc, &self.texts, line.start as usize, line.end as usize)?;
        Ok(Fact {
            table: line.table,
            row,
        })
    }
}

// The row of the constants from a place up to another.
fn row_of(alloc: Global, texts: &SharedTexts, start: usize, end: usize) -> Result<Row, AllocError>
    requires order { start ≤ end }
    requires within { end ≤ length texts.now }
    ensures { IfOk result (λ row. row ≡ constants_in texts.now start end) }
{
    let mut row = Row::new(alloc);
    for place in start..end {
        row.push(Value::Const(texts.text(place)?))?;
    }
    Ok(row)
}
