// Names by their first appearance.
ghost use Rattle.std.specs.Prelude.{◌≡◌, ◌+◌, ◌-◌, ◌^◌, ◌<◌, [], true, false, IfOk, OnOk, MatchOption, length};
ghost use Rattle.dx_schema.specs.Faults.{is_among};
ghost use Rattle.dx_schema.specs.Tables.{number_of_name};
ghost use Rattle.dx_tgd_text.specs.Numbering.{appeared, unknown_names, new_names, text_cells, with_name};

use dx_base::Text;
use dx_schema_text::{AtomText, CellText};
use indexmap::IndexSet;
use std::alloc::{AllocError, Global};
use std::marker::Model;

/// Distinct names in the order of their first appearance. A contract sees their list.
#[derive(Drop)]
pub struct Names {
    names: IndexSet<Text>,
}

impl Model for Names {
    ghost use Rattle.std.specs.Prelude.{ℕ, List, ◌<◌, ◌^◌, length};

    ghost Value = { List (List ℕ) };

    ghost view = { λ n. n.names.keys };

    ghost invariant = { λ n. length n.names.keys < 2 ^ 32 };
}

impl Names {
    /// No names.
    pub fn new(alloc: Global) -> Names
        ensures { result ≡ [] }
    {
        Names {
            names: IndexSet::new(alloc),
        }
    }

    /// How many names there are.
    pub fn len(&self) -> u32
        ensures { result ≡ length self.now }
    {
        self.names.len() as u32
    }

    /// The number of a name. None if it isn't there.
    pub fn find(&self, name: &Text) -> Option<u32>
        ensures { MatchOption result (is_among name.now self.now ≡ false)
            (λ n. (is_among name.now self.now ≡ true) × (n ≡ number_of_name name.now self.now) × (n < length self.now)) }
    {
        match self.names.get_index_of(name) {
            Some(number) => Some(number as u32),
            None => None,
        }
    }

    /// The number of a name. How many names there are if it isn't there.
    pub fn number(&self, name: &Text) -> u32
        ensures { result ≡ number_of_name name.now self.now }
    {
        match self.find(name) {
            Some(number) => number,
            None => self.len(),
        }
    }

    /// A name more, which goes last if it is new.
    ///
    /// # Errors
    ///
    /// `AllocError` if there is no memory.
    pub fn enter(&mut self, name: &Text) -> Result<(), AllocError>
        requires { length self.old < 2 ^ 32 - 1 }
        ensures { OnOk result (self.new ≡ with_name self.old name.now) }
    {
        self.names.insert_full(name.copy()?)?;
        Ok(())
    }

    /// The names in cells that are not known.
    fn enter_new(&mut self, cells: &[CellText], known: &Names) -> Result<(), AllocError>
        requires { length self.old + length cells.now < 2 ^ 32 - 1 }
        ensures { OnOk result (self.new ≡ appeared self.old (new_names known.now cells.now)) }
    {
        for cell in cells {
            if let CellText::Name { name, place: _ } = cell {
                if known.find(name).is_none() {
                    self.enter(name)?;
                }
            }
        }
        Ok(())
    }

    /// The names in atoms that are not known.
    ///
    /// # Errors
    ///
    /// `AllocError` if there is no memory.
    pub fn of_atoms(alloc: Global, atoms: &[AtomText], known: &Names) -> Result<Names, AllocError>
        requires { length (text_cells atoms.now) < 2 ^ 32 - 1 }
        ensures { IfOk result (λ n. n ≡ unknown_names known.now atoms.now) }
    {
        let mut names = Names::new(alloc);
        for atom in atoms {
            names.enter_new(atom.cells.items(), known)?;
        }
        Ok(names)
    }
}
