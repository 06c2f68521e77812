// The cells of a premise: the first one of each variable, and those that are equal to it.
ghost use Rattle.std.specs.Prelude.{◌≡◌, ◌<◌, ◌≤◌, [], IfOk, OnOk, length};
ghost use Rattle.dx_base.specs.Members.{Each};
ghost use Rattle.dx_model.specs.Rules.{cells_of};
ghost use Rattle.dx_schema.specs.Tables.{schema_table, tables_of};
ghost use Rattle.dx_schema.specs.Names.{table_names_of};
ghost use Rattle.dx_script.specs.Generated.{spots};
ghost use Rattle.dx_scriptgen.specs.Premises.{met as met_of, met_atom, met_spots};

use crate::copies::copy_cell;
use dx_base::Items;
use dx_model::{Atom, Cell};
use dx_schema::Schema;
use dx_script::{CellRef, Equal};
use std::alloc::{AllocError, Global};

/// The first cell of each variable of a premise, and which further cells are equal to it.
#[derive(Drop)]
pub(crate) struct Premise {
    pub(crate) firsts: Items<CellRef>,
    pub(crate) equal: Items<Equal>,
}

impl Premise {
    /// One cell more of a variable.
    fn add(&mut self, variable: u32, cell: CellRef) -> Result<(), AllocError>
        ensures { OnOk result (self.new ≡ met_of variable cell self.old) }
    {
        match self.firsts.items().get(variable as usize) {
            Some(first) => {
                let left = copy_cell(first)?;
                self.equal.push(Equal { left, right: cell })
            }
            None => self.firsts.push(cell),
        }
    }

    /// The cells of one atom more.
    fn add_atom(&mut self, source: &Schema, alias: u32, atom: &Atom) -> Result<(), AllocError>
        requires table { atom.now.table < length (tables_of source.now) }
        requires width { length atom.now.cells ≡ length (schema_table source.now atom.now.table).columns }
        ensures some { 1 ≤ length atom.now.cells }
        ensures met { OnOk result (self.new ≡ met_atom (table_names_of source.now) alias atom.now self.old) }
    {
        let cells = atom.cells.items();
        for column in 0..source.width(atom.table) {
            if let Cell::Var(variable) = &cells[column as usize] {
                let name = source.column_name(atom.table, column).copy()?;
                self.add(
                    *variable,
                    CellRef {
                        alias,
                        column: name,
                    },
                )?;
            }
        }
        Ok(())
    }

    /// The cells of a premise.
    pub(crate) fn of_atoms(
        alloc: Global,
        source: &Schema,
        atoms: &[Atom],
    ) -> Result<Premise, AllocError>
        requires tables { Each atoms.now (λ a. a.table < length (tables_of source.now)) }
        requires widths { Each atoms.now (λ a. length a.cells ≡ length (schema_table source.now a.table).columns) }
        requires few { length (cells_of atoms.now) < 4294967296 }
        ensures { IfOk result (λ p. p ≡ met_spots (spots (table_names_of source.now) 0 atoms.now) (record { firsts = []; equal = [] })) }
    {
        let mut premise = Premise {
            firsts: Items::new(alloc),
            equal: Items::new(alloc),
        };
        for alias in 0..atoms.len() {
            premise.add_atom(source, alias as u32, &atoms[alias])?;
        }
        Ok(premise)
    }
}
