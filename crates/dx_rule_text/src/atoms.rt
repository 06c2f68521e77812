// The text of atoms.
ghost use Rattle.std.specs.Prelude.{◌≡◌, ◌++◌, ◌<◌, OnOk, length, string_bytes};
ghost use Rattle.dx_schema.specs.Tables.{tables_of};
ghost use Rattle.dx_rule_text.specs.Printed.{AtomsWithin, atom_text, atoms_text, table_name};

use crate::cells::push_cells;
use dx_model::Atom;
use dx_schema::Schema;
use std::alloc::AllocError;

fn push_atom(atom: &Atom, schema: &Schema, out: &mut String) -> Result<(), AllocError>
    requires { atom.now.table < length (tables_of schema.now) }
    ensures { OnOk result (string_bytes out.new ≡ string_bytes out.old ++ atom_text (table_name schema.now) atom.now) }
{
    out.push_str(schema.name(atom.table).as_str())?;
    out.push_str("(")?;
    push_cells(atom.cells.items(), out)?;
    out.push_str(")")?;
    Ok(())
}

// Atoms, parted by a comma and a space.
pub fn push_atoms(atoms: &[Atom], schema: &Schema, out: &mut String) -> Result<(), AllocError>
    requires { AtomsWithin schema.now atoms.now }
    ensures { OnOk result (string_bytes out.new ≡ string_bytes out.old ++ atoms_text (table_name schema.now) atoms.now) }
{
    let Some((atom, others)) = atoms.split_first() else {
        return Ok(());
    };
    push_atom(atom, schema, out)?;
    for other in others {
        out.push_str(", ")?;
        push_atom(other, schema, out)?;
    }
    Ok(())
}
