// The links of an atom, and the atoms that serve them.
ghost use Rattle.std.specs.Prelude.{◌≡◌, ◌≤◌, ◌<◌, IfErr, OnOk, length};
ghost use Rattle.std.specs.List.{list_any};
ghost use Rattle.dx_base.specs.Members.{Each};
ghost use Rattle.dx_model.specs.Solutions.{AtomFits};
ghost use Rattle.dx_model.specs.Tables.{AllInside, table_of};
ghost use Rattle.dx_schema.specs.Tables.{AreTables, model_tables, tables_of};
ghost use Rattle.dx_schema.specs.Links.{LinkFits};
ghost use Rattle.dx_closing.specs.declared.fault.CloseFault.TheVariants.{TooWide};
ghost use Rattle.dx_closing.specs.Closing.{serves, supplied, through_link, through_links, through_place};
ghost use Rattle.dx_closing.specs.Laws.{IsRoomy, IsWideClosing};

use crate::cells::{chosen_cells, copy_row, filled_cells, has_chosen};
use crate::fault::CloseFault;
use crate::growing::Growing;
use dx_base::Items;
use dx_base::limits::OCCURRENCES;
use dx_model::{Atom, Cell, Link};
use dx_schema::Schema;
use std::alloc::Global;

/// Whether an atom is of the referred table, with the linked cells.
fn serves_link(atom: &Atom, link: &Link, cells: &[Cell]) -> bool
    requires pairs { length link.now.to ≡ length cells.now }
    requires within { atom.now.table ≡ link.now.table → AllInside link.now.to (length atom.now.cells) }
    ensures { result ≡ serves link.now cells.now atom.now }
{
    atom.table == link.table && has_chosen(atom.cells.items(), link.to.items(), cells)
}

/// Whether one of the atoms is of the referred table, with the linked cells.
fn is_served(target: &Schema, atoms: &[Atom], link: &Link, cells: &[Cell]) -> bool
    requires pairs { length link.now.to ≡ length cells.now }
    requires fit { Each atoms.now (AtomFits (model_tables target.now)) }
    requires within { AllInside link.now.to (table_of (model_tables target.now) link.now.table).width }
    ensures { result ≡ list_any (serves link.now cells.now) atoms.now }
{
    atoms.iter().any(|atom| serves_link(atom, link, cells))
}

/// Appends an atom of the referred table with the linked cells.
fn supply(
    alloc: Global,
    target: &Schema,
    growing: &mut Growing,
    link: &Link,
    cells: &[Cell],
) -> Result<(), CloseFault>
    requires table { link.now.table < length (tables_of target.now) }
    requires pairs { length link.now.to ≡ length cells.now }
    requires roomy { IsRoomy (model_tables target.now) growing.old }
    ensures exact { OnOk result (growing.new ≡ supplied (model_tables target.now) growing.old link.now cells.now) }
    ensures roomy { OnOk result (IsRoomy (model_tables target.now) growing.new) }
    ensures wide { IfErr result (λ e. e ≡ TooWide → OCCURRENCES ≤ length growing.old.atoms) }
{
    if growing.atoms.len() >= OCCURRENCES {
        return Err(CloseFault::TooWide);
    }
    let width = target.width(link.table);
    let row = filled_cells(alloc, link.to.items(), cells, width, &mut growing.next)?;
    growing.atoms.push(Atom {
        table: link.table,
        cells: Items::from_vec(row),
    })?;
    Ok(())
}

/// Goes through a link of an atom that has this row.
fn follow_link(
    alloc: Global,
    target: &Schema,
    row: &[Cell],
    growing: &mut Growing,
    link: &Link,
) -> Result<(), CloseFault>
    requires tables { AreTables (tables_of target.now) }
    requires link { LinkFits (model_tables target.now) (length row.now) link.now }
    requires roomy { IsRoomy (model_tables target.now) growing.old }
    ensures exact { OnOk result (growing.new ≡ through_link (model_tables target.now) row.now growing.old link.now) }
    ensures roomy { OnOk result (IsRoomy (model_tables target.now) growing.new) }
    ensures wide { IfErr result (λ e. e ≡ TooWide → IsWideClosing (through_link (model_tables target.now) row.now growing.old link.now)) }
{
    let cells = chosen_cells(alloc, link.from.items(), row)?;
    if is_served(target, growing.atoms.items(), link, cells.as_slice()) {
        return Ok(());
    }
    supply(alloc, target, growing, link, cells.as_slice())
}

/// Goes through these links of an atom that has this row.
fn follow_links(
    alloc: Global,
    target: &Schema,
    row: &[Cell],
    growing: &mut Growing,
    links: &[Link],
) -> Result<(), CloseFault>
    requires tables { AreTables (tables_of target.now) }
    requires links { Each links.now (LinkFits (model_tables target.now) (length row.now)) }
    requires roomy { IsRoomy (model_tables target.now) growing.old }
    ensures exact { OnOk result (growing.new ≡ through_links (model_tables target.now) row.now growing.old links.now) }
    ensures roomy { OnOk result (IsRoomy (model_tables target.now) growing.new) }
    ensures wide { IfErr result (λ e. e ≡ TooWide → IsWideClosing (through_links (model_tables target.now) row.now growing.old links.now)) }
{
    for link in links {
        follow_link(alloc, target, row, growing, link)?;
    }
    Ok(())
}

/// Goes through the atom at a place.
pub fn follow_atom(
    alloc: Global,
    target: &Schema,
    growing: &mut Growing,
    place: usize,
) -> Result<(), CloseFault>
    requires tables { AreTables (tables_of target.now) }
    requires place { place < length growing.old.atoms }
    requires roomy { IsRoomy (model_tables target.now) growing.old }
    ensures exact { OnOk result (growing.new ≡ through_place (model_tables target.now) growing.old place) }
    ensures roomy { OnOk result (IsRoomy (model_tables target.now) growing.new) }
    ensures wide { IfErr result (λ e. e ≡ TooWide → IsWideClosing (through_place (model_tables target.now) growing.old place)) }
{
    let atom = &growing.atoms.items()[place];
    let row = copy_row(alloc, atom.cells.items())?;
    let links = target.links_of(atom.table);
    follow_links(alloc, target, row.as_slice(), growing, links)
}
