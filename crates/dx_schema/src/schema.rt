// A schema: sets, and the tables that they make.
ghost use Rattle.std.specs.Prelude.{◌≡◌, ◌<◌, ◌≤◌, ◌↔◌, ◌⊎◌, [], length, map, IfOk, IfErr, OnOk, IfSome, IsSome, IsTrue, slice_index_or};
ghost use Rattle.dx_base.specs.declared.limits.TheConstants.{TABLES, COLUMNS};
ghost use Rattle.dx_base.specs.Members.{◌∈◌, Each};
ghost use Rattle.dx_model.specs.Tables.{DeterminationsFit, table_of};
ghost use Rattle.dx_schema.specs.Forest.{forest_of};
ghost use Rattle.dx_schema.specs.Tables.{count, tables_of, schema_table, tree_at, model_tables, schema_widths, AreTables, IsLink};
ghost use Rattle.dx_schema.specs.Bounds.{HasFewRules, HasSmallNumbers};
ghost use Rattle.dx_schema.specs.Links.{every_link, IsAcyclic, IsFaultless, IsFirstSchemaFault};
ghost use Rattle.dx_schema.specs.declared.fault.SchemaFault.TheVariants.{Memory};

use crate::build::checked_tables;
use crate::fault::SchemaFault;
use crate::nodes::tree_numbered;
use crate::sets::{SetTree, Trees};
use crate::tables::Table;
use dx_base::Text;
use dx_model::{Dep, Key, Link};
use std::alloc::{AllocError, Global};
use std::marker::Model;

/// A schema. A contract sees it as the forest of its sets. Tables and their columns are counted from 0.
#[derive(Drop)]
pub struct Schema {
    trees: Trees,
    tables: Vec<Table>,
}

impl Model for Schema {
    ghost use Rattle.std.specs.Prelude.{◌≡◌};
    ghost use Rattle.dx_schema.specs.Forest.{Forest, forest_code};
    ghost use Rattle.dx_schema.specs.Tables.{tables_of};
    ghost use Rattle.dx_schema.specs.Bounds.{HasFewRules};
    ghost use Rattle.dx_schema.specs.Links.{IsFaultless};

    ghost Value = { Forest };

    ghost coded = { forest_code };

    ghost view = { λ s. s.trees };

    ghost invariant = { λ s. (s.tables.items ≡ tables_of s.trees) × IsFaultless s.trees × HasFewRules s.trees };
}

// The number of a name. None if it isn't there.
fn number_in(names: &[Text], name: &Text) -> Option<u32>
    requires { length names.now ≤ COLUMNS }
    ensures some { IfSome result (λ n. (n < length names.now) × (slice_index_or names.now n [] ≡ name.now)) }
    ensures none { IsSome result ↔ (name.now ∈ names.now) }
{
    match names.iter().position(|other| other.is(name)) {
        Some(number) => Some(number as u32),
        None => None,
    }
}

impl Schema {
    /// The schema of sets.
    ///
    /// # Errors
    ///
    /// The first fault of this order: `TooMany`, or `Bad` with its kind. `Memory` if there is no memory, which may
    /// come at any point.
    ///
    /// 1. `TooMany`: more than 64 sets; a set more than 16 levels deep.
    /// 2. Set by set, an inner set after its outer one: its name is that of an earlier set (`DoubleName`); it has no
    ///    column (`NoColumn`); its table has more than 64 columns (`TooMany`); a name stands twice among `#id`, `#up`,
    ///    its columns and its inner sets (`DoubleName`).
    /// 3. Set by set, each key, then each dependency and then each ref: a list is empty (`BadLink`); a column isn't one
    ///    of the set (`UnknownName`), or stands twice in its list (`DoubleName`), of a dependency the left list first;
    ///    the set that is referred to isn't there (`UnknownName`); a referred column isn't one of that set
    ///    (`UnknownName`), or stands twice (`DoubleName`); the two lists of a ref have different length (`BadLink`).
    /// 4. Links lead from a set back to it (`CyclicLinks`).
    pub fn build(alloc: Global, trees: Trees) -> Result<Schema, SchemaFault>
        requires few { HasFewRules trees }
        ensures ok { IfOk result (λ s. s ≡ trees) }
        ensures faultless { OnOk result (IsFaultless trees) }
        ensures fault { IfErr result (λ e. (e ≡ Memory) ⊎ IsFirstSchemaFault trees e) }
    {
        let tables = checked_tables(alloc, &trees)?;
        Ok(Schema { trees, tables })
    }

    /// How many tables there are.
    pub fn tables(&self) -> u32
        ensures count { result ≡ length (tables_of self.now) }
        ensures facts { AreTables (tables_of self.now) }
        ensures fits { DeterminationsFit (model_tables self.now) }
        ensures acyclic { IsAcyclic (model_tables self.now) }
        ensures numbers { Each (tables_of self.now) HasSmallNumbers }
    {
        self.tables.len() as u32
    }

    /// The widths of the tables, in order.
    ///
    /// # Errors
    ///
    /// `AllocError` if there is no memory.
    pub fn widths(&self, alloc: Global) -> Result<Vec<u32>, AllocError>
        ensures all { IfOk result (λ ws. ws.items ≡ schema_widths self.now) }
        ensures within { Each (schema_widths self.now) (λ w. (1 ≤ w) × (w ≤ COLUMNS)) }
        ensures few { length (schema_widths self.now) ≤ TABLES }
    {
        let mut widths = Vec::new(alloc);
        for table in 0..self.tables() {
            widths.push(self.width(table))?;
        }
        Ok(widths)
    }

    /// The name of a table.
    pub fn name(&self, table: u32) -> &Text
        requires { table < length (tables_of self.now) }
        ensures { result.now ≡ (schema_table self.now table).name }
    {
        &self.tables[table as usize].name
    }

    /// How many columns a table has.
    pub fn width(&self, table: u32) -> u32
        requires { table < length (tables_of self.now) }
        ensures number { result ≡ length (schema_table self.now table).columns }
        ensures some { 1 ≤ result }
        ensures few { result ≤ COLUMNS }
    {
        self.tables[table as usize].columns.len() as u32
    }

    /// The names of a table's columns.
    pub fn columns(&self, table: u32) -> &[Text]
        requires { table < length (tables_of self.now) }
        ensures names { result.now ≡ (schema_table self.now table).columns }
        ensures few { length result.now ≤ COLUMNS }
    {
        self.tables[table as usize].columns.items()
    }

    /// The name of a column.
    pub fn column_name(&self, table: u32, column: u32) -> &Text
        requires table { table < length (tables_of self.now) }
        requires column { column < length (schema_table self.now table).columns }
        ensures { result.now ≡ slice_index_or (schema_table self.now table).columns column [] }
    {
        &self.columns(table)[column as usize]
    }

    /// The table of this name. None if there is none.
    pub fn table_named(&self, name: &Text) -> Option<u32>
        ensures some { IfSome result (λ t. (t < length (tables_of self.now)) × ((schema_table self.now t).name ≡ name.now)) }
        ensures none { IsSome result ↔ (name.now ∈ map (λ t. t.name) (tables_of self.now)) }
    {
        match self.tables.iter().position(|table| table.name.is(name)) {
            Some(number) => Some(number as u32),
            None => None,
        }
    }

    /// The column of this name. None if there is none.
    pub fn column_named(&self, table: u32, name: &Text) -> Option<u32>
        requires { table < length (tables_of self.now) }
        ensures some { IfSome result (λ c. (c < length (schema_table self.now table).columns)
            × (slice_index_or (schema_table self.now table).columns c [] ≡ name.now)) }
        ensures none { IsSome result ↔ (name.now ∈ (schema_table self.now table).columns) }
    {
        number_in(self.columns(table), name)
    }

    /// The keys of a table.
    pub fn keys_of(&self, table: u32) -> &[Key]
        requires { table < length (tables_of self.now) }
        ensures { result.now ≡ (schema_table self.now table).keys }
    {
        self.tables[table as usize].keys.items()
    }

    /// The dependencies of a table.
    pub fn deps_of(&self, table: u32) -> &[Dep]
        requires { table < length (tables_of self.now) }
        ensures { result.now ≡ (schema_table self.now table).deps }
    {
        self.tables[table as usize].deps.items()
    }

    /// The links of a table.
    pub fn links_of(&self, table: u32) -> &[Link]
        requires { table < length (tables_of self.now) }
        ensures { result.now ≡ (schema_table self.now table).links }
    {
        self.tables[table as usize].links.items()
    }

    /// The optional links of a table.
    pub fn optional_links_of(&self, table: u32) -> &[Link]
        requires { table < length (tables_of self.now) }
        ensures { result.now ≡ (schema_table self.now table).optional }
    {
        self.tables[table as usize].optional.items()
    }

    /// How many links a table has, optional ones too.
    pub fn count_links(&self, table: u32) -> u32
        requires { table < length (tables_of self.now) }
        ensures { result ≡ length (every_link (table_of (model_tables self.now) table)) }
    {
        let own = &self.tables[table as usize];
        (own.links.len() + own.optional.len()) as u32
    }

    /// A link of a table by its number, if optional links come after the others.
    pub fn link(&self, table: u32, number: u32) -> &Link
        requires table { table < length (tables_of self.now) }
        requires number { number < length (every_link (table_of (model_tables self.now) table)) }
        ensures link { result.now ≡ slice_index_or (every_link (table_of (model_tables self.now) table)) number
            (record { from = []; table = 0; to = [] }) }
        ensures is { IsLink (tables_of self.now) (length (schema_table self.now table).columns) result.now }
    {
        let own = &self.tables[table as usize];
        let links = own.links.items();
        let place = number as usize;
        if place < links.len() {
            &links[place]
        } else {
            &own.optional.items()[place - links.len()]
        }
    }

    /// The table of the set that a table's set is an inner set of. None for a set of the top level.
    pub fn parent(&self, table: u32) -> Option<u32>
        requires { table < length (tables_of self.now) }
        ensures { result ≡ (schema_table self.now table).parent }
    {
        self.tables[table as usize].parent
    }

    /// The tables of a set's inner sets, in order.
    pub fn inner(&self, table: u32) -> &[u32]
        requires { table < length (tables_of self.now) }
        ensures { result.now ≡ (schema_table self.now table).inner }
    {
        self.tables[table as usize].inner.items()
    }

    /// Whether a table has the column `#id`, which it has if its set has inner sets.
    pub fn has_id(&self, table: u32) -> bool
        requires { table < length (tables_of self.now) }
        ensures { IsTrue result ↔ (0 < length (schema_table self.now table).inner) }
    {
        !self.inner(table).is_empty()
    }

    /// The set of a table, with its inner sets.
    pub fn tree(&self, table: u32) -> &SetTree
        requires { table < length (tables_of self.now) }
        ensures tree { result.now ≡ tree_at self.now table }
        ensures few { count result.now.inner < TABLES }
    {
        tree_numbered(&self.trees, table)
    }

    /// The sets that the schema was built of.
    pub fn trees(&self) -> &[SetTree]
        ensures { forest_of result.now ≡ self.now }
    {
        self.trees.items()
    }
}
