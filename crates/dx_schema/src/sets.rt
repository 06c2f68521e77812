// Sets as they are declared, each with its inner sets.
ghost use Rattle.std.specs.Prelude.{◌≡◌, ◌≤◌, ◌↔◌, OnOk, OnErr, IsTrue, not};
ghost use Rattle.dx_base.specs.declared.limits.TheConstants.{TABLES};
ghost use Rattle.dx_schema.specs.Bounds.{HasFewRules};
ghost use Rattle.dx_schema.specs.Forest.{bare_set, forest_of, followed_by, has_sets, none, set};
ghost use Rattle.dx_schema.specs.Tables.{count};

use crate::nodes::count_sets;
use dx_base::{Items, Text};
use std::alloc::{AllocError, Global};
use std::marker::Model;

// With so many keys and dependencies, or refs, a table may have one that has no number of 32 bits: it may have one key
// and one link more than its set.
const TOO_MANY: u64 = 4_294_967_294;

/// Columns of a set on which no two of its rows agree.
#[derive(Drop)]
pub struct KeyDecl {
    pub columns: Items<Text>,
}

/// Columns of a set that determine others: two of its rows that agree on `columns` agree on `decides`.
#[derive(Drop)]
pub struct DepDecl {
    pub columns: Items<Text>,
    pub decides: Items<Text>,
}

/// Columns of a set that refer to columns of a set. Of an optional one no instance needs to have the row that it refers
/// to.
#[derive(Drop)]
pub struct RefDecl {
    pub columns: Items<Text>,
    pub set: Text,
    pub referred: Items<Text>,
    pub optional: bool,
}

/// A set with its inner sets. A contract sees it as its label, which is all but the inner sets, and these.
#[cycle(trees)]
#[derive(Drop)]
pub struct SetTree {
    pub name: Text,
    pub columns: Items<Text>,
    pub keys: Items<KeyDecl>,
    pub deps: Items<DepDecl>,
    pub refs: Items<RefDecl>,
    pub inner: Trees,
}

/// A list of sets. A contract sees it as a forest.
#[cycle(trees)]
#[derive(Drop)]
pub struct Trees {
    items: Vec<SetTree>,
}

impl Model for SetTree {
    ghost use Rattle.std.proofs.Common.{arith};
    ghost use Rattle.dx_schema.specs.Forest.{Tree, tree_code, tree_size};

    ghost Value = { Tree };

    ghost coded = { tree_code };

    ghost view = { λ a. record {
      label = record { name = a.name; columns = a.columns; keys = a.keys; deps = a.deps; refs = a.refs };
      inner = a.inner;
    } };

    ghost size = { tree_size };

    ghost size_decreases = { λ a h. Prim.omega arith };
}

impl Model for Trees {
    ghost use Rattle.std.proofs.Common.{arith};
    ghost use Rattle.dx_schema.specs.Forest.{Forest, forest_code, forest_of, forest_size, most_le-forest_size};

    ghost Value = { Forest };

    ghost coded = { forest_code };

    ghost view = { λ a. forest_of a.items.items };

    ghost size = { forest_size };

    ghost size_decreases = { λ a h. Prim.omega (arith, most_le-forest_size a.items.items) };
}

impl SetTree {
    /// A set with these columns, without keys, dependencies, refs and inner sets. It takes no memory.
    pub fn new(alloc: Global, name: Text, columns: Items<Text>) -> SetTree
        ensures { result ≡ record { label = bare_set name columns; inner = none } }
    {
        SetTree {
            name,
            columns,
            keys: Items::new(alloc),
            deps: Items::new(alloc),
            refs: Items::new(alloc),
            inner: Trees::new(alloc),
        }
    }
}

impl Trees {
    /// No sets. It takes no memory.
    pub fn new(alloc: Global) -> Trees
        ensures { result ≡ none }
    {
        Trees {
            items: Vec::new(alloc),
        }
    }

    /// Takes a `Vec` over, with no memory.
    pub fn from_vec(items: Vec<SetTree>) -> Trees
        ensures { result ≡ forest_of items.items }
    {
        Trees { items }
    }

    /// One set more, at the end.
    ///
    /// # Errors
    ///
    /// `AllocError` if there is no memory: the list stays as it was, and the set is dropped.
    pub fn push(&mut self, tree: SetTree) -> Result<(), AllocError>
        ensures ok { OnOk result (self.new ≡ followed_by self.old (set tree.label tree.inner none)) }
        ensures err { OnErr result (self.new ≡ self.old) }
    {
        self.items.push(tree)?;
        Ok(())
    }

    /// How many sets there are, inner sets included.
    pub fn count(&self) -> u32
        requires { count self.now ≤ TABLES }
        ensures { result ≡ count self.now }
    {
        count_sets(self)
    }

    /// Whether each set, inner sets included, has at most 4,294,967,293 keys and dependencies together, and as many refs,
    /// as `Schema::build` asks.
    pub fn has_few_rules(&self) -> bool
        ensures { IsTrue result ↔ HasFewRules self.now }
    {
        for tree in self.items() {
            let determinations = tree.keys.len().saturating_add(tree.deps.len());
            if determinations >= TOO_MANY || tree.refs.len() >= TOO_MANY {
                return false;
            }
            if !tree.inner.has_few_rules() {
                return false;
            }
        }
        true
    }

    /// Whether there is no set.
    pub fn is_empty(&self) -> bool
        ensures { result ≡ not (has_sets self.now) }
    {
        self.items.as_slice().is_empty()
    }

    /// The sets, lent.
    pub fn items(&self) -> &[SetTree]
        ensures { forest_of result.now ≡ self.now }
    {
        self.items.as_slice()
    }
}
