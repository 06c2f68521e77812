// Null maps: what nulls become. A null that is not listed stays.
ghost use Rattle.std.specs.Prelude.{◌≡◌, IfOk, OnOk, OnErr, map};
ghost use Rattle.std.specs.FinMap as finite;
ghost use Rattle.std.specs.Option.{option_copied};
ghost use Rattle.dx_model.specs.Instances.{IsNullMap, moved};
ghost use Rattle.dx_instance.specs.NullMaps.{IsAfter, NoPairIsItself, NoneIsItself, becomes, entries_in, map_of_entries, pair_after, pairs_of, with_value};

use crate::null_merge::{is_above, is_same, merged, pair_copies, push_proper, value_among};
use dx_model::{NullId, NullPair, Value, copy_value};
use std::alloc::{AllocError, Global};
use std::collections::BTreeMap;
use std::marker::Model;

/// What nulls become, by null. A null that is not listed stays. As long as nulls are set in ascending order, they stand in an
/// ascending list, and then all in a tree.
#[derive(Drop)]
pub struct NullMap {
    alloc: Global,
    pairs: Vec<NullPair>,
    tree: BTreeMap<NullId, Value>,
}

impl Model for NullMap {
    ghost use Rattle.std.specs.FinMap as finite;
    ghost use Rattle.std.specs.Prelude.{◌++◌};
    ghost use Rattle.dx_model.specs.contracts.values.Value as value;
    ghost use Rattle.dx_instance.specs.NullMaps.{StoresNulls, ByNull, coded_null, entries_in, map_of_entries};

    ghost Value = { ByNull };

    ghost coded = { finite.code coded_null value.the_row.coded };

    ghost view = { λ m. map_of_entries (m.tree.entries ++ entries_in m.pairs.items) };

    ghost invariant = { λ m. StoresNulls m.pairs.items m.tree.entries };
}

// Gives a null a value in a tree. A null that gets itself is taken out.
fn put(tree: &mut BTreeMap<NullId, Value>, null: NullId, value: Value) -> Result<(), AllocError>
    requires { NoneIsItself tree.old.entries }
    ensures ok { OnOk result (map_of_entries tree.new.entries ≡ with_value (map_of_entries tree.old.entries) null value) }
    ensures err { OnErr result (tree.new.entries ≡ tree.old.entries) }
    ensures proper { NoneIsItself tree.new.entries }
{
    if is_same(null, &value) {
        tree.remove(&null);
        return Ok(());
    }
    tree.insert(null, value)?;
    Ok(())
}

// A tree of pairs.
fn tree_of(alloc: Global, pairs: &[NullPair]) -> Result<BTreeMap<NullId, Value>, AllocError>
    requires { NoPairIsItself pairs.now }
    ensures same { IfOk result (λ t. map_of_entries t.entries ≡ map_of_entries (entries_in pairs.now)) }
    ensures proper { IfOk result (λ t. NoneIsItself t.entries) }
{
    let mut tree = BTreeMap::new(alloc);
    let mut left = pairs.len();
    while left > 0 {
        left -= 1;
        let pair = &pairs[left];
        put(&mut tree, pair.null, copy_value(&pair.value)?)?;
    }
    Ok(tree)
}

// The pairs in a tree, ascending by null.
fn pairs_in(alloc: Global, tree: &BTreeMap<NullId, Value>) -> Result<Vec<NullPair>, AllocError>
    requires { NoneIsItself tree.now.entries }
    ensures pairs { IfOk result (λ pairs. pairs.items ≡ pairs_of (map_of_entries tree.now.entries)) }
    ensures null_map { IsNullMap (pairs_of (map_of_entries tree.now.entries)) }
{
    let mut pairs = Vec::with_capacity(alloc, tree.len())?;
    for (null, value) in tree {
        pairs.push(NullPair {
            null: *null,
            value: copy_value(value)?,
        })?;
    }
    Ok(pairs)
}

impl NullMap {
    /// The null map that lists nothing.
    pub fn new(alloc: Global) -> NullMap
        ensures { result ≡ finite.empty }
    {
        NullMap {
            alloc,
            pairs: Vec::new(alloc),
            tree: BTreeMap::new(alloc),
        }
    }

    /// What the null becomes, if it is listed.
    pub fn get(&self, null: &NullId) -> Option<&Value>
        ensures { option_copied result ≡ finite.get self.now null.now }
    {
        if self.tree.is_empty() {
            return value_among(&self.pairs, null);
        }
        self.tree.get(null)
    }

    /// Gives the null a value, in place of the one that it had. A null that gets itself is taken off the list.
    ///
    /// # Errors
    ///
    /// `AllocError` if there is no memory: all stays as it was.
    pub fn set(&mut self, null: NullId, value: Value) -> Result<(), AllocError>
        ensures ok { OnOk result (self.new ≡ with_value self.old null value) }
        ensures err { OnErr result (self.new ≡ self.old) }
    {
        if !self.tree.is_empty() {
            return put(&mut self.tree, null, value);
        }
        if is_above(&self.pairs, &null) {
            return push_proper(&mut self.pairs, null, value);
        }
        let mut tree = tree_of(self.alloc, &self.pairs)?;
        put(&mut tree, null, value)?;
        self.tree = tree;
        self.pairs = Vec::new(self.alloc);
        Ok(())
    }

    /// What a value becomes: a constant stays.
    pub fn image<'a>(&'a self, value: &'a Value) -> &'a Value
        ensures { result.now ≡ moved (becomes self.now) value.now }
    {
        match value {
            Value::Const(_) => value,
            Value::Null(null) => match self.get(null) {
                Some(other) => other,
                None => value,
            },
        }
    }

    // The pairs with the images of their values.
    fn images(&self, pairs: Vec<NullPair>) -> Result<Vec<NullPair>, AllocError>
        ensures { IfOk result (λ all. all.items ≡ map (pair_after self.now) pairs.items) }
    {
        let mut all = Vec::with_capacity(self.alloc, pairs.len())?;
        for pair in pairs {
            all.push(NullPair {
                null: pair.null,
                value: copy_value(self.image(&pair.value))?,
            })?;
        }
        Ok(all)
    }

    /// The map that gives each null what this one makes of what `first` gives it.
    ///
    /// # Errors
    ///
    /// `AllocError` if there is no memory.
    pub fn after(&self, first: &NullMap) -> Result<NullMap, AllocError>
        ensures { IfOk result (IsAfter first.now self.now) }
    {
        let images = self.images(first.pairs()?)?;
        let pairs = merged(self.alloc, &images, &self.pairs()?)?;
        Ok(NullMap {
            alloc: self.alloc,
            pairs,
            tree: BTreeMap::new(self.alloc),
        })
    }

    /// The nulls that are listed, each with what it becomes, ascending by null.
    ///
    /// # Errors
    ///
    /// `AllocError` if there is no memory.
    pub fn pairs(&self) -> Result<Vec<NullPair>, AllocError>
        ensures pairs { IfOk result (λ pairs. pairs.items ≡ pairs_of self.now) }
        ensures null_map { IsNullMap (pairs_of self.now) }
    {
        if self.tree.is_empty() {
            return pair_copies(self.alloc, &self.pairs);
        }
        pairs_in(self.alloc, &self.tree)
    }
}
