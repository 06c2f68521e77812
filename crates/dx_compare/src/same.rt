// Whether two lists of sets are one.
ghost use Rattle.std.specs.Prelude.{◌≡◌, ◌↔◌, IsTrue};
ghost use Rattle.dx_schema.specs.Forest.{forest_of};

use dx_base::Text;
use dx_schema::{DepDecl, KeyDecl, RefDecl, SetTree};

/// What can be told from others of its kind.
trait Same {
    /// Whether the two are one.
    fn is_same(&self, other: &Self) -> bool
        ensures { IsTrue result ↔ (self.now ≡ other.now) };
}

impl Same for Text {
    fn is_same(&self, other: &Text) -> bool {
        self.is(other)
    }
}

impl Same for KeyDecl {
    fn is_same(&self, other: &KeyDecl) -> bool {
        are_same(self.columns.items(), other.columns.items())
    }
}

impl Same for DepDecl {
    fn is_same(&self, other: &DepDecl) -> bool {
        are_same(self.columns.items(), other.columns.items())
            && are_same(self.decides.items(), other.decides.items())
    }
}

impl Same for RefDecl {
    fn is_same(&self, other: &RefDecl) -> bool {
        self.optional == other.optional
            && self.set.is(&other.set)
            && are_same(self.columns.items(), other.columns.items())
            && are_same(self.referred.items(), other.referred.items())
    }
}

/// Whether two lists are one.
fn are_same<T: Same>(a: &[T], b: &[T]) -> bool
    ensures { IsTrue result ↔ (a.now ≡ b.now) }
{
    if a.len() != b.len() {
        return false;
    }
    for i in 0..a.len() {
        if !a[i].is_same(&b[i]) {
            return false;
        }
    }
    true
}

/// Whether two sets are one, but for their inner sets.
fn is_same_label(a: &SetTree, b: &SetTree) -> bool
    ensures { IsTrue result ↔ (a.now.label ≡ b.now.label) }
{
    a.name.is(&b.name)
        && are_same(a.columns.items(), b.columns.items())
        && are_same(a.keys.items(), b.keys.items())
        && are_same(a.deps.items(), b.deps.items())
        && are_same(a.refs.items(), b.refs.items())
}

/// Whether two lists of sets are one: in order the same names, columns, keys, dependencies, refs and inner sets.
pub fn same_trees(first: &[SetTree], second: &[SetTree]) -> bool
    ensures { IsTrue result ↔ (forest_of first.now ≡ forest_of second.now) }
{
    if first.len() != second.len() {
        return false;
    }
    for i in 0..first.len() {
        let (one, other) = (&first[i], &second[i]);
        if !is_same_label(one, other) {
            return false;
        }
        if !same_trees(one.inner.items(), other.inner.items()) {
            return false;
        }
    }
    true
}
