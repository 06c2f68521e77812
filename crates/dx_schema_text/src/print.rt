// The text of sets.
ghost use Rattle.std.specs.Prelude.{◌≡◌, ℕ, ◌++◌, [], IfOk, OnOk, flat_map, string_bytes};
ghost use Rattle.dx_schema.specs.Forest.{forest_of};
ghost use Rattle.dx_schema_text.specs.Print.{AreWritable, IsKnownVersion, IsReadAgain, front_lines, group, head_lines, dep_line, key_line, last_line, names_text, optional_text, printed, ref_line, wider};

use dx_base::Text;
use dx_schema::{DepDecl, KeyDecl, RefDecl, SetTree};
use std::alloc::{AllocError, Global};

/// Names, parted by a comma and a space.
///
/// # Errors
///
/// `AllocError` if there is no memory.
pub fn push_names(names: &[Text], out: &mut String) -> Result<(), AllocError>
    ensures { OnOk result (string_bytes out.new ≡ string_bytes out.old ++ names_text names.now) }
{
    let Some((name, others)) = names.split_first() else {
        return Ok(());
    };
    out.push_str(name.as_str())?;
    for other in others {
        out.push_str(", ")?;
        out.push_str(other.as_str())?;
    }
    Ok(())
}

// Names in brackets after a word.
fn push_group(word: &str, names: &[Text], out: &mut String) -> Result<(), AllocError>
    ensures { OnOk result (string_bytes out.new ≡ string_bytes out.old ++ group word.now names.now) }
{
    out.push_str(word)?;
    out.push_str(" (")?;
    push_names(names, out)?;
    out.push_str(")")?;
    Ok(())
}

fn push_key(margin: &str, key: &KeyDecl, out: &mut String) -> Result<(), AllocError>
    ensures { OnOk result (string_bytes out.new ≡ string_bytes out.old ++ key_line margin.now key.now) }
{
    out.push_str(margin)?;
    push_group("key", key.columns.items(), out)?;
    out.push_str(";\n")?;
    Ok(())
}

fn push_dep(margin: &str, dep: &DepDecl, out: &mut String) -> Result<(), AllocError>
    ensures { OnOk result (string_bytes out.new ≡ string_bytes out.old ++ dep_line margin.now dep.now) }
{
    out.push_str(margin)?;
    push_group("dep", dep.columns.items(), out)?;
    push_group(" ->", dep.decides.items(), out)?;
    out.push_str(";\n")?;
    Ok(())
}

fn push_optional(optional: bool, out: &mut String) -> Result<(), AllocError>
    ensures { OnOk result (string_bytes out.new ≡ string_bytes out.old ++ optional_text optional) }
{
    if optional {
        out.push_str(" optional")?;
    }
    Ok(())
}

fn push_ref(margin: &str, reference: &RefDecl, out: &mut String) -> Result<(), AllocError>
    ensures { OnOk result (string_bytes out.new ≡ string_bytes out.old ++ ref_line margin.now reference.now) }
{
    out.push_str(margin)?;
    push_group("ref", reference.columns.items(), out)?;
    out.push_str(" -> ")?;
    push_group(reference.set.as_str(), reference.referred.items(), out)?;
    push_optional(reference.optional, out)?;
    out.push_str(";\n")?;
    Ok(())
}

fn push_keys(margin: &str, keys: &[KeyDecl], out: &mut String) -> Result<(), AllocError>
    ensures { OnOk result (string_bytes out.new ≡ string_bytes out.old ++ flat_map (key_line margin.now) keys.now) }
{
    for key in keys {
        push_key(margin, key, out)?;
    }
    Ok(())
}

fn push_deps(margin: &str, deps: &[DepDecl], out: &mut String) -> Result<(), AllocError>
    ensures { OnOk result (string_bytes out.new ≡ string_bytes out.old ++ flat_map (dep_line margin.now) deps.now) }
{
    for dep in deps {
        push_dep(margin, dep, out)?;
    }
    Ok(())
}

fn push_refs(margin: &str, refs: &[RefDecl], out: &mut String) -> Result<(), AllocError>
    ensures { OnOk result (string_bytes out.new ≡ string_bytes out.old ++ flat_map (ref_line margin.now) refs.now) }
{
    for reference in refs {
        push_ref(margin, reference, out)?;
    }
    Ok(())
}

// The margin of what stands in a set.
fn wider(alloc: Global, margin: &Text) -> Result<Text, AllocError>
    ensures { IfOk result (λ w. w ≡ wider margin.now) }
{
    let mut wide = String::from_str(alloc, margin.as_str())?;
    wide.push_str("  ")?;
    Text::from_string(alloc, wide)
}

// The name and the columns of a set.
fn push_head(margin: &str, wide: &str, tree: &SetTree, out: &mut String) -> Result<(), AllocError>
    requires { wide.now ≡ wider margin.now }
    ensures { OnOk result (string_bytes out.new ≡ string_bytes out.old ++ head_lines margin.now tree.now.label) }
{
    out.push_str(margin)?;
    out.push_str("set ")?;
    out.push_str(tree.name.as_str())?;
    out.push_str(" {\n")?;
    out.push_str(wide)?;
    push_names(tree.columns.items(), out)?;
    out.push_str(";\n")?;
    Ok(())
}

// A set up to its inner sets.
fn push_front(
    margin: &Text,
    wide: &Text,
    tree: &SetTree,
    out: &mut String,
) -> Result<(), AllocError>
    requires { wide.now ≡ wider margin.now }
    ensures { OnOk result (string_bytes out.new ≡ string_bytes out.old ++ front_lines margin.now tree.now.label) }
{
    push_head(margin.as_str(), wide.as_str(), tree, out)?;
    push_keys(wide.as_str(), tree.keys.items(), out)?;
    push_deps(wide.as_str(), tree.deps.items(), out)?;
    push_refs(wide.as_str(), tree.refs.items(), out)?;
    Ok(())
}

fn push_last(margin: &Text, out: &mut String) -> Result<(), AllocError>
    ensures { OnOk result (string_bytes out.new ≡ string_bytes out.old ++ last_line margin.now) }
{
    out.push_str(margin.as_str())?;
    out.push_str("}\n")?;
    Ok(())
}

// The sets of one level, with their inner sets.
fn push_sets(
    alloc: Global,
    margin: &Text,
    trees: &[SetTree],
    out: &mut String,
) -> Result<(), AllocError>
    ensures { OnOk result (string_bytes out.new ≡ string_bytes out.old ++ printed margin.now (forest_of trees.now)) }
{
    let wide = wider(alloc, margin)?;
    for tree in trees {
        push_front(margin, &wide, tree, out)?;
        push_sets(alloc, &wide, tree.inner.items(), out)?;
        push_last(margin, out)?;
    }
    Ok(())
}

/// Prints sets as a mapping text has them. If each name is a word, no list of names is empty and no set is more than 16
/// levels deep, the text, as a side of a mapping text of version 3, is read as these sets. So it is in version 2, if no set
/// has a dependency, and in version 1, if besides no ref is optional.
///
/// # Errors
///
/// `AllocError` if there is no memory.
pub fn print_trees(alloc: Global, trees: &[SetTree]) -> Result<Text, AllocError>
    ensures text { IfOk result (λ t. t ≡ printed [] (forest_of trees.now)) }
    ensures read_again { IfOk result (λ t. (version : ℕ) → IsKnownVersion version → AreWritable version (forest_of trees.now)
        → IsReadAgain version (forest_of trees.now) t) }
{
    let margin = Text::from_str(alloc, "")?;
    let mut out = String::new(alloc);
    push_sets(alloc, &margin, trees, &mut out)?;
    Text::from_string(alloc, out)
}
