// The text of the demo's mapping.
ghost use Rattle.std.specs.Prelude.{◌≡◌, ◌++◌, IfOk, OnOk, string_bytes};
ghost use Rattle.dx_gen.specs.Demo.{demo_lines_text, demo_mapping_text, demo_source_text, target_text};

use std::alloc::{AllocError, Global};

fn push_source(out: &mut String) -> Result<(), AllocError>
    ensures { OnOk result (string_bytes out.new ≡ string_bytes out.old ++ demo_source_text) }
{
    out.push_str("source {\n")?;
    out.push_str("  set dept { dname, city; key (dname); }\n")?;
    out.push_str("  set emp { eid, name, dname; key (eid); ref (dname) -> dept (dname); }\n")?;
    out.push_str("  set phone { eid, num; ref (eid) -> emp (eid); }\n")?;
    out.push_str("}\n")?;
    Ok(())
}

fn push_target(out: &mut String) -> Result<(), AllocError>
    ensures { OnOk result (string_bytes out.new ≡ string_bytes out.old ++ target_text) }
{
    out.push_str("target {\n")?;
    out.push_str("  set unit { uname, place; key (uname);\n")?;
    out.push_str("    set staff { sid, sname, phone; key (sid); }\n")?;
    out.push_str("  }\n")?;
    out.push_str("  set number { num, who; }\n")?;
    out.push_str("}\n")?;
    Ok(())
}

fn push_lines(out: &mut String) -> Result<(), AllocError>
    ensures { OnOk result (string_bytes out.new ≡ string_bytes out.old ++ demo_lines_text) }
{
    out.push_str("line dept.dname -> unit.uname;\n")?;
    out.push_str("line dept.city -> unit.place;\n")?;
    out.push_str("line emp.eid -> staff.sid;\n")?;
    out.push_str("line emp.name -> staff.sname;\n")?;
    out.push_str("line phone.num -> staff.phone;\n")?;
    out.push_str("line phone.num -> number.num;\n")?;
    out.push_str("line emp.name -> number.who;\n")?;
    Ok(())
}

/// The mapping's text.
pub fn mapping_text(alloc: Global) -> Result<String, AllocError>
    ensures { IfOk result (λ s. string_bytes s ≡ demo_mapping_text) }
{
    let mut out = String::from_str(alloc, "mapping 1;\n")?;
    push_source(&mut out)?;
    push_target(&mut out)?;
    push_lines(&mut out)?;
    Ok(out)
}
