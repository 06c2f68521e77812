use crate::shown;
use std::test::Fail;

#[test]
fn a_cell_forges_no_line(rt: HostRuntime) -> Result<(), Fail> {
    let line = shown(rt.alloc(), "clash: \"è\n\u{9b}\u{202e}\u{7f}\\u{a}\"")?;
    assert_eq!(rt;
        line.as_str(),
        "clash: \"è\\u{a}\\u{9b}\\u{202e}\\u{7f}\\u{a}\""
    );
    Ok(())
}
