// A script of the greatest size.
use crate::comments::Comments;
use crate::helpers::edit_f;
use std::process::Abort;
use std::test::Fail;

#[test]
fn a_script_has_a_gibibyte_and_no_more(rt: HostRuntime) -> Result<(), Fail> {
    let alloc = rt.alloc();
    let mut host = Comments::of_a_gibibyte(alloc, b"p")?;
    let report = edit_f(alloc, &mut host)?;
    assert!(rt; report.status == 13 && report.marks.is_empty());
    assert!(rt; host.output.as_slice() == b"\"f\" [New]\n".as_slice());
    Ok(())
}
