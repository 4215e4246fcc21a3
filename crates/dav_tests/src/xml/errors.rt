//! What errors print.
use dav_xml::{Fault, XmlError};
use std::test::Fail;

const ROWS: &str = "\
Memory
Malformed
TooDeep
TooLarge
";

#[test]
fn errors_are_named(rt: HostRuntime) -> Result<(), Fail> {
    let mut rows = String::new(rt.alloc());
    for error in [
        XmlError::Memory,
        XmlError::Fault(Fault::Malformed),
        XmlError::Fault(Fault::TooDeep),
        XmlError::Fault(Fault::TooLarge),
    ] {
        rows.push_str(&format!(in rt.alloc(); "{error}\n")?)?;
    }
    assert!(rt; rows.as_str() == ROWS, "{rows}");
    Ok(())
}
