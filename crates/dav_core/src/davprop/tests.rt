use super::*;
use crate::asserting::same;
use std::test::Fail;

#[test]
fn makes_properties(rt: HostRuntime) -> Result<(), Fail> {
    let made = DavProp::new(rt.alloc(), "foo", "n", "urn:n", "v")?.clone()?;
    let parts = format!(in rt.alloc(); "{made:?}")?;
    same(
        &rt,
        &parts.as_str(),
        &"DavProp { name: \"foo\", prefix: Some(\"n\"), namespace: Some(\"urn:n\"), xml: Some(Element { name: \"foo\", prefix: Some(\"n\"), namespace: Some(\"urn:n\"), attributes: [(\"xmlns:n\", \"urn:n\")], children: [Text(\"v\")] }) }",
    );
    Ok(())
}

#[test]
fn declares_the_namespace_without_a_prefix(rt: HostRuntime) -> Result<(), Fail> {
    let made = DavProp::new(rt.alloc(), "foo", "", "urn:n", "")?;
    let Some(xml) = &made.xml else {
        assert!(rt; false);
        return Ok(());
    };
    let parts = format!(in rt.alloc(); "{:?} {:?}", xml.attributes, xml.children)?;
    same(
        &rt,
        &parts.as_str(),
        &"[(\"xmlns\", \"urn:n\")] [Text(\"\")]",
    );
    Ok(())
}
