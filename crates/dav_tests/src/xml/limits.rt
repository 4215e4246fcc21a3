//! The limits: 1 MiB, 64 levels, 256 attributes, 256 prefixes; and bodies that are made to be dear.
use super::shown;
use std::alloc::{AllocError, Global};
use std::test::Fail;

// A text so many times.
fn times(alloc: Global, text: &str, count: usize) -> Result<String, AllocError> {
    let mut out = String::new(alloc);
    for _ in 0..count {
        out.push_str(text)?;
    }
    Ok(out)
}

// A text with so many others in its middle, each with its number.
fn numbered(alloc: Global, front: &str, count: usize, end: &str) -> Result<String, AllocError> {
    let mut out = String::from_str(alloc, front)?;
    for k in 0..count {
        out.push_str(&format!(in alloc; " xmlns:p{k}='u'")?)?;
    }
    out.push_str(end)?;
    Ok(out)
}

// So many attributes.
fn with_attributes(alloc: Global, count: usize) -> Result<String, AllocError> {
    let mut out = String::from_str(alloc, "<a")?;
    for k in 0..count {
        out.push_str(&format!(in alloc; " b{k}=''")?)?;
    }
    out.push_str("/>")?;
    Ok(out)
}

// So many levels.
fn nested(alloc: Global, count: usize) -> Result<String, AllocError> {
    let mut out = times(alloc, "<a>", count)?;
    out.push_str(&times(alloc, "</a>", count)?)?;
    Ok(out)
}

#[test]
fn levels_are_few(rt: HostRuntime) -> Result<(), Fail> {
    let most = shown(rt.alloc(), &nested(rt.alloc(), 64)?)?;
    assert!(rt; most.starts_with("(a(a"), "64 levels: {most}");
    for count in [65, 66, 1_000, 20_000] {
        let found = shown(rt.alloc(), &nested(rt.alloc(), count)?)?;
        assert!(rt; found.as_str() == "! too deep", "{count} levels: {found}");
    }
    Ok(())
}

#[test]
fn attributes_are_few(rt: HostRuntime) -> Result<(), Fail> {
    let most = shown(rt.alloc(), &with_attributes(rt.alloc(), 256)?)?;
    assert!(rt; most.starts_with("(a b0="), "256 attributes: {most}");
    for count in [257, 65_536] {
        let found = shown(rt.alloc(), &with_attributes(rt.alloc(), count)?)?;
        assert!(rt;
            found.as_str() == "! too large",
            "{count} attributes: {found}"
        );
    }
    Ok(())
}

#[test]
fn prefixes_are_few(rt: HostRuntime) -> Result<(), Fail> {
    let most = shown(rt.alloc(), &numbered(rt.alloc(), "<a", 256, "/>")?)?;
    assert!(rt; most.as_str() == "(a)", "256 prefixes: {most}");
    let within = numbered(
        rt.alloc(),
        "<a",
        200,
        &numbered(rt.alloc(), "><b", 57, "/></a>")?,
    )?;
    let found = shown(rt.alloc(), &within)?;
    assert!(rt; found.as_str() == "! too large", "257 prefixes: {found}");
    Ok(())
}

#[test]
fn bodies_are_small(rt: HostRuntime) -> Result<(), Fail> {
    let blanks = times(rt.alloc(), " ", 1_048_572)?;
    let mut body = String::from_str(rt.alloc(), "<a/>")?;
    body.push_str(&blanks)?;
    let most = shown(rt.alloc(), &body)?;
    assert!(rt; most.as_str() == "(a)", "1 MiB: {most}");
    body.push_str(" ")?;
    let found = shown(rt.alloc(), &body)?;
    assert!(rt; found.as_str() == "! too large", "a byte more: {found}");
    Ok(())
}

// A long name, ends that are missing, and references without an end.
#[test]
fn dear_bodies_are_answered(rt: HostRuntime) -> Result<(), Fail> {
    for text in [
        "a",
        "<a",
        "<a ",
        "<!--",
        "<![CDATA[",
        "&",
        "&#",
        "<a b='",
        "<a><",
        "]]",
        "<?p ",
    ] {
        let body = times(rt.alloc(), text, 100_000 / text.len())?;
        let found = shown(rt.alloc(), &body)?;
        assert!(rt; found.as_str() == "!", "many {text}: {found}");
    }
    Ok(())
}
