//! Bodies as rows of text: how they are read, and what is written again.
//!
//! A row adds nothing to the proof of its test; a line of code adds seconds.
mod bodies;
mod by_child;
mod characters;
mod errors;
mod grammar;
mod limits;
mod namespaces;
mod prefixed;
mod values;

use dav_core::element::{Element, XmlNode};
use dav_xml::{Fault, XmlError, read, write};
use std::alloc::{AllocError, Global};
use std::process::Abort;
use std::test::Fail;

// The most levels that are shown.
const MOST: usize = 70;

// The declaration that is written before each tree.
const DECLARATION: &str = "<?xml version=\"1.0\" encoding=\"utf-8\"?>\n";

// An element: its prefix and a bar, its namespace in braces, its name, its attributes; its texts in brackets.
fn show(out: &mut String, element: &Element, depth: usize) -> Result<(), AllocError> {
    out.push_str("(")?;
    if let Some(prefix) = &element.prefix {
        out.push_str(prefix)?;
        out.push_str("|")?;
    }
    if let Some(namespace) = &element.namespace {
        out.push_str("{")?;
        out.push_str(namespace)?;
        out.push_str("}")?;
    }
    out.push_str(&element.name)?;
    show_attributes(out, element)?;
    if depth > 0 {
        for child in element.children.iter() {
            match child {
                XmlNode::Element(child) => show(out, child, depth - 1)?,
                XmlNode::Text(text) => show_text(out, text)?,
            }
        }
    }
    out.push_str(")")
}

fn show_attributes(out: &mut String, element: &Element) -> Result<(), AllocError> {
    for (name, value) in element.attributes.iter() {
        out.push_str(" ")?;
        out.push_str(name)?;
        out.push_str("=")?;
        out.push_str(value)?;
    }
    Ok(())
}

fn show_text(out: &mut String, text: &str) -> Result<(), AllocError> {
    out.push_str("[")?;
    out.push_str(text)?;
    out.push_str("]")
}

// What is read of a body, as text; `!` for what is refused.
fn shown(alloc: Global, body: &str) -> Result<String, AllocError> {
    let mut out = String::new(alloc);
    match read(alloc, body.as_bytes()) {
        Ok(element) => show(&mut out, &element, MOST)?,
        Err(XmlError::Fault(Fault::Malformed)) => out.push_str("!")?,
        Err(XmlError::Fault(Fault::TooDeep)) => out.push_str("! too deep")?,
        Err(XmlError::Fault(Fault::TooLarge)) => out.push_str("! too large")?,
        Err(XmlError::Memory) => return Err(AllocError),
    }
    Ok(out)
}

// What is written of what is read of a body, without the declaration and the line end behind it.
fn again(alloc: Global, body: &str) -> Result<String, Fail> {
    let element = read(alloc, body.as_bytes())?;
    let bytes = write(alloc, &element)?;
    let text = str::from_utf8(&bytes)?;
    let after = text
        .strip_prefix(DECLARATION)
        .ok_or("a reply without its declaration")?;
    Ok(String::from_str(alloc, after)?)
}

// A text with the control characters that its marks stand for: `⇥` is a tab, `↵` a line feed and `␍` a carriage return.
fn marked(alloc: Global, text: &str) -> Result<String, AllocError> {
    let mut out = String::new(alloc);
    for c in text.chars() {
        out.push(match c {
            '⇥' => '\t',
            '↵' => '\n',
            '␍' => '\r',
            other => other,
        })?;
    }
    Ok(out)
}

// A row's input and what is expected of it; `None` for a title and an empty line.
fn parts(row: &str) -> Option<(&str, &str)> {
    if row.starts_with("# ") {
        return None;
    }
    row.split_once(" -> ")
}

// Rows of bodies and of what is read of them; what is read is written so that the same is read again.
fn see_read(rt: &impl Abort, alloc: Global, rows: &str) -> Result<(), Fail> {
    for row in rows.lines() {
        if let Some((body, wanted)) = parts(row) {
            let body = marked(alloc, body)?;
            let wanted = marked(alloc, wanted)?;
            let found = shown(alloc, &body)?;
            assert!(rt; found == wanted, "{row}\ngives: {found}");
            if !wanted.starts_with('!') {
                let written = again(alloc, &body)?;
                let found = shown(alloc, &written)?;
                assert!(rt;
                    found == wanted,
                    "{row}\nis written: {written}\ngives: {found}"
                );
            }
        }
    }
    Ok(())
}

// Rows of bodies and of what is written of what is read of them.
fn see_written(rt: &impl Abort, alloc: Global, rows: &str) -> Result<(), Fail> {
    for row in rows.lines() {
        if let Some((body, wanted)) = parts(row) {
            let body = marked(alloc, body)?;
            let wanted = marked(alloc, wanted)?;
            let found = again(alloc, &body)?;
            assert!(rt; found == wanted, "{row}\ngives: {found}");
        }
    }
    Ok(())
}
