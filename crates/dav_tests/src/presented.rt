//! What is sent, as rows of text: an input, and what is expected of it by the standards.
mod fields;
mod missing;
mod names;
mod parts;
mod preferences;
mod quota;
mod times;
mod typed;
mod types;

use dav_core::element::Element;
use http_header::HeaderValue;
use std::alloc::{AllocError, Global};
use std::test::Fail;

// A row's input and what is expected of it; `None` for a title.
fn halves(row: &str) -> Option<(&str, &str)> {
    if row.starts_with("# ") {
        return None;
    }
    row.rsplit_once(" -> ")
}

fn value(alloc: Global, text: &str) -> Result<HeaderValue, Fail> {
    match HeaderValue::from_str(alloc, text) {
        Ok(value) => Ok(value),
        Err(_) => Err("not a value".into()),
    }
}

// The values of the field of that name, of `Name: value | Name: value`.
fn values(alloc: Global, fields: &str, name: &str) -> Result<Vec<HeaderValue>, Fail> {
    let mut values = Vec::new(alloc);
    for field in fields.split(" | ") {
        if let Some((its_name, text)) = field.split_once(": ") {
            if its_name == name {
                values.push(value(alloc, text)?)?;
            }
        }
    }
    Ok(values)
}

// An element with a namespace, `{DAV:}x:name`, or without one, `D:name`.
fn named(alloc: Global, word: &str) -> Result<Element, AllocError> {
    let Some(rest) = word.strip_prefix("{") else {
        return Element::new2(alloc, word);
    };
    let (space, name) = rest.split_once("}").unwrap_or(("", rest));
    let mut element = Element::new2(alloc, name)?;
    element.namespace = Some(String::from_str(alloc, space)?);
    Ok(element)
}

fn holding(alloc: Global, name: &str, child: Element) -> Result<Element, AllocError> {
    let mut element = Element::new2(alloc, name)?;
    element.push_element(child)?;
    Ok(element)
}

fn saying(alloc: Global, name: &str, text: &str) -> Result<Element, AllocError> {
    let mut element = Element::new2(alloc, name)?;
    element.text(text)?;
    Ok(element)
}
