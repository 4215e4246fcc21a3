use super::*;
use crate::asserting::{is_row, parts, same};
use crate::errors::NoMemory;
use std::process::Abort;
use std::test::Fail;

// A row: how an element is made, its name and calls on it, between bars, ` -> `, and what the calls answer, each with a
// semicolon after it. `new` takes the name as it is, and `new2` cuts it at its first colon. A call with two arguments has
// a sign `=` between them.
const ROWS: &str = r##"
# All parts of a copy, how deep it is, and its text
new2 |D:x|ns =urn:q|child y|text t|show|depth|get_text| -> Element { name: "x", prefix: Some("D"), namespace: None, attributes: [("xmlns", "urn:q")], children: [Element(Element { name: "y", prefix: None, namespace: None, attributes: [], children: [] }), Text("t")] }; 2; Some("t");

# Names with and without a colon
new2 |x|names| -> None "x";
new2 |a:b:c|names| -> Some("a") "b:c";
new2 |:x|names| -> Some("") "x";

# Namespaces: the later one of a prefix replaces the earlier
new |x:y|ns a=urn:1|ns =urn:2|ns a=urn:3|show| -> Element { name: "x:y", prefix: None, namespace: None, attributes: [("xmlns:a", "urn:3"), ("xmlns", "urn:2")], children: [] };

# The text is joined of the element's own texts
new |x|child D:b=no|get_text|text |text a|text b|get_text| -> None; Some("ab");

# Child elements, and those that are taken out by their name (with their prefix)
new |x|child D:b=no|text t|child c|children| -> b, c, of 3;
new |x|child D:b=no|child b|take c|children|take b|has_child_elems|take b|has_child_elems| -> None; b, b, of 2; Some(Some("D")); true; Some(None); false;
"##;

// An element with a text, where there is one after a sign `=`.
fn child(alloc: Global, name_and_text: &str) -> Result<Element, NoMemory> {
    match name_and_text.split_once('=') {
        Some((name, text)) => {
            let mut child = Element::new2(alloc, name)?;
            child.text(text)?;
            Ok(child)
        }
        None => Element::new2(alloc, name_and_text),
    }
}

// Changes an element; whether a call has this name.
fn change(
    element: &mut Element,
    alloc: Global,
    call: &str,
    argument: &str,
) -> Result<bool, NoMemory> {
    match call {
        "ns" => {
            let (prefix, uri) = argument.split_once('=').unwrap_or((argument, ""));
            element.ns(prefix, uri)?;
        }
        "child" => element.push_element(child(alloc, argument)?)?,
        "text" => element.text(argument)?,
        _ => return Ok(false),
    }
    Ok(true)
}

// The names of the child elements, and the number of all children.
fn children(alloc: Global, element: &Element) -> Result<String, NoMemory> {
    let mut names = String::new(alloc);
    for child in element.child_elems() {
        names.push_str(&child.name)?;
        names.push_str(", ")?;
    }
    format!(in alloc; "{names}of {}", element.children.len())
}

// The prefix of a child element that is taken out.
fn take(element: &mut Element, alloc: Global, name: &str) -> Result<String, NoMemory> {
    match element.take_child(name) {
        Some(child) => format!(in alloc; "Some({:?})", child.prefix),
        None => String::from_str(alloc, "None"),
    }
}

// What an element answers to a call.
fn answer(
    element: &mut Element,
    alloc: Global,
    call: &str,
    argument: &str,
) -> Result<String, NoMemory> {
    match call {
        "show" => format!(in alloc; "{:?}", element.clone()?),
        "names" => format!(in alloc; "{:?} {:?}", element.prefix, element.name),
        "depth" => format!(in alloc; "{}", element.depth()),
        "get_text" => format!(in alloc; "{:?}", element.get_text(alloc)?),
        "children" => children(alloc, element),
        "take" => take(element, alloc, argument),
        "has_child_elems" => format!(in alloc; "{}", element.has_child_elems()),
        _ => String::from_str(alloc, "no call has this name"),
    }
}

// The answers to calls.
fn answers(element: &mut Element, alloc: Global, calls: &str) -> Result<String, NoMemory> {
    let mut answers = String::new(alloc);
    for words in calls.split('|') {
        let (call, argument) = words.split_once(' ').unwrap_or((words, ""));
        if !change(element, alloc, call, argument)? {
            let answer = answer(element, alloc, call, argument)?;
            if !answers.is_empty() {
                answers.push(' ')?;
            }
            answers.push_str(&answer)?;
            answers.push(';')?;
        }
    }
    Ok(answers)
}

// Plays a row; the test fails where an answer isn't the wanted one.
fn play(rt: &impl Abort, alloc: Global, row: &str) -> Result<(), Fail> {
    let (made_by, texts, wanted) = parts(row).ok_or("a line is no row")?;
    let (name, calls) = texts.split_once('|').ok_or("a row has no calls")?;
    let mut element = match made_by {
        "new" => Element::new(alloc, name)?,
        "new2" => Element::new2(alloc, name)?,
        _ => return Err(Fail::from("an element is made by new or new2")),
    };
    let found = answers(&mut element, alloc, calls)?;
    assert!(rt; found.as_str() == wanted, "{row}\ngives: {found}");
    Ok(())
}

#[test]
fn answers_calls(rt: HostRuntime) -> Result<(), Fail> {
    let mut count = 0u32;
    for line in ROWS.lines() {
        if is_row(line) {
            play(&rt, rt.alloc(), line)?;
            count = count.wrapping_add(1);
        }
    }
    same(&rt, &count, &8);
    Ok(())
}

#[test]
fn compares_all_parts(rt: HostRuntime) -> Result<(), Fail> {
    let mut element = Element::new2(rt.alloc(), "D:x")?;
    answers(&mut element, rt.alloc(), "ns =urn:q|child y|text t")?;
    let mut other = element.clone()?;
    assert!(rt; element == other);
    other.prefix = None;
    assert!(rt; element != other);
    Ok(())
}

#[test]
fn copies_children(rt: HostRuntime) -> Result<(), Fail> {
    let mut parent = Element::new(rt.alloc(), "x")?;
    parent.push_element(child(rt.alloc(), "D:b=no")?)?;
    let element = XmlNode::Element(parent);
    let text = XmlNode::Text(String::from_str(rt.alloc(), "no")?);
    assert!(rt; element.clone()? == element);
    assert!(rt; text.clone()? == text && text != element);
    Ok(())
}
