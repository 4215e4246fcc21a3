//! From pieces of markup to a tree.
ghost use Rattle.std.specs.Prelude.{◌≡◌, ◌∷◌, ◌+◌, [], bytes_eq, length, reverse, map, string_bytes, MatchOption, OnOk, IfErr, Ok, vec_len};
ghost use Rattle.dav_xml.specs.declared.error.XmlError.TheVariants.{Memory};
ghost use Rattle.dav_xml.specs.Read.{Gives};
ghost use Rattle.dav_core.specs.Element.{children_of, name_of, with_children};
ghost use Rattle.dav_core.specs.ElementView.{attribute_bytes, node_tree};
ghost use Rattle.dav_xml.specs.Token.{token_view, token_views};
ghost use Rattle.dav_xml.specs.Nesting as spec;
ghost use Rattle.dav_xml.specs.NestingView.{open_view};

use crate::error::{Fault, XmlError};
use crate::token::Token;
use dav_core::element::{Element, XmlNode};
use std::alloc::Global;

// The elements that are open, the innermost last, and the root once it is closed.
#[derive(Drop)]
struct Nesting {
    elements: Vec<Element>,
    root: Option<Element>,
}

// Takes the last.
#[tactic(auto, using(crate::proofs::Stack::reverse_more))]
fn pop<T>(items: &mut Vec<T>) -> Option<T>
    ensures ends { MatchOption result ((reverse items.old.items ≡ []) × (items.new.items ≡ []))
        (λ x. reverse items.old.items ≡ x ∷ reverse items.new.items) }
    ensures shorter { MatchOption result (vec_len items.old ≡ 0)
        (λ _. vec_len items.new + 1 ≡ vec_len items.old) }
{
    items.pop()
}

// Adds one after the last.
#[tactic(auto, using(crate::proofs::Stack::reverse_more))]
fn push(elements: &mut Vec<Element>, element: Element) -> Result<(), XmlError>
    ensures ok { OnOk result (reverse elements.new.items ≡ element ∷ reverse elements.old.items) }
    ensures err { IfErr result (λ e. e ≡ Memory) }
{
    elements.push(element)?;
    Ok(())
}

#[tactic(auto, using(crate::proofs::Stack::reverse_length))]
fn depth(elements: &Vec<Element>) -> usize
    ensures { result ≡ length (reverse elements.now.items) }
{
    elements.len()
}

// An element with its name as it is written.
fn raw(alloc: Global, name: String, attributes: Vec<(String, String)>) -> Element
    ensures { result ≡ spec.raw (string_bytes name) (map attribute_bytes attributes.items) }
{
    Element {
        name,
        prefix: None,
        namespace: None,
        attributes,
        children: Vec::new(alloc),
    }
}

// Whether that is its name.
fn has_name(element: &Element, name: &str) -> bool
    ensures { result ≡ bytes_eq (name_of element.now) name.now }
{
    element.name.as_str() == name
}

// Adds a text after the children, which is joined with a text before it.
fn push_text(children: &mut Vec<XmlNode>, value: String) -> Result<(), XmlError>
    ensures ok { OnOk result (map node_tree children.new.items
        ≡ spec.with_text (string_bytes value) (map node_tree children.old.items)) }
    ensures err { IfErr result (λ e. e ≡ Memory) }
{
    match children.pop() {
        Some(XmlNode::Text(mut before)) => {
            before.push_str(&value)?;
            children.push(XmlNode::Text(before))?;
        }
        Some(XmlNode::Element(element)) => {
            // Reading a field lets the checker know that the tree is an element.
            let _ = &element.name;
            children.push(XmlNode::Element(element))?;
            children.push(XmlNode::Text(value))?;
        }
        None => children.push(XmlNode::Text(value))?,
    }
    Ok(())
}

#[tactic(auto, using(crate::proofs::ElementLemmas::tree_list_trees))]
fn add_text(element: &mut Element, value: String) -> Result<(), XmlError>
    ensures ok { OnOk result (element.new ≡ with_children element.old
        (spec.with_text (string_bytes value) (children_of element.old))) }
    ensures err { IfErr result (λ e. e ≡ Memory) }
{
    push_text(&mut element.children, value)
}

fn opened(element: Element, state: Nesting) -> Result<Nesting, XmlError>
    ensures { Gives open_view result (spec.opened element (open_view state)) }
{
    let Nesting { mut elements, root } = state;
    let depth = depth(&elements);
    if depth == 0 && root.is_some() {
        return Err(XmlError::Fault(Fault::Malformed));
    }
    if depth >= 64 {
        return Err(XmlError::Fault(Fault::TooDeep));
    }
    push(&mut elements, element)?;
    Ok(Nesting { elements, root })
}

fn ended(element: Element, state: Nesting) -> Result<Nesting, XmlError>
    ensures { Gives open_view result (Ok (spec.ended element (open_view state))) }
{
    let Nesting { mut elements, root } = state;
    match pop(&mut elements) {
        None => Ok(Nesting {
            elements,
            root: Some(element),
        }),
        Some(mut parent) => {
            parent.push_element(element)?;
            push(&mut elements, parent)?;
            Ok(Nesting { elements, root })
        }
    }
}

fn closed(name: &str, state: Nesting) -> Result<Nesting, XmlError>
    ensures { Gives open_view result (spec.closed name.now (open_view state)) }
{
    let Nesting { mut elements, root } = state;
    let Some(element) = pop(&mut elements) else {
        return Err(XmlError::Fault(Fault::Malformed));
    };
    if !has_name(&element, name) {
        return Err(XmlError::Fault(Fault::Malformed));
    }
    ended(element, Nesting { elements, root })
}

fn text_added(text: String, element: Element) -> Result<Element, XmlError>
    ensures { Gives (λ e. e) result (Ok (spec.text_added (string_bytes text) element)) }
{
    let mut element = element;
    if !text.is_empty() {
        add_text(&mut element, text)?;
    }
    Ok(element)
}

fn text_in(is_blank: bool, text: String, state: Nesting) -> Result<Nesting, XmlError>
    ensures { Gives open_view result (spec.text_in is_blank (string_bytes text) (open_view state)) }
{
    let Nesting { mut elements, root } = state;
    match pop(&mut elements) {
        None => {
            if !is_blank {
                return Err(XmlError::Fault(Fault::Malformed));
            }
            Ok(Nesting { elements, root })
        }
        Some(element) => {
            let element = text_added(text, element)?;
            push(&mut elements, element)?;
            Ok(Nesting { elements, root })
        }
    }
}

fn step(alloc: Global, state: Nesting, token: Token) -> Result<Nesting, XmlError>
    ensures { Gives open_view result (spec.step (open_view state) (token_view token)) }
{
    match token {
        Token::Open(name, attributes) => opened(raw(alloc, name, attributes), state),
        Token::Empty(name, attributes) => {
            let closing = name.clone()?;
            let state = opened(raw(alloc, name, attributes), state)?;
            closed(&closing, state)
        }
        Token::Close(name) => closed(&name, state),
        Token::Text(is_blank, text) => text_in(is_blank, text, state),
        Token::Nothing => Ok(state),
    }
}

fn root_of(state: Nesting) -> Result<Element, XmlError>
    ensures { Gives (λ e. e) result (spec.root_of (open_view state)) }
{
    let Nesting { mut elements, root } = state;
    if pop(&mut elements).is_some() {
        return Err(XmlError::Fault(Fault::Malformed));
    }
    match root {
        Some(root) => Ok(root),
        None => Err(XmlError::Fault(Fault::Malformed)),
    }
}

fn steps(alloc: Global, tokens: Vec<Token>) -> Result<Nesting, XmlError>
    ensures { Gives open_view result (spec.steps ([], None) (token_views tokens.items)) }
{
    let mut state = Nesting {
        elements: Vec::new(alloc),
        root: None,
    };
    let mut rest = tokens;
    rest.reverse();
    'tokens: while let Some(token) = pop(&mut rest) {
        state = step(alloc, state, token)?;
    }
    Ok(state)
}

/// The tree of a document's pieces of markup, with names as they are written.
#[tactic(auto, unfolding(crate::specs::Nesting::nested))]
pub fn nest(alloc: Global, tokens: Vec<Token>) -> Result<Element, XmlError>
    ensures { Gives (λ e. e) result (spec.nested (token_views tokens.items)) }
{
    root_of(steps(alloc, tokens)?)
}
