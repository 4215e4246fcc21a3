//! Element trees, made part by part (RFC 4918, section 14).
ghost use Rattle.std.specs.Prelude.{◌≡◌, [], string_bytes, IfOk, IsOkAnd};
ghost use Rattle.std.specs.Option.{option_copied, option_map};
ghost use Rattle.dav_core.specs.Element.{element, named_by, no_trees, text, with_child};
ghost use Rattle.dav_engine.specs.Multistatus.{declares_dav};

use dav_core::element::Element;
use dav_core::errors::NoMemory;
use std::alloc::Global;

// An element with an element in it.
pub(crate) fn holding(alloc: Global, name: &str, child: Element) -> Result<Element, NoMemory>
    ensures { IfOk result (λ e. e ≡ with_child (named_by name.now) child) }
{
    let mut element = Element::new2(alloc, name)?;
    element.push_element(child)?;
    Ok(element)
}

// An element with a text in it.
pub(crate) fn saying(alloc: Global, name: &str, value: &str) -> Result<Element, NoMemory>
    ensures { IfOk result (λ e. e ≡ with_child (named_by name.now) (text value.now)) }
{
    with_text(Element::new2(alloc, name), value)
}

// An element with one more text, where there was memory for it.
pub(crate) fn with_text(
    element: Result<Element, NoMemory>,
    value: &str,
) -> Result<Element, NoMemory>
    ensures { IfOk result (λ e. IsOkAnd element (λ parent.
        e ≡ with_child parent (text value.now))) }
{
    let mut element = element?;
    element.text(value)?;
    Ok(element)
}

// An element of that name, prefix and namespace, with nothing in it.
pub(crate) fn bare(
    alloc: Global,
    name: &str,
    prefix: Option<&str>,
    namespace: Option<&str>,
) -> Result<Element, NoMemory>
    ensures { IfOk result (λ e. e ≡ element name.now (option_copied prefix.entry)
        (option_copied namespace.entry) [] no_trees) }
{
    Ok(Element {
        name: String::from_str(alloc, name)?,
        prefix: copy_of(alloc, prefix)?,
        namespace: copy_of(alloc, namespace)?,
        attributes: Vec::new(alloc),
        children: Vec::new(alloc),
    })
}

// An element without children that declares the prefix of the namespace `DAV:`.
pub(crate) fn declaring_dav(alloc: Global, name: &str) -> Result<Element, NoMemory>
    ensures { IfOk result (λ e. e ≡ declares_dav (named_by name.now)) }
{
    let mut element = Element::new2(alloc, name)?;
    element.ns("D", "DAV:")?;
    Ok(element)
}

// An element with one more child, where there was memory for both. Who calls it holds nothing when memory runs out, which
// keeps its proof short.
pub(crate) fn with_child(
    element: Result<Element, NoMemory>,
    child: Result<Element, NoMemory>,
) -> Result<Element, NoMemory>
    ensures { IfOk result (λ e. IsOkAnd element (λ parent. IsOkAnd child (λ c.
        e ≡ with_child parent c))) }
{
    let mut element = element?;
    element.push_element(child?)?;
    Ok(element)
}

// A copy of a text.
pub(crate) fn copy_of(alloc: Global, text: Option<&str>) -> Result<Option<String>, NoMemory>
    ensures { IfOk result (λ copy. option_map string_bytes copy ≡ option_copied text.entry) }
{
    match text {
        Some(text) => Ok(Some(String::from_str(alloc, text)?)),
        None => Ok(None),
    }
}
