//! The languages of a body (RFC 9110, section 8.5).
ghost use Rattle.std.specs.Prelude.{◌≡◌, ◌++◌, ◌↔◌, All, map, string_bytes, IfOk, OnOk, IsOkUnless, IsTrue};
ghost use Rattle.http_header.specs.FieldValue.{plain_value};
ghost use Rattle.dav_headers.specs.Language.{AreLanguages, IsLanguage};
ghost use Rattle.dav_headers.specs.Elements.{joined, elements_of};
ghost use Rattle.dav_headers.specs.Value.{IsText, ReadsBy};

use crate::elements::{joined, trimmed};
use crate::errors::{HeaderError, NoMemory};
use crate::values::written;
use http_header::HeaderValue;
use std::alloc::Global;
use std::marker::Model;

/// The header Content-Language: the languages of the audience that a body is meant for.
#[derive(Debug, Drop)]
pub struct ContentLanguage {
    items: Vec<String>,
}

impl Model for ContentLanguage {
    ghost use Rattle.std.specs.Prelude.{ℕ, List, All, map, string_bytes};
    ghost use Rattle.dav_headers.specs.Language.{IsLanguage};

    ghost Value = { List (List ℕ) };

    ghost view = { λ l. map string_bytes l.items.items };

    ghost invariant = { λ l. All IsLanguage (map string_bytes l.items.items) };
}

impl ContentLanguage {
    /// The languages in all the values, without white space around them. Each list element is one or more letters,
    /// digits and hyphens. `Invalid` where there are no values, or one isn't text, or a list element is something
    /// else.
    pub fn decode(alloc: Global, values: &[HeaderValue]) -> Result<ContentLanguage, HeaderError>
        ensures { ReadsBy AreLanguages values.now result }
    {
        if values.is_empty() || !can_be_read(values) {
            return Err(HeaderError::Invalid);
        }
        let mut items = Vec::new(alloc);
        for value in values {
            let Ok(text) = value.to_str() else {
                return Err(HeaderError::Invalid);
            };
            push_elements(alloc, &mut items, text)?;
        }
        Ok(ContentLanguage { items })
    }

    /// The languages in order, with a comma and a space between them.
    pub fn encode(&self, alloc: Global) -> Result<HeaderValue, HeaderError>
        ensures ok { IfOk result (λ v. v ≡ plain_value (joined self.now)) }
        ensures err { IsOkUnless result HeaderError.Memory }
    {
        let text = joined(alloc, &self.items)?;
        written(alloc, &text)
    }

    /// The languages, in order, each as often as it occurs. Allocates nothing.
    pub fn iter_langs(&self) -> Langs<'_>
        ensures { result ≡ self.now }
    {
        Langs { rest: &self.items }
    }
}

// Whether each value is text whose list elements are languages.
fn can_be_read(values: &[HeaderValue]) -> bool
    ensures { IsTrue result
        ↔ All (λ v. IsText v.bytes × All IsLanguage (elements_of v.bytes)) values.now }
{
    for value in values {
        let Ok(text) = value.to_str() else {
            return false;
        };
        if !are_languages(text) {
            return false;
        }
    }
    true
}

// Whether each list element of a text is a language.
fn are_languages(text: &str) -> bool
    ensures { IsTrue result ↔ All IsLanguage (elements_of text.now) }
{
    for element in text.split(',') {
        if !is_language(trimmed(element)) {
            return false;
        }
    }
    true
}

// Adds the list elements of a text.
fn push_elements(alloc: Global, items: &mut Vec<String>, text: &str) -> Result<(), NoMemory>
    ensures { OnOk result (map string_bytes items.new.items
        ≡ map string_bytes items.old.items ++ elements_of text.now) }
{
    for element in text.split(',') {
        items.push(String::from_str(alloc, trimmed(element))?)?;
    }
    Ok(())
}

fn is_language(item: &str) -> bool
    ensures { IsTrue result ↔ IsLanguage item.now }
{
    !item.is_empty()
        && item
            .as_bytes()
            .iter()
            .all(|b| b.is_ascii_alphanumeric() || *b == b'-')
}

impl Clone for ContentLanguage {
    ghost use Rattle.std.specs.Prelude.{◌≡◌};

    ghost is_clone = { λ l copy. copy ≡ l };

    fn clone(&self) -> Result<ContentLanguage, NoMemory> {
        Ok(ContentLanguage {
            items: copied(&self.items)?,
        })
    }
}

// A copy of the texts.
fn copied(items: &Vec<String>) -> Result<Vec<String>, NoMemory>
    ensures { IfOk result (λ copies. map string_bytes copies.items
        ≡ map string_bytes items.now.items) }
{
    let mut copies = Vec::with_capacity(*items.allocator(), items.len())?;
    for item in items {
        copies.push(item.clone()?)?;
    }
    Ok(copies)
}

/// Equal languages, in the same order.
impl PartialEq for ContentLanguage {
    ghost use Rattle.std.specs.Prelude.{◌==◌};
    ghost use Rattle.std.specs.Cmp.Lexicographic.{pointwise};
    ghost use Rattle.std.specs.Cmp.Rules.{comparing};
    ghost use Rattle.std.proofs.Common.{rules};

    ghost eq = { pointwise (pointwise ◌==◌) };

    ghost laws = { Prim.search (comparing, rules) };

    fn eq(&self, other: &ContentLanguage) -> bool {
        self.items == other.items
    }
}

impl Eq for ContentLanguage {
    ghost use Rattle.std.specs.Cmp.Rules.{comparing};
    ghost use Rattle.std.proofs.Common.{rules};

    ghost laws = { Prim.search (comparing, rules) };
}

/// The languages of a `ContentLanguage`, in order.
#[derive(Drop)]
pub struct Langs<'a> {
    rest: &'a [String],
}

impl<'a> Model for Langs<'a> {
    ghost use Rattle.std.specs.Prelude.{ℕ, List, map, string_bytes};

    ghost Value = { List (List ℕ) };

    ghost view = { λ langs. map string_bytes langs.rest.now };
}

impl<'a> Iterator for Langs<'a> {
    type Item = &'a str;

    ghost use Rattle.std.specs.Iterator.{YieldsFirstRef, item_count};

    ghost next_gives = { YieldsFirstRef (λ langs. langs) };

    ghost remaining = { item_count (λ langs. langs) };

    fn next(&mut self) -> Option<&'a str> {
        let (first, rest) = self.rest.split_first()?;
        self.rest = rest;
        Some(first.as_str())
    }
}
