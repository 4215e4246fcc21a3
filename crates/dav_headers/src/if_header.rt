//! The If header (RFC 4918, section 10.4).
ghost use Rattle.std.specs.Prelude.{◌≡◌, ◌∷◌, [], List, IfOk, IsErrOf};
ghost use Rattle.http_header.specs.FieldValue.{FieldValue};
ghost use Rattle.dav_headers.specs.If.{ConditionList, IsIf, IsIfHeader};
ghost use Rattle.dav_headers.specs.IfTokens.{Spells, Token};
ghost use Rattle.dav_headers.specs.IfView.{if_lists};

pub mod laws;
mod meaning;
mod tokens;
mod written;

use crate::errors::{HeaderError, NoMemory};
use crate::etag::ETag;
use http_header::HeaderValue;
use meaning::meant_lists;
use std::alloc::Global;
use tokens::parts_of;
use url::Url;
use written::lists_of;

/// An If header: its lists, at least one of which must be true.
#[derive(Debug, Drop)]
pub struct If(pub Vec<IfList>);

/// A list of conditions, all of which must be true of one resource.
#[derive(Debug, Drop)]
pub struct IfList {
    /// The resource that the list is about; `None` for the request's own.
    pub resource_tag: Option<Url>,
    /// One or more conditions.
    pub conditions: Vec<IfCondition>,
}

/// A condition: an item, and whether it must be false.
#[derive(Debug, Drop)]
pub struct IfCondition {
    /// Whether there is a `Not` before the item.
    pub not: bool,
    pub item: IfItem,
}

/// What a condition asks for.
#[derive(Debug, Drop)]
pub enum IfItem {
    /// A state token, such as that of a lock.
    StateToken(String),
    /// An entity tag of the resource.
    ETag(ETag),
}

impl If {
    /// The lists in the only value of a header (RFC 4918, section 10.4.2).
    ///
    /// `Invalid` where there isn't exactly one value, or it isn't one or more lists; `Memory` where memory runs out,
    /// or a resource tag is a URL past 4 GB, and only where there is one value, which is made of tokens.
    pub fn decode(alloc: Global, values: &[HeaderValue]) -> Result<If, HeaderError>
        ensures ok { IfOk result (λ x. IsIfHeader values.now (if_lists x)) }
        ensures invalid { IsErrOf result HeaderError.Invalid
            → (ls : List ConditionList) → ¬ IsIfHeader values.now ls }
        ensures memory { IsErrOf result HeaderError.Memory
            → (v : FieldValue) × (ts : List Token) × (values.now ≡ v ∷ []) × Spells v.bytes ts }
    {
        match values {
            [value] => read(alloc, value.as_bytes()),
            _ => Err(HeaderError::Invalid),
        }
    }
}

impl Clone for IfItem {
    ghost use Rattle.std.specs.Prelude.{◌≡◌};
    ghost use Rattle.dav_headers.specs.IfView.{item_value};

    ghost is_clone = { λ item copy. item_value copy ≡ item_value item };

    fn clone(&self) -> Result<IfItem, NoMemory> {
        match self {
            IfItem::StateToken(token) => Ok(IfItem::StateToken(token.clone()?)),
            IfItem::ETag(tag) => Ok(IfItem::ETag(tag.clone()?)),
        }
    }
}

impl Clone for IfCondition {
    ghost use Rattle.std.specs.Prelude.{◌≡◌};
    ghost use Rattle.dav_headers.specs.IfView.{condition_value};

    ghost is_clone = { λ condition copy. condition_value copy ≡ condition_value condition };

    fn clone(&self) -> Result<IfCondition, NoMemory> {
        Ok(IfCondition {
            not: self.not,
            item: self.item.clone()?,
        })
    }
}

impl Clone for IfList {
    ghost use Rattle.std.specs.Prelude.{◌≡◌};
    ghost use Rattle.dav_headers.specs.IfView.{list_value};

    ghost is_clone = { λ list copy. list_value copy ≡ list_value list };

    fn clone(&self) -> Result<IfList, NoMemory> {
        Ok(IfList {
            resource_tag: self.resource_tag.clone()?,
            conditions: self.conditions.clone()?,
        })
    }
}

impl Clone for If {
    ghost use Rattle.std.specs.Prelude.{◌≡◌};
    ghost use Rattle.dav_headers.specs.IfView.{if_lists};

    ghost is_clone = { λ lists copy. if_lists copy ≡ if_lists lists };

    fn clone(&self) -> Result<If, NoMemory> {
        Ok(If(self.0.clone()?))
    }
}

// The lists that a text is.
fn read(alloc: Global, text: &[u8]) -> Result<If, HeaderError>
    ensures ok { IfOk result (λ x. IsIf text.now (if_lists x)) }
    ensures invalid { IsErrOf result HeaderError.Invalid → (ls : List ConditionList)
        → ¬ IsIf text.now ls }
    ensures memory { IsErrOf result HeaderError.Memory → (ts : List Token) × Spells text.now ts }
{
    let parts = parts_of(alloc, text)?;
    let lists = lists_of(alloc, &parts)?;
    if lists.is_empty() {
        return Err(HeaderError::Invalid);
    }
    Ok(If(meant_lists(alloc, &lists)?))
}
