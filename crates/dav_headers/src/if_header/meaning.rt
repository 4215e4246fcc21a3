//! What the texts in an If header mean: state tokens, entity tags and URLs, as owned values.
ghost use Rattle.std.specs.Prelude.{◌≡◌, List, map, Option, IfOk, IsErrOf};
ghost use Rattle.std.specs.List.{AllZip};
ghost use Rattle.url.specs.Parts.{Parts};
ghost use Rattle.dav_headers.specs.If.{Condition, ConditionList};
ghost use Rattle.dav_headers.specs.IfWritten.{written_token, written_tag, SaysItem, SaysCondition, SaysResource, SaysList};
ghost use Rattle.dav_headers.specs.IfTexts.{item_view, condition_view, resource_view, list_view};
ghost use Rattle.dav_headers.specs.IfView.{item_value, condition_value, list_value};
ghost use Rattle.dav_headers.specs.Value.{ReadsAs};

use super::written::{ConditionText, ItemText, ListText};
use super::{IfCondition, IfItem, IfList};
use crate::errors::HeaderError;
use crate::etag::ETag;
use std::alloc::Global;
use url::{ParseError, Url};

// The state token of these bytes.
fn state_token(alloc: Global, bytes: &[u8]) -> Result<IfItem, HeaderError>
    ensures { ReadsAs item_value SaysItem (written_token bytes.now) result }
{
    let Ok(text) = str::from_utf8(bytes) else {
        return Err(HeaderError::Invalid);
    };
    Ok(IfItem::StateToken(String::from_str(alloc, text)?))
}

// The entity tag of these bytes.
fn entity_tag(alloc: Global, bytes: &[u8]) -> Result<IfItem, HeaderError>
    ensures { ReadsAs item_value SaysItem (written_tag bytes.now) result }
{
    let Ok(text) = str::from_utf8(bytes) else {
        return Err(HeaderError::Invalid);
    };
    Ok(IfItem::ETag(ETag::from_str(alloc, text)?))
}

// The meaning of an item's text.
fn meant_item(alloc: Global, item: ItemText<'_>) -> Result<IfItem, HeaderError>
    ensures { ReadsAs item_value SaysItem (item_view item.entry) result }
{
    match item {
        ItemText::StateToken(bytes) => state_token(alloc, bytes),
        ItemText::EntityTag(bytes) => entity_tag(alloc, bytes),
    }
}

// The meaning of a condition.
fn meant_condition(alloc: Global, condition: ConditionText<'_>) -> Result<IfCondition, HeaderError>
    ensures { ReadsAs condition_value SaysCondition (condition_view condition.entry) result }
{
    let item = meant_item(alloc, condition.item)?;
    Ok(IfCondition {
        not: condition.not,
        item,
    })
}

// The meanings of the conditions, in order.
fn meant_conditions(
    alloc: Global,
    conditions: &[ConditionText<'_>],
) -> Result<Vec<IfCondition>, HeaderError>
    ensures ok { IfOk result (λ v. AllZip SaysCondition (map condition_view conditions.now)
        (map condition_value v.items)) }
    ensures invalid { IsErrOf result HeaderError.Invalid
        → (cs : List Condition) → ¬ AllZip SaysCondition (map condition_view conditions.now) cs }
{
    let mut meant = Vec::new(alloc);
    for condition in conditions {
        meant.push(meant_condition(alloc, *condition)?)?;
    }
    Ok(meant)
}

// The URL of a resource tag.
fn resource(alloc: Global, bytes: &[u8]) -> Result<Url, HeaderError>
    ensures ok { IfOk result (λ url. SaysResource (Some bytes.now) (Some url)) }
    ensures invalid { IsErrOf result HeaderError.Invalid → (u : Option Parts)
        → ¬ SaysResource (Some bytes.now) u }
{
    let Ok(text) = str::from_utf8(bytes) else {
        return Err(HeaderError::Invalid);
    };
    match Url::parse(alloc, text) {
        Ok(url) => Ok(url),
        Err(ParseError::OutOfMemory | ParseError::Overflow) => Err(HeaderError::Memory),
        Err(_) => Err(HeaderError::Invalid),
    }
}

// The meaning of a resource tag, where there is one.
fn meant_resource(alloc: Global, tag: Option<&[u8]>) -> Result<Option<Url>, HeaderError>
    ensures ok { IfOk result (λ u. SaysResource (resource_view tag.entry) u) }
    ensures invalid { IsErrOf result HeaderError.Invalid → (u : Option Parts)
        → ¬ SaysResource (resource_view tag.entry) u }
{
    match tag {
        Some(bytes) => Ok(Some(resource(alloc, bytes)?)),
        None => Ok(None),
    }
}

// The meaning of a list.
fn meant_list(alloc: Global, list: &ListText<'_>) -> Result<IfList, HeaderError>
    ensures ok { IfOk result (λ l. SaysList (list_view list.now) (list_value l)) }
    ensures invalid { IsErrOf result HeaderError.Invalid → (l : ConditionList)
        → ¬ SaysList (list_view list.now) l }
{
    let resource_tag = meant_resource(alloc, list.resource)?;
    let conditions = meant_conditions(alloc, &list.conditions)?;
    Ok(IfList {
        resource_tag,
        conditions,
    })
}

/// The meanings of the lists, in order; `Invalid` where one of them has none.
pub(super) fn meant_lists(alloc: Global, lists: &[ListText<'_>]) -> Result<Vec<IfList>, HeaderError>
    ensures ok { IfOk result (λ v. AllZip SaysList (map list_view lists.now)
        (map list_value v.items)) }
    ensures invalid { IsErrOf result HeaderError.Invalid
        → (ls : List ConditionList) → ¬ AllZip SaysList (map list_view lists.now) ls }
{
    let mut meant = Vec::new(alloc);
    for list in lists {
        meant.push(meant_list(alloc, list)?)?;
    }
    Ok(meant)
}
