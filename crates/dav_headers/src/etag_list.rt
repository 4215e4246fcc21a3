//! Conditions on entity tags (RFC 9110, section 13.1).
ghost use Rattle.std.specs.Prelude.{◌≡◌, ◌++◌, ◌↔◌, List, All, map, string_bytes, IfOk, OnOk, IsTrue};
ghost use Rattle.dav_headers.specs.ETag.{tag_text, EntityTag, IsETag};
ghost use Rattle.dav_headers.specs.ETagList.{tag_list, tag_list_text, range_tag, AreTags, IsTagList, ReadTags, TagList};
ghost use Rattle.dav_headers.specs.Elements.{elements_of};
ghost use Rattle.dav_headers.specs.Value.{IsText, ReadsAs, Writes};

use crate::elements::{joined, trimmed};
use crate::errors::{HeaderError, NoMemory};
use crate::etag::ETag;
use crate::values::written;
use http_header::HeaderValue;
use std::alloc::Global;

/// The tags that a condition names.
#[derive(Debug, Drop)]
pub enum ETagList {
    /// One of these tags.
    Tags(Vec<ETag>),
    /// Any tag.
    Star,
}

/// The header If-Match: a request is carried out only where the resource has one of these tags.
#[derive(Debug, Drop)]
pub struct IfMatch(pub ETagList);

/// The header If-None-Match: a request is carried out only where the resource has none of these tags.
#[derive(Debug, Drop)]
pub struct IfNoneMatch(pub ETagList);

/// The header If-Range: a part is sent only where the resource has this tag.
#[derive(Debug, Drop)]
pub enum IfRange {
    /// This tag.
    ETag(ETag),
}

impl IfMatch {
    /// The tags in one or more values (RFC 9110, section 13.1.1). The first value that is `*` apart from white space
    /// means any tag, and the values after it aren't read. The others are split at commas, and list elements that
    /// aren't tags are skipped. `Invalid` where there are no values, and where one that is read isn't text.
    pub fn decode(alloc: Global, values: &[HeaderValue]) -> Result<IfMatch, HeaderError>
        ensures { ReadsAs (λ m. tag_list m.0) IsTagList values.now result }
    {
        Ok(IfMatch(ETagList::decode(alloc, values)?))
    }

    /// `*`, or the tags with a comma and a space between them; `Invalid` exactly where that isn't text.
    pub fn encode(&self, alloc: Global) -> Result<HeaderValue, HeaderError>
        ensures { Writes result (tag_list_text (tag_list self.now.0)) }
    {
        let Self(list) = self;
        list.encode(alloc)
    }
}

impl IfNoneMatch {
    /// The tags in one or more values (RFC 9110, section 13.1.2), read as those of `IfMatch` are.
    pub fn decode(alloc: Global, values: &[HeaderValue]) -> Result<IfNoneMatch, HeaderError>
        ensures { ReadsAs (λ m. tag_list m.0) IsTagList values.now result }
    {
        Ok(IfNoneMatch(ETagList::decode(alloc, values)?))
    }

    /// `*`, or the tags with a comma and a space between them; `Invalid` exactly where that isn't text.
    pub fn encode(&self, alloc: Global) -> Result<HeaderValue, HeaderError>
        ensures { Writes result (tag_list_text (tag_list self.now.0)) }
    {
        self.0.encode(alloc)
    }
}

impl IfRange {
    /// The tag in the only value (RFC 9110, section 13.1.5); `Invalid` for any other values, a date among them.
    pub fn decode(alloc: Global, values: &[HeaderValue]) -> Result<IfRange, HeaderError>
        ensures { ReadsAs range_tag IsETag values.now result }
    {
        Ok(IfRange::ETag(ETag::decode(alloc, values)?))
    }

    /// The tag as a value; `Invalid` exactly where it isn't text.
    pub fn encode(&self, alloc: Global) -> Result<HeaderValue, HeaderError>
        ensures { Writes result (tag_text (range_tag self.now).weak (range_tag self.now).tag) }
    {
        match self {
            IfRange::ETag(tag) => tag.encode(alloc),
        }
    }
}

impl ETagList {
    fn decode(alloc: Global, values: &[HeaderValue]) -> Result<ETagList, HeaderError>
        ensures { ReadsAs tag_list IsTagList values.now result }
    {
        if values.is_empty() || !can_be_read(values) {
            return Err(HeaderError::Invalid);
        }
        let mut tags = Vec::new(alloc);
        for value in values {
            let Ok(text) = value.to_str() else {
                return Err(HeaderError::Invalid);
            };
            if trimmed(text) == "*" {
                return Ok(ETagList::Star);
            }
            push_tags(alloc, &mut tags, text)?;
        }
        Ok(ETagList::Tags(tags))
    }

    fn encode(&self, alloc: Global) -> Result<HeaderValue, HeaderError>
        ensures { Writes result (tag_list_text (tag_list self.now)) }
    {
        match self {
            ETagList::Star => written(alloc, "*"),
            ETagList::Tags(tags) => {
                if !are_text(tags) {
                    return Err(HeaderError::Invalid);
                }
                let texts = texts(alloc, tags)?;
                let text = joined(alloc, &texts)?;
                written(alloc, &text)
            }
        }
    }
}

// Whether the values, up to the first that is `*`, are text.
fn can_be_read(values: &[HeaderValue]) -> bool
    ensures { IsTrue result ↔ (l : TagList) × ReadTags values.now l }
{
    for value in values {
        let Ok(text) = value.to_str() else {
            return false;
        };
        if trimmed(text) == "*" {
            return true;
        }
    }
    true
}

// Whether each tag can be in a value.
fn are_text(tags: &[ETag]) -> bool
    ensures { IsTrue result ↔ All (λ t. IsText (tag_text t.weak t.tag)) tags.now }
{
    tags.iter().all(|tag| tag.is_text())
}

// Adds the tags among the list elements of a text.
fn push_tags(alloc: Global, tags: &mut Vec<ETag>, text: &str) -> Result<(), NoMemory>
    ensures { OnOk result ((added : List EntityTag)
        × (tags.new.items ≡ tags.old.items ++ added) × AreTags (elements_of text.now) added) }
{
    for element in text.split(',') {
        let tag = match ETag::from_str(alloc, trimmed(element)) {
            Ok(tag) => tag,
            Err(HeaderError::Invalid) => continue,
            Err(HeaderError::Memory) => return Err(NoMemory),
        };
        tags.push(tag)?;
    }
    Ok(())
}

// Each tag as text.
fn texts(alloc: Global, tags: &[ETag]) -> Result<Vec<String>, NoMemory>
    ensures { IfOk result (λ texts. map string_bytes texts.items
        ≡ map (λ t. tag_text t.weak t.tag) tags.now) }
{
    let mut texts = Vec::new(alloc);
    for tag in tags {
        texts.push(format!(in alloc; "{tag}")?)?;
    }
    Ok(texts)
}

impl Clone for ETagList {
    ghost use Rattle.std.specs.Prelude.{◌≡◌};
    ghost use Rattle.dav_headers.specs.ETagList.{tag_list};

    ghost is_clone = { λ l copy. tag_list copy ≡ tag_list l };

    fn clone(&self) -> Result<ETagList, NoMemory> {
        Ok(match self {
            ETagList::Tags(tags) => ETagList::Tags(copied(tags)?),
            ETagList::Star => ETagList::Star,
        })
    }
}

// A copy of the tags.
fn copied(tags: &Vec<ETag>) -> Result<Vec<ETag>, NoMemory>
    ensures { IfOk result (λ copies. copies.items ≡ tags.now.items) }
{
    let mut copies = Vec::with_capacity(*tags.allocator(), tags.len())?;
    for tag in tags {
        copies.push(tag.clone()?)?;
    }
    Ok(copies)
}

impl Clone for IfMatch {
    ghost use Rattle.std.specs.Prelude.{◌≡◌};
    ghost use Rattle.dav_headers.specs.ETagList.{tag_list};

    ghost is_clone = { λ m copy. tag_list copy.0 ≡ tag_list m.0 };

    fn clone(&self) -> Result<IfMatch, NoMemory> {
        Ok(IfMatch(self.0.clone()?))
    }
}

impl Clone for IfNoneMatch {
    ghost use Rattle.std.specs.Prelude.{◌≡◌};
    ghost use Rattle.dav_headers.specs.ETagList.{tag_list};

    ghost is_clone = { λ m copy. tag_list copy.0 ≡ tag_list m.0 };

    fn clone(&self) -> Result<IfNoneMatch, NoMemory> {
        let Self(list) = self;
        Ok(IfNoneMatch(list.clone()?))
    }
}

impl Clone for IfRange {
    ghost use Rattle.std.specs.Prelude.{◌≡◌};
    ghost use Rattle.dav_headers.specs.ETagList.{range_tag};

    ghost is_clone = { λ r copy. range_tag copy ≡ range_tag r };

    fn clone(&self) -> Result<IfRange, NoMemory> {
        match self {
            IfRange::ETag(tag) => Ok(IfRange::ETag(tag.clone()?)),
        }
    }
}
