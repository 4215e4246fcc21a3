//! Conditions (RFC 9110, section 13; RFC 4918, section 10.4).
ghost use Rattle.std.specs.Prelude.{◌≡◌, ◌≢◌, ◌++◌, ◌∷◌, [], true, Option, Some, None, Result, codes, map, string_bytes, IfOk, OnOk};
ghost use Rattle.std.specs.List.{filter_map};
ghost use Rattle.std.specs.Option.{option_map, option_copied};
ghost use Rattle.http_header.specs.HeaderMap.{get_all};
ghost use Rattle.dav_core.specs.Path.{names};
ghost use Rattle.dav_core.specs.declared.errors.ParseError.TheVariants as ParseError;
ghost use Rattle.dav_headers.specs.ETagList.{IsTagList, tags, tag_list, range_tag};
ghost use Rattle.dav_headers.specs.If.{tokens_among};
ghost use Rattle.dav_engine.specs.Plan.{Locks};
ghost use Rattle.dav_headers.specs.IfView.{item_value, condition_value, if_lists};
ghost use Rattle.dav_engine.specs.Conditions as spec;
ghost use Rattle.dav_engine.specs.ConditionView.{list_of, locks_in, texts_of, tokens_or_status, IsHttpVerdict, IsDavIf, IsIfMatch, IsIfMatchGetTokens};
ghost use Rattle.dav_engine.specs.Follows.{Follows, FollowsOneWithLocks, or_memory, FollowsWithLocks};
ghost use Rattle.dav_engine.specs.Headers.{Decodes};

use crate::headers::{absent_if_invalid, values_of};
use crate::request::DavRequest;
use dav_core::davpath::DavPath;
use dav_core::errors::{NoMemory, ParseError};
use dav_core::fs::{DavFileSystem, DavMetaData};
use dav_core::ls::DavLockSystem;
use dav_core::method::DavMethod;
use dav_headers::{ETag, ETagList, If, IfCondition, IfItem, IfMatch, IfNoneMatch, IfRange, names};
use http::StatusCode;
use http_header::HeaderMap;
use std::alloc::Global;
use std::marker::Model;
use url::Url;

// A list of conditions, and the path that it applies to, where it applies to one.
#[derive(Drop)]
struct Addressed {
    path: Option<DavPath>,
    conditions: Vec<IfCondition>,
}

/// The conditions of a request, as its headers say them.
#[derive(Drop)]
pub struct Conditions {
    if_match: Option<ETagList>,
    if_none_match: Option<ETagList>,
    lists: Option<Vec<Addressed>>,
}

impl Model for Conditions {
    ghost use Rattle.dav_engine.specs.Conditions as said;

    ghost Value = { said.Conditions };

    ghost use Rattle.dav_engine.specs.ConditionView.{conditions_of};

    ghost view = { conditions_of };
}

/// Whether a list matches a resource that has this tag (RFC 9110, section 13.1): `*` where the resource exists, other lists
/// where one of their tags is this one by the strong comparison. Allocates nothing.
pub fn etaglist_match(list: &ETagList, exists: bool, tag: Option<&ETag>) -> bool
    ensures { result ≡ spec.matches (tag_list list.now) exists (option_copied tag.entry) }
{
    match list {
        ETagList::Star => exists,
        ETagList::Tags(tags) => match tag {
            Some(tag) => has_tag(tags, tag),
            None => false,
        },
    }
}

// Whether one of these tags is this one.
fn has_tag(list: &[ETag], tag: &ETag) -> bool
    ensures { result ≡ spec.matches (tags list.now) true (Some tag.now) }
{
    list.iter().any(|t| t.strong_eq(tag))
}

/// Whether the tag of an If-Range is the one of a resource, by the strong comparison (RFC 9110, section 13.1.5). Allocates
/// nothing.
pub fn ifrange_match(range: &IfRange, tag: Option<&ETag>) -> bool
    ensures { result
        ≡ spec.matches (tags (range_tag range.now ∷ [])) true (option_copied tag.entry) }
{
    match (range, tag) {
        (IfRange::ETag(wanted), Some(tag)) => wanted.strong_eq(tag),
        (IfRange::ETag(_), None) => false,
    }
}

// The tag of what was found, where it has one.
fn tag_found(alloc: Global, found: Option<&DavMetaData>) -> Result<Option<ETag>, NoMemory>
    ensures { IfOk result (λ tag. tag ≡ spec.tag_found (option_copied found.entry)) }
{
    let Some(meta) = found else {
        return Ok(None);
    };
    let Some(number) = meta.number else {
        return Ok(None);
    };
    let text = format!(in alloc; "{number:x}")?;
    match ETag::new(alloc, false, &text) {
        Ok(tag) => Ok(Some(tag)),
        Err(_) => Err(NoMemory),
    }
}

fn is_reading(method: DavMethod) -> bool
    ensures { result ≡ spec.is_reading method }
{
    match method {
        DavMethod::Get => true,
        DavMethod::Head => true,
        _ => false,
    }
}

// The status that If-Match and If-None-Match answer, if they do.
fn http_status(
    alloc: Global,
    method: DavMethod,
    if_match: &Option<ETagList>,
    if_none_match: &Option<ETagList>,
    found: Option<&DavMetaData>,
) -> Result<Option<StatusCode>, NoMemory>
    ensures { IfOk result (λ status.
        status ≡ spec.http_conditions method (option_map tag_list if_match.now)
        (option_map tag_list if_none_match.now) (option_copied found.entry)) }
{
    let exists = found.is_some();
    let tag = tag_found(alloc, found)?;
    if let Some(list) = if_match {
        if !etaglist_match(list, exists, tag.as_ref()) {
            return Ok(Some(StatusCode::PRECONDITION_FAILED));
        }
    }
    if let Some(list) = if_none_match {
        if etaglist_match(list, exists, tag.as_ref()) {
            if is_reading(method) {
                return Ok(Some(StatusCode::NOT_MODIFIED));
            }
            return Ok(Some(StatusCode::PRECONDITION_FAILED));
        }
    }
    Ok(None)
}

// The list of an If-Match header.
fn match_in(alloc: Global, headers: &HeaderMap) -> Result<Option<ETagList>, NoMemory>
    ensures { IfOk result (λ list.
        Decodes IsTagList (get_all headers.now (codes "if-match")) (option_map tag_list list)) }
{
    let values = values_of(alloc, headers, names::IF_MATCH())?;
    match absent_if_invalid(IfMatch::decode(alloc, &values))? {
        Some(list) => Ok(Some(list.0)),
        None => Ok(None),
    }
}

// The list of an If-None-Match header.
fn none_match_in(alloc: Global, headers: &HeaderMap) -> Result<Option<ETagList>, NoMemory>
    ensures { IfOk result (λ list.
        Decodes IsTagList (get_all headers.now (codes "if-none-match"))
        (option_map tag_list list)) }
{
    let values = values_of(alloc, headers, names::IF_NONE_MATCH())?;
    match absent_if_invalid(IfNoneMatch::decode(alloc, &values))? {
        Some(list) => Ok(Some(list.0)),
        None => Ok(None),
    }
}

// No path where a text names none; `NoMemory` where memory ran out.
fn no_path(error: ParseError) -> Result<Option<DavPath>, NoMemory>
    ensures { IfOk result (λ path. (path ≡ None) × (error ≢ ParseError.Memory)) }
{
    match error {
        ParseError::Memory => Err(NoMemory),
        _ => Ok(None),
    }
}

// The path that a resource tag names below a prefix, where it names one.
fn tagged_path(alloc: Global, prefix: &str, url: &Url) -> Result<Option<DavPath>, NoMemory>
    ensures { IfOk result (λ path.
        spec.SpeaksOf prefix.now [] (Some url.now) (option_map names path)) }
{
    let mut path = match DavPath::new(alloc, url.path()) {
        Ok(path) => path,
        Err(error) => return no_path(error),
    };
    if path.is_star() {
        return Ok(None);
    }
    match path.set_prefix(prefix) {
        Ok(()) => Ok(Some(path)),
        Err(error) => no_path(error),
    }
}

// The path that a list applies to, where it applies to one.
fn spoken_of(
    alloc: Global,
    prefix: &str,
    own: &DavPath,
    resource: &Option<Url>,
) -> Result<Option<DavPath>, NoMemory>
    ensures { IfOk result (λ path.
        spec.SpeaksOf prefix.now (names own.now) resource.now (option_map names path)) }
{
    match resource {
        Some(url) => tagged_path(alloc, prefix, url),
        None => Ok(Some(own.clone()?)),
    }
}

// The lists of an If header, each with the path that it applies to.
fn lists_of(
    alloc: Global,
    prefix: &str,
    own: &DavPath,
    header: If,
) -> Result<Vec<Addressed>, NoMemory>
    ensures { IfOk result (λ lists.
        spec.AreAddressed prefix.now (names own.now) (if_lists header) (map list_of lists.items)) }
{
    let If(lists) = header;
    let mut all = Vec::new(alloc);
    for list in lists {
        let path = spoken_of(alloc, prefix, own, &list.resource_tag)?;
        all.push(Addressed {
            path,
            conditions: list.conditions,
        })?;
    }
    Ok(all)
}

// The lists of the If header of a request, where it has one that decodes.
fn lists_in(
    alloc: Global,
    request: &DavRequest,
    own: &DavPath,
) -> Result<Option<Vec<Addressed>>, NoMemory>
    ensures { IfOk result (λ lists.
        Decodes (spec.SaysLists request.now.path.prefix (names own.now))
        (get_all request.now.headers (codes "if"))
        (option_map (λ ls. map list_of ls.items) lists)) }
{
    let values = values_of(alloc, &request.headers, names::IF())?;
    match absent_if_invalid(If::decode(alloc, &values))? {
        Some(header) => Ok(Some(lists_of(alloc, request.path.prefix(), own, header)?)),
        None => Ok(None),
    }
}

// Whether a state token is true of a path.
fn token_holds<L: DavLockSystem>(ls: Option<&L>, path: &DavPath, token: &String) -> bool
    ensures { result
        ≡ spec.token_holds (string_bytes token.now) (names path.now) (locks_in L.locks ls.entry) }
{
    let Some(ls) = ls else {
        return false;
    };
    if token.as_bytes().starts_with(b"DAV:") {
        return false;
    }
    ls.check(path, None, true, false, std::slice::from_ref(token))
        .is_ok()
}

// Whether what is at a path has this entity tag; the store is asked.
fn tag_holds<F: DavFileSystem>(
    fs: &mut F,
    alloc: Global,
    path: &DavPath,
    tag: &ETag,
) -> Result<bool, NoMemory>
    ensures { (ls : Locks) → Follows (λ b. b) (spec.has_tag (names path.now) tag.now)
        (F.state fs.old) ls (or_memory result) (F.state fs.new) ls }
{
    let found = fs.metadata(path).ok();
    match tag_found(alloc, found.as_ref())? {
        Some(current) => Ok(tag.strong_eq(&current)),
        None => Ok(false),
    }
}

// Whether an item is true of a path.
fn item_holds<F: DavFileSystem, L: DavLockSystem>(
    fs: &mut F,
    ls: Option<&L>,
    alloc: Global,
    path: &Option<DavPath>,
    item: &IfItem,
) -> Result<bool, NoMemory>
    ensures { FollowsWithLocks (locks_in L.locks ls.entry) (λ b. b)
        (spec.item_holds (option_map names path.now) (item_value item.now))
        (F.state fs.old) (or_memory result) (F.state fs.new) }
{
    let Some(path) = path else {
        return Ok(false);
    };
    match item {
        IfItem::StateToken(token) => Ok(token_holds(ls, path, token)),
        IfItem::ETag(tag) => tag_holds(fs, alloc, path, tag),
    }
}

// Whether all conditions hold of a path.
fn all_hold<F: DavFileSystem, L: DavLockSystem>(
    fs: &mut F,
    ls: Option<&L>,
    alloc: Global,
    path: &Option<DavPath>,
    conditions: &[IfCondition],
) -> Result<bool, NoMemory>
    ensures { FollowsWithLocks (locks_in L.locks ls.entry) (λ b. b)
        (spec.all_hold (option_map names path.now) (map condition_value conditions.now))
        (F.state fs.old) (or_memory result) (F.state fs.new) }
{
    for condition in conditions {
        if item_holds(fs, ls, alloc, path, &condition.item)? == condition.not {
            return Ok(false);
        }
    }
    Ok(true)
}

// Whether one of the lists holds.
fn some_holds<F: DavFileSystem, L: DavLockSystem>(
    fs: &mut F,
    ls: Option<&L>,
    alloc: Global,
    lists: &[Addressed],
) -> Result<bool, NoMemory>
    ensures { FollowsWithLocks (locks_in L.locks ls.entry) (λ b. b)
        (spec.some_holds (map list_of lists.now))
        (F.state fs.old) (or_memory result) (F.state fs.new) }
{
    for list in lists {
        if all_hold(fs, ls, alloc, &list.path, &list.conditions)? {
            return Ok(true);
        }
    }
    Ok(false)
}

// Whether an If header holds; without the header the answer is yes.
fn if_holds<F: DavFileSystem, L: DavLockSystem>(
    fs: &mut F,
    ls: Option<&L>,
    alloc: Global,
    lists: &Option<Vec<Addressed>>,
) -> Result<bool, NoMemory>
    ensures { FollowsWithLocks (locks_in L.locks ls.entry) (λ b. b)
        (spec.if_holds (option_map (λ l. map list_of l.items) lists.now))
        (F.state fs.old) (or_memory result) (F.state fs.new) }
{
    match lists {
        Some(lists) => some_holds(fs, ls, alloc, lists),
        None => Ok(true),
    }
}

// Adds the state tokens of a list.
fn push_tokens(tokens: &mut Vec<String>, conditions: &[IfCondition]) -> Result<(), NoMemory>
    ensures { OnOk result (texts_of tokens.new ≡ texts_of tokens.old
        ++ tokens_among (map condition_value conditions.now)) }
{
    for condition in conditions {
        if let IfItem::StateToken(token) = &condition.item {
            tokens.push(token.clone()?)?;
        }
    }
    Ok(())
}

// The state tokens that are submitted, of all lists in order.
fn submitted(alloc: Global, lists: &Option<Vec<Addressed>>) -> Result<Vec<String>, NoMemory>
    ensures { IfOk result (λ tokens.
        texts_of tokens ≡ spec.submitted (option_map (λ l. map list_of l.items) lists.now)) }
{
    let mut tokens = Vec::new(alloc);
    if let Some(lists) = lists {
        for list in lists {
            push_tokens(&mut tokens, &list.conditions)?;
        }
    }
    Ok(tokens)
}

// Adds the paths that lists speak of.
fn push_paths(paths: &mut Vec<DavPath>, lists: &[Addressed]) -> Result<(), NoMemory>
    ensures { OnOk result (map names paths.new.items ≡ map names paths.old.items
        ++ filter_map (λ l. l.path) (map list_of lists.now)) }
{
    for list in lists {
        if let Some(path) = &list.path {
            paths.push(path.clone()?)?;
        }
    }
    Ok(())
}

impl Conditions {
    /// The conditions that the headers of a request state for a path; a header that doesn't decode counts as absent. The
    /// resource tags of If (RFC 4918, section 10.4.1) name paths below the prefix of the request's path.
    pub fn decode(
        alloc: Global,
        request: &DavRequest,
        path: &DavPath,
    ) -> Result<Conditions, NoMemory>
        ensures { IfOk result (λ c.
            spec.AreConditions request.now.headers request.now.path.prefix (names path.now) c) }
    {
        Ok(Conditions {
            if_match: match_in(alloc, &request.headers)?,
            if_none_match: none_match_in(alloc, &request.headers)?,
            lists: lists_in(alloc, request, path)?,
        })
    }

    /// The paths that the lists of If speak of, in order; none without the header (RFC 4918, section 10.4.2).
    pub fn paths(&self, alloc: Global) -> Result<Vec<DavPath>, NoMemory>
        ensures { IfOk result (λ paths. map names paths.items ≡ spec.paths_in self.now.lists) }
    {
        let mut paths = Vec::new(alloc);
        if let Some(lists) = &self.lists {
            push_paths(&mut paths, lists)?;
        }
        Ok(paths)
    }

    /// Whether only what is there already is to be changed: If-Match is `*`. Allocates nothing.
    pub fn wants_something(&self) -> bool
        ensures { result ≡ spec.is_star self.now.if_match }
    {
        matches!(self.if_match, Some(ETagList::Star))
    }

    /// Whether nothing may be there yet: If-None-Match is `*`. Allocates nothing.
    pub fn wants_nothing(&self) -> bool
        ensures { result ≡ spec.is_star self.now.if_none_match }
    {
        matches!(self.if_none_match, Some(ETagList::Star))
    }

    /// The status that the conditions answer, with If evaluated first (RFC 4918, section 10.4; RFC 9110, section 13.2): 412
    /// where If or If-Match doesn't hold; where If-None-Match doesn't, 304 for GET and HEAD, else 412. Each entity tag of
    /// If that is evaluated asks the store once.
    pub fn if_match<F: DavFileSystem, L: DavLockSystem>(
        &self,
        alloc: Global,
        method: DavMethod,
        found: Option<&DavMetaData>,
        fs: &mut F,
        ls: Option<&L>,
    ) -> Result<Option<StatusCode>, NoMemory>
        ensures { FollowsWithLocks (locks_in L.locks ls.entry) (λ status. status)
            (spec.if_match method self.now (option_copied found.entry))
            (F.state fs.old) (or_memory result) (F.state fs.new) }
    {
        if !if_holds(fs, ls, alloc, &self.lists)? {
            return Ok(Some(StatusCode::PRECONDITION_FAILED));
        }
        http_status(alloc, method, &self.if_match, &self.if_none_match, found)
    }

    /// Whether If holds (RFC 4918, section 10.4), and the tokens that it submits: those of all its lists, in order, whether or
    /// not they hold. Without If the answer is yes, with no tokens.
    pub fn dav_if_match<F: DavFileSystem, L: DavLockSystem>(
        &self,
        alloc: Global,
        fs: &mut F,
        ls: Option<&L>,
    ) -> Result<(bool, Vec<String>), NoMemory>
        ensures { FollowsWithLocks (locks_in L.locks ls.entry) (λ r. (r.0, texts_of r.1))
            (spec.dav_if_match self.now.lists)
            (F.state fs.old) (or_memory result) (F.state fs.new) }
    {
        let holds = if_holds(fs, ls, alloc, &self.lists)?;
        Ok((holds, submitted(alloc, &self.lists)?))
    }

    /// The tokens that If submits: those of all its lists, in order, whether or not they hold; none without If.
    pub fn tokens(&self, alloc: Global) -> Result<Vec<String>, NoMemory>
        ensures { IfOk result (λ tokens. texts_of tokens ≡ spec.submitted self.now.lists) }
    {
        submitted(alloc, &self.lists)
    }

    /// The tokens that If submits, all of them in order; or the status that the conditions answer, as `if_match` does, but
    /// with If evaluated last.
    pub fn if_match_get_tokens<F: DavFileSystem, L: DavLockSystem>(
        &self,
        alloc: Global,
        method: DavMethod,
        found: Option<&DavMetaData>,
        fs: &mut F,
        ls: Option<&L>,
    ) -> Result<Result<Vec<String>, StatusCode>, NoMemory>
        ensures { FollowsWithLocks (locks_in L.locks ls.entry) tokens_or_status
            (spec.if_match_get_tokens method self.now (option_copied found.entry))
            (F.state fs.old) (or_memory result) (F.state fs.new) }
    {
        let status = http_status(alloc, method, &self.if_match, &self.if_none_match, found)?;
        if let Some(status) = status {
            return Ok(Err(status));
        }
        if !if_holds(fs, ls, alloc, &self.lists)? {
            return Ok(Err(StatusCode::PRECONDITION_FAILED));
        }
        Ok(Ok(submitted(alloc, &self.lists)?))
    }
}

/// The status that If-Match and If-None-Match answer, if they do (RFC 9110, sections 13.1.1 and 13.1.2): 412 where If-Match
/// doesn't match what was found; and where If-None-Match matches it, 304 for GET and HEAD, 412 for other methods. Both
/// compare strongly, and `*` matches whatever was found.
pub fn http_if_match(
    alloc: Global,
    request: &DavRequest,
    found: Option<&DavMetaData>,
) -> Result<Option<StatusCode>, NoMemory>
    ensures { IfOk result
        (IsHttpVerdict request.now.method request.now.headers (option_copied found.entry)) }
{
    let if_match = match_in(alloc, &request.headers)?;
    let if_none_match = none_match_in(alloc, &request.headers)?;
    http_status(alloc, request.method, &if_match, &if_none_match, found)
}

/// Whether the If header of a request holds (RFC 4918, section 10.4), and the tokens that it submits: those of all its
/// lists, in order, whether or not they hold. Without the header the answer is yes, with no tokens.
pub fn dav_if_match<F: DavFileSystem, L: DavLockSystem>(
    alloc: Global,
    request: &DavRequest,
    fs: &mut F,
    ls: Option<&L>,
    path: &DavPath,
) -> Result<(bool, Vec<String>), NoMemory>
    ensures { FollowsOneWithLocks (locks_in L.locks ls.entry) (λ r. (r.0, texts_of r.1))
        (IsDavIf request.now path.now) (F.state fs.old) result (F.state fs.new) }
{
    let lists = lists_in(alloc, request, path)?;
    let holds = if_holds(fs, ls, alloc, &lists)?;
    Ok((holds, submitted(alloc, &lists)?))
}

/// The status that the conditions of a request answer, with If evaluated first: as `Conditions::if_match`.
pub fn if_match<F: DavFileSystem, L: DavLockSystem>(
    alloc: Global,
    request: &DavRequest,
    found: Option<&DavMetaData>,
    fs: &mut F,
    ls: Option<&L>,
    path: &DavPath,
) -> Result<Option<StatusCode>, NoMemory>
    ensures { FollowsOneWithLocks (locks_in L.locks ls.entry) (λ status. status)
        (IsIfMatch request.now path.now (option_copied found.entry))
        (F.state fs.old) result (F.state fs.new) }
{
    let conditions = Conditions::decode(alloc, request, path)?;
    conditions.if_match(alloc, request.method, found, fs, ls)
}

/// The tokens that If submits, or the status that the conditions of a request answer, with If evaluated last: as
/// `Conditions::if_match_get_tokens`.
pub fn if_match_get_tokens<F: DavFileSystem, L: DavLockSystem>(
    alloc: Global,
    request: &DavRequest,
    found: Option<&DavMetaData>,
    fs: &mut F,
    ls: Option<&L>,
    path: &DavPath,
) -> Result<Result<Vec<String>, StatusCode>, NoMemory>
    ensures { FollowsOneWithLocks (locks_in L.locks ls.entry) tokens_or_status
        (IsIfMatchGetTokens request.now path.now (option_copied found.entry))
        (F.state fs.old) result (F.state fs.new) }
{
    let conditions = Conditions::decode(alloc, request, path)?;
    conditions.if_match_get_tokens(alloc, request.method, found, fs, ls)
}
