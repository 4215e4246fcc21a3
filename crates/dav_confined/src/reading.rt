//! What a head asks for is read in its bytes, as the machine reads it, and is looked up in the rules.
ghost use Rattle.std.specs.Prelude.{◌≡◌, ◌≢◌, ◌↔◌, None, Ok, Result, IfOk, IsTrue, MatchOption, codes};
ghost use Rattle.std.specs.Bool.{Decides};
ghost use Rattle.std.specs.Option.{option_copied};
ghost use Rattle.std.specs.Result.{result_ok};
ghost use Rattle.http_header.specs.HeaderMap.{get_all};
ghost use Rattle.dav_core.specs.Path.{PathText};
ghost use Rattle.dav_core.specs.declared.errors.DavError.{DavError as DavErrorValue};
ghost use Rattle.dav_core.specs.declared.errors.DavError.TheVariants.{Memory};
ghost use Rattle.dav_engine.specs.CopyMove.{DestinationNames};
ghost use Rattle.dav_server.specs.Machine.{Exchange, Settings};
ghost use Rattle.dav_server.specs.Target.{TargetNames};
ghost use Rattle.dav_confined.specs.Asked.{NamesPaths};
ghost use Rattle.dav_confined.specs.Leave.{HasLeave};
ghost use Rattle.dav_confined.specs.Sight.{MayLook, OnlyReads};

use crate::leave::Asked;
use dav_access::Rules;
use dav_core::davpath::DavPath;
use dav_core::errors::{DavError, NoMemory};
use dav_core::method::DavMethod;
use dav_engine::conditions::Conditions;
use dav_engine::{DavRequest, destination_in};
use dav_server::head::{headers_of, read_head};
use dav_server::method::method_of;
use dav_server::target::path_of;
use std::alloc::Global;

// No path, where a target names none; `NoMemory` where memory ran out.
fn never(error: DavError) -> Result<Option<DavPath>, NoMemory>
    ensures { IfOk result (λ path. (path ≡ None) × (error ≢ Memory)) }
{
    match error {
        DavError::Memory => Err(NoMemory),
        _ => Ok(None),
    }
}

// The path that a target names; none where it names none.
pub(crate) fn target_in(
    alloc: Global,
    method: DavMethod,
    target: &str,
    prefix: &str,
) -> Result<Option<DavPath>, NoMemory>
    ensures { IfOk result (λ path. MatchOption path
        ((p : PathText) → ¬ TargetNames prefix.now method target.now (Ok p))
        (λ p. TargetNames prefix.now method target.now (Ok p))) }
{
    match path_of(alloc, method, target, prefix) {
        Ok(path) => Ok(Some(path)),
        Err(error) => never(error),
    }
}

// The path that Destination names, if it names one.
fn destination_of(alloc: Global, request: &DavRequest) -> Result<Option<DavPath>, NoMemory>
    ensures { IfOk result (λ d. (place : Result PathText DavErrorValue)
        × DestinationNames request.now.path.prefix
        (get_all request.now.headers (codes "destination")) place
        × (d ≡ result_ok place)) }
{
    Ok(destination_in(alloc, request)?.ok())
}

// What a request asks for.
fn asked_of(alloc: Global, request: DavRequest) -> Result<Asked, NoMemory>
    ensures method { IfOk result (λ a. a.method ≡ request.method) }
    ensures path { IfOk result (λ a. a.path ≡ request.path) }
    ensures says { IfOk result (NamesPaths request.headers) }
{
    let destination = destination_of(alloc, &request)?;
    let conditions = Conditions::decode(alloc, &request, &request.path)?;
    let spoken_of = conditions.paths(alloc)?;
    Ok(Asked {
        method: request.method,
        path: request.path,
        destination,
        spoken_of,
    })
}

impl Asked {
    ghost use Rattle.std.specs.Prelude.{◌≡◌, IfOk, MatchOption};
    ghost use Rattle.dav_server.specs.Machine.{Exchange, Settings};
    ghost use Rattle.dav_confined.specs.Asked.{IsAsked, IsUnread};

    /// What the bytes of a head ask for below a prefix, as the machine reads them; `None` where they are no head, where the
    /// method isn't served, and where the target names no path: the machine answers these with an error.
    pub fn read(alloc: Global, head: &[u8], prefix: &str) -> Result<Option<Asked>, NoMemory>
        ensures { (s : Settings) (x : Exchange) → s.prefix ≡ prefix.now → x.head ≡ head.now
            → IfOk result (λ asked. MatchOption asked (IsUnread s x) (IsAsked s x)) }
    {
        let Ok(view) = read_head(head) else {
            return Ok(None);
        };
        let Ok(method) = method_of(view.method()) else {
            return Ok(None);
        };
        let Some(path) = target_in(alloc, method, view.target(), prefix)? else {
            return Ok(None);
        };
        let headers = headers_of(alloc, &view)?;
        let request = DavRequest {
            method,
            path,
            headers,
        };
        Ok(Some(asked_of(alloc, request)?))
    }
}

/// Whether a request with these bytes as its head, of this principal, none where no name was shown, has leave by rules, below a
/// prefix. One that the machine can't read has: it is answered with an error. `NoMemory` where memory runs out.
pub fn has_leave(
    alloc: Global,
    rules: &Rules,
    who: Option<&str>,
    head: &[u8],
    prefix: &str,
) -> Result<bool, NoMemory>
    ensures { (s : Settings) (x : Exchange) → s.prefix ≡ prefix.now → x.head ≡ head.now
        → x.principal ≡ option_copied who.entry
        → IfOk result (λ leave. IsTrue leave ↔ HasLeave rules.now s x) }
{
    match Asked::read(alloc, head, prefix)? {
        Some(asked) => Ok(asked.has_leave(rules, who)),
        None => Ok(true),
    }
}

/// Whether a request with these bytes as its head, of this principal, none where no name was shown, may look by rules, below a
/// prefix: it only reads, of a path of which its principal may see that something is there. `NoMemory` where memory runs out.
pub fn may_look(
    alloc: Global,
    rules: &Rules,
    who: Option<&str>,
    head: &[u8],
    prefix: &str,
) -> Result<bool, NoMemory>
    ensures { (s : Settings) (x : Exchange) → s.prefix ≡ prefix.now → x.head ≡ head.now
        → x.principal ≡ option_copied who.entry
        → IfOk result (λ may. IsTrue may ↔ MayLook rules.now s x) }
{
    let Some(asked) = Asked::read(alloc, head, prefix)? else {
        return Ok(false);
    };
    Ok(asked.may_look(rules, who))
}

/// Whether each request with these bytes as its head, of this principal, none where no name was shown, has leave by rules, below a
/// prefix, and only reads, at what its principal may read. `NoMemory` where memory runs out.
pub fn only_reads(
    alloc: Global,
    rules: &Rules,
    who: Option<&str>,
    head: &[u8],
    prefix: &str,
) -> Result<bool, NoMemory>
    ensures { IfOk result (λ is. Decides is
        (OnlyReads rules.now prefix.now (option_copied who.entry) head.now)) }
{
    let Some(asked) = Asked::read(alloc, head, prefix)? else {
        return Ok(true);
    };
    Ok(asked.only_reads(rules, who))
}
