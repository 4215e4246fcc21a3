//! What the headers of a LOCK say (RFC 4918, sections 9.10, 10.2 and 10.7), and how long the lock is to last.
ghost use Rattle.std.specs.Prelude.{◌≡◌, codes, option_map, IfOk};
ghost use Rattle.std.specs.Option.{option_copied};
ghost use Rattle.http_header.specs.HeaderMap.{get_all};
ghost use Rattle.dav_headers.specs.Timeout.{IsTimeout};
ghost use Rattle.dav_engine.specs.Headers.{Decodes};
ghost use Rattle.dav_engine.specs.LockHeaders as spec;

use crate::conditions::Conditions;
use crate::depth::depth_in;
use crate::headers::{absent_if_invalid, values_of};
use crate::lock_scope::LockScope;
use crate::request::DavRequest;
use dav_core::errors::NoMemory;
use dav_headers::{DavTimeout, Depth, Timeout, names};
use http_header::HeaderMap;
use std::alloc::Global;
use std::marker::Model;

/// What the headers say.
#[derive(Drop)]
pub struct LockHeaders {
    pub conditions: Conditions,
    pub depth: Option<Depth>,
    pub timeout: Option<Timeout>,
}

impl Model for LockHeaders {
    ghost use Rattle.dav_engine.specs.LockHeaders as said;

    ghost Value = { said.LockHeaders };

    ghost use Rattle.dav_engine.specs.LockView.{lock_headers_of};

    ghost view = { lock_headers_of };
}

// How long a lock is wanted.
fn timeout_in(alloc: Global, headers: &HeaderMap) -> Result<Option<Timeout>, NoMemory>
    ensures { IfOk result (λ timeout. Decodes IsTimeout (get_all headers.now (codes "timeout"))
        (option_map (λ t. t.0.items) timeout)) }
{
    let values = values_of(alloc, headers, names::TIMEOUT())?;
    absent_if_invalid(Timeout::decode(alloc, &values))
}

// How many seconds a lock lasts at most.
fn longest(scope: LockScope) -> u64
    ensures { result ≡ spec.longest scope }
{
    match scope {
        LockScope::Exclusive => 600,
        LockScope::Shared => 86_400,
    }
}

// For how many seconds a new lock is granted where this time is wanted.
fn granted_seconds(scope: LockScope, wanted: &DavTimeout) -> u64
    ensures { result ≡ spec.granted_seconds scope wanted.now }
{
    match wanted {
        DavTimeout::Seconds(seconds) => u64::from(*seconds).min(longest(scope)),
        DavTimeout::Infinite => longest(scope),
    }
}

// For how many seconds a lock is refreshed where this time is wanted.
fn refreshed_seconds(wanted: &DavTimeout) -> Option<u64>
    ensures { result ≡ spec.refreshed_seconds wanted.now }
{
    match wanted {
        DavTimeout::Seconds(seconds) => Some(u64::from(*seconds).min(longest(
            LockScope::Exclusive,
        ))),
        DavTimeout::Infinite => None,
    }
}

impl LockHeaders {
    /// What the headers of a request say of its path; a header that doesn't decode counts as absent.
    pub fn decode(alloc: Global, request: &DavRequest) -> Result<LockHeaders, NoMemory>
        ensures { IfOk result (λ h. spec.AreLockHeaders request.now.headers request.now.path h) }
    {
        let headers = &request.headers;
        Ok(LockHeaders {
            conditions: Conditions::decode(alloc, request, &request.path)?,
            depth: depth_in(alloc, headers)?,
            timeout: timeout_in(alloc, headers)?,
        })
    }

    // The first of the times that are wanted.
    fn preferred(&self) -> Option<&DavTimeout>
        ensures { option_copied result ≡ spec.preferred self.now.timeout }
    {
        self.timeout.as_ref()?.0.first()
    }

    /// How many seconds a new lock lasts; without a number it never ends.
    pub fn granted_for(&self, scope: LockScope) -> Option<u64>
        ensures { result ≡ spec.granted_for scope self.now.timeout }
    {
        Some(granted_seconds(scope, self.preferred()?))
    }

    /// How many seconds a lock lasts that is refreshed; without a number it never ends.
    pub fn refreshed_for(&self) -> Option<u64>
        ensures { result ≡ spec.refreshed_for self.now.timeout }
    {
        refreshed_seconds(self.preferred()?)
    }
}
