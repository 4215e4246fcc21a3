//! How much is at some paths and below them, known at each time: a request changes what it names, so what is there is counted before
//! it and after it, and nothing else.
ghost use Rattle.std.specs.Prelude.{◌≡◌, ◌+◌, ℕ, min, All, IfOk, IfSome, List};
ghost use Rattle.dav_core.specs.Numbers.{max_u64};
ghost use Rattle.dav_core.specs.Path.{names};
ghost use Rattle.dav_engine.specs.Caller.{Caller};
ghost use Rattle.dav_engine.specs.Reply.{Reply};
ghost use Rattle.dav_http.specs.Steps.{IsStepFor};
ghost use Rattle.dav_server.specs.Server.{Server};
ghost use Rattle.dav_store.specs.Used.{amount_at};
ghost use Rattle.dav_limits.specs.Watches.{AreExact, IsNoted, IsPart, NotedView};

use crate::part::part_of;
use dav_access::Limit;
use dav_confined::leave::Asked;
use dav_core::davpath::DavPath;
use dav_core::errors::NoMemory;
use dav_http::Handler;
use dav_store::memfs::Amount;
use std::alloc::Global;
use std::marker::Model;

/// How much is at a path and below it.
#[derive(Drop)]
pub struct Watch {
    /// The path.
    pub path: DavPath,
    /// How much is there.
    pub amount: Amount,
}

/// How much is at a path and below it before a request, and how much of that the request may change.
#[derive(Drop)]
pub struct Part {
    /// The path.
    pub path: DavPath,
    /// How much is there.
    pub amount: Amount,
    /// How much of that the request may change.
    pub part: Amount,
}

/// How much is at some paths and below them.
#[derive(Drop)]
pub struct Watches {
    list: Vec<Watch>,
}

impl Model for Watches {
    ghost use Rattle.std.specs.Prelude.{List};
    ghost use Rattle.dav_limits.specs.declared.watches.Watch.{Watch};

    ghost Value = { List Watch };

    ghost view = { λ w. w.list.items };
}

/// What is noted of some paths before a request is run.
#[derive(Drop)]
pub struct Noted {
    asked: Option<Asked>,
    parts: Vec<Part>,
}

impl Model for Noted {
    ghost use Rattle.dav_limits.specs.Watches.{NotedView};

    ghost Value = { NotedView };

    ghost view = { λ n. record { asked = n.asked; parts = n.parts.items } };
}

// How much there is after a request that changed a part of it; none where that is too much to count.
fn changed(was: Amount, before: Amount, after: Amount) -> Option<Amount>
    ensures files { (rest part more : ℕ) → was.files ≡ rest + part → before.files ≡ part
        → after.files ≡ more → IfSome result (λ now. now.files ≡ rest + more) }
    ensures bytes { (rest part more : ℕ) → was.bytes ≡ min (rest + part) max_u64
        → before.bytes ≡ min part max_u64 → after.bytes ≡ min more max_u64
        → IfSome result (λ now. now.bytes ≡ min (rest + more) max_u64) }
{
    if was.bytes == u64::MAX {
        return None;
    }
    let files = was.files.checked_sub(before.files)?;
    let bytes = was.bytes.checked_sub(before.bytes)?;
    Some(Amount {
        files: files.checked_add(after.files)?,
        bytes: bytes.saturating_add(after.bytes),
    })
}

impl Watches {
    ghost use Rattle.std.specs.Prelude.{◌≡◌, [], ℕ, IfOk, List};
    ghost use Rattle.dav_core.specs.Path.{names};
    ghost use Rattle.dav_store.specs.Used.{amount_at};
    ghost use Rattle.dav_limits.specs.Watches.{AreExact, IsNoted};

    /// No paths.
    pub fn new(alloc: Global) -> Watches
        ensures { result ≡ [] }
    {
        Watches {
            list: Vec::new(alloc),
        }
    }

    /// How much is at the paths of these limits and below them. Takes time for each node there.
    pub fn of(alloc: Global, handler: &Handler, limits: &[Limit]) -> Result<Watches, NoMemory>
        ensures { IfOk result (AreExact handler.now.server) }
    {
        let mut list = Vec::new(alloc);
        for limit in limits {
            list.push(Watch {
                path: limit.path.clone()?,
                amount: handler.amount_at(alloc, &limit.path)?,
            })?;
        }
        Ok(Watches { list })
    }

    // The amount of a path, where it is known.
    fn known(&self, path: &DavPath) -> Option<Amount>
        ensures { (s : Server) → AreExact s self.now → IfSome result
            (λ amount. amount ≡ amount_at (names path.now) s.state.store.world.nodes) }
    {
        for watch in &self.list {
            if watch.path.is_at_or_under(path) && path.is_at_or_under(&watch.path) {
                return Some(watch.amount);
            }
        }
        None
    }

    /// How much is at a path and below it: at once where it is one of these; else it takes time for each node there.
    pub fn amount_at(
        &self,
        alloc: Global,
        handler: &Handler,
        path: &DavPath,
    ) -> Result<Amount, NoMemory>
        requires { AreExact handler.now.server self.now }
        ensures { IfOk result (λ amount. amount
            ≡ amount_at (names path.now) handler.now.server.state.store.world.nodes) }
    {
        match self.known(path) {
            Some(amount) => Ok(amount),
            None => Ok(handler.amount_at(alloc, path)?),
        }
    }

    /// Notes what a request with this head may change, before it is run. Takes time for each node there.
    pub fn noted(self, alloc: Global, handler: &Handler, head: &[u8]) -> Result<Noted, NoMemory>
        requires { AreExact handler.now.server self }
        ensures { IfOk result (IsNoted handler.now.server head.now) }
    {
        let mut parts = Vec::new(alloc);
        if self.list.is_empty() {
            return Ok(Noted { asked: None, parts });
        }
        let Some(_) = handler.locks() else {
            return Ok(Noted { asked: None, parts });
        };
        handler.see_world();
        let asked = Asked::read(alloc, head, handler.prefix())?;
        for watch in self.list {
            if let Some(part) = part_of(alloc, handler, &watch.path, &asked)? {
                parts.push(Part {
                    path: watch.path,
                    amount: watch.amount,
                    part,
                })?;
            }
        }
        Ok(Noted { asked, parts })
    }
}

impl Noted {
    ghost use Rattle.std.specs.Prelude.{◌≡◌, ℕ, IfOk, List};
    ghost use Rattle.dav_engine.specs.Caller.{Caller};
    ghost use Rattle.dav_engine.specs.Reply.{Reply};
    ghost use Rattle.dav_http.specs.Steps.{IsStepFor};
    ghost use Rattle.dav_server.specs.Server.{Server};
    ghost use Rattle.dav_limits.specs.Watches.{AreExact, IsNoted};

    /// How much is at the paths after the request is run; without those where that is too much to count. Takes time for each node that
    /// the request may have changed.
    pub fn renewed(self, alloc: Global, handler: &Handler) -> Result<Watches, NoMemory>
        ensures { (head body : List ℕ) (who : Caller) (old : Server) (reply : Reply)
            → IsNoted old head self → IsStepFor head body who old reply handler.now.server
            → IfOk result (AreExact handler.now.server) }
    {
        handler.see_world();
        let Noted { asked, parts } = self;
        let mut list = Vec::new(alloc);
        for part in parts {
            let Some(after) = part_of(alloc, handler, &part.path, &asked)? else {
                continue;
            };
            if let Some(amount) = changed(part.amount, part.part, after) {
                list.push(Watch {
                    path: part.path,
                    amount,
                })?;
            }
        }
        Ok(Watches { list })
    }
}
