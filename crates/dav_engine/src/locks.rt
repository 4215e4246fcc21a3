//! Whether locks conflict with a request, and those that end with what they are on (RFC 4918, sections 6 and 7).
ghost use Rattle.std.specs.Prelude.{◌≡◌, map, string_bytes, false, IfOk};
ghost use Rattle.std.specs.Option.{is_none, option_copied, option_map};
ghost use Rattle.dav_core.specs.Locks.{deleted, requester_of};
ghost use Rattle.dav_core.specs.Path.{names};
ghost use Rattle.dav_engine.specs.ConditionView.{locks_in};
ghost use Rattle.dav_engine.specs.Follows.{FollowsOnLocks};
ghost use Rattle.dav_engine.specs.MembersView.{members_change};
ghost use Rattle.dav_engine.specs.Method.{is_open, is_open_parent, require_parent, require_member};
ghost use Rattle.dav_engine.specs.Reach.{reaches_below};

use crate::depth::Reach;
use dav_core::davpath::DavPath;
use dav_core::errors::{DavError, DavResult, NoMemory};
use dav_core::fs::DavMetaData;
use dav_core::ls::DavLockSystem;

/// What a request does to the members of the folder above a path: a lock on a folder protects its list of members (RFC 4918,
/// section 7.4).
#[derive(Clone, Copy, Debug)]
pub enum Members {
    /// A member is made, removed or replaced.
    Change,
    /// Each member stays, and none is made.
    Stay,
}

impl Members {
    /// What a request does to them that makes something at a path, or overwrites the file there, where this was found.
    pub fn when_made(found: Option<&DavMetaData>) -> Members
        ensures { members_change result ≡ is_none (option_copied found.entry) }
    {
        match found {
            Some(_) => Members::Stay,
            None => Members::Change,
        }
    }

    // Whether they change.
    fn change(self) -> bool
        ensures { result ≡ members_change self }
    {
        matches!(self, Members::Change)
    }
}

/// Whether a path, or it with everything below it, isn't locked against the requester with these tokens and this principal (RFC 4918,
/// section 7.5). Without a lock system no path is locked. Allocates nothing.
pub fn is_open<L: DavLockSystem>(
    ls: Option<&L>,
    path: &DavPath,
    principal: Option<&str>,
    reach: Reach,
    tokens: &[String],
) -> bool
    ensures { result ≡ is_open (reaches_below reach)
        (requester_of (map string_bytes tokens.now) false (option_copied principal.entry))
        (names path.now) (locks_in L.locks ls.entry) }
{
    match ls {
        Some(ls) => ls
            .check(path, principal, false, reach.reaches_below(), tokens)
            .is_ok(),
        None => true,
    }
}

/// Whether a path's folder isn't locked against the requester, so that this member may be made, removed or replaced (RFC
/// 4918, section 7.4); the root has no folder. What is below the folder isn't looked at.
pub fn is_parent_open<L: DavLockSystem>(
    ls: Option<&L>,
    path: &DavPath,
    principal: Option<&str>,
    tokens: &[String],
) -> Result<bool, NoMemory>
    ensures { IfOk result (λ b. b ≡ is_open_parent
        (requester_of (map string_bytes tokens.now) false (option_copied principal.entry))
        (names path.now) (locks_in L.locks ls.entry)) }
{
    if path.is_root() {
        return Ok(true);
    }
    let parent = path.parent()?;
    Ok(is_open(ls, &parent, principal, Reach::Alone, tokens))
}

/// Checks, where the members of a path's folder change, whether that folder isn't locked against the requester; else this is
/// the error (RFC 4918, section 7.4).
pub fn parent_allowed<L: DavLockSystem>(
    ls: Option<&L>,
    members: Members,
    path: &DavPath,
    principal: Option<&str>,
    tokens: &[String],
    locked: DavError,
) -> DavResult<()>
    ensures { FollowsOnLocks (λ u. u) (require_parent (members_change members)
        (requester_of (map string_bytes tokens.now) false (option_copied principal.entry))
        (names path.now) locked) (locks_in L.locks ls.entry) result (locks_in L.locks ls.entry) }
{
    if !members.change() {
        return Ok(());
    }
    if is_parent_open(ls, path, principal, tokens)? {
        Ok(())
    } else {
        Err(locked)
    }
}

/// Checks whether a path, or it with everything below it, isn't locked against the requester, and, where the members
/// of its folder change, its folder isn't either; else this is the error (RFC 4918, sections 7.4 and 7.5).
pub fn member_allowed<L: DavLockSystem>(
    ls: Option<&L>,
    reach: Reach,
    members: Members,
    path: &DavPath,
    principal: Option<&str>,
    tokens: &[String],
    locked: DavError,
) -> DavResult<()>
    ensures { FollowsOnLocks (λ u. u) (require_member (reaches_below reach) (members_change members)
        (requester_of (map string_bytes tokens.now) false (option_copied principal.entry))
        (names path.now) locked) (locks_in L.locks ls.entry) result (locks_in L.locks ls.entry) }
{
    if !is_open(ls, path, principal, reach, tokens) {
        return Err(locked);
    }
    parent_allowed(ls, members, path, principal, tokens, locked)
}

// Ends the locks at a path and below it, where there is a lock system.
pub(crate) fn drop_locks<L: DavLockSystem>(ls: &mut Option<L>, path: &DavPath)
    ensures { option_map L.locks ls.new
        ≡ option_map (deleted (names path.now)) (option_map L.locks ls.old) }
{
    if let Some(ls) = ls {
        let _ = ls.delete(path);
    }
}
