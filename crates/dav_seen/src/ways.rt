//! The folders on the way.
ghost use Rattle.std.specs.Prelude.{◌≡◌, IfOk, map, true};
ghost use Rattle.std.specs.List.{filter};
ghost use Rattle.std.specs.Option.{option_copied};
ghost use Rattle.dav_engine.specs.Folder.{child_of, closed};
ghost use Rattle.dav_seen.specs.Ways as spec;

use dav_access::{Right, Rules};
use dav_core::davpath::DavPath;
use dav_core::errors::NoMemory;
use dav_http::Handler;
use std::alloc::Global;

/// The path of a member of a folder, with a slash at its end where the member is a folder.
pub fn member(path: &DavPath, name: &[u8], is_folder: bool) -> Result<DavPath, NoMemory>
    ensures { IfOk result (λ q. q ≡ child_of path.now name.now is_folder) }
{
    let mut member = path.clone()?;
    member.push_segment(name)?;
    member.add_slash_if(is_folder)?;
    Ok(member)
}

// Whether a path is on the way.
fn is_way(rules: &Rules, who: Option<&str>, handler: &Handler, path: &DavPath) -> bool
    ensures { result ≡ spec.is_way rules.now (option_copied who.entry)
        handler.now.server.state.store.world path.now }
{
    rules.may(who, Right::See, path)
        && (!rules.may(who, Right::Read, path) && handler.is_folder(path))
}

// The members of a folder that are on the way.
fn members_on_way(
    alloc: Global,
    rules: &Rules,
    who: Option<&str>,
    handler: &Handler,
    path: &DavPath,
    members: &[&[u8]],
) -> Result<Vec<DavPath>, NoMemory>
    ensures { IfOk result (λ paths. paths.items ≡ filter (spec.is_way rules.now
        (option_copied who.entry) handler.now.server.state.store.world)
        (map (λ name. child_of path.now name true) (map (λ n. n.now) members.now))) }
{
    let mut found = Vec::new(alloc);
    for name in members {
        let member = member(path, name, true)?;
        if is_way(rules, who, handler, &member) {
            found.push(member)?;
        }
    }
    Ok(found)
}

/// The folders on the way of which is told: this one, and those of its members with these names.
pub fn ways(
    alloc: Global,
    rules: &Rules,
    who: Option<&str>,
    handler: &Handler,
    path: &DavPath,
    members: &[&[u8]],
) -> Result<Vec<DavPath>, NoMemory>
    ensures { IfOk result (λ paths. paths.items ≡ spec.ways rules.now (option_copied who.entry)
        handler.now.server.state.store.world path.now (map (λ n. n.now) members.now)) }
{
    let mut own = path.clone()?;
    own.add_slash()?;
    let mut paths = Vec::new(alloc);
    paths.push(own)?;
    for member in members_on_way(alloc, rules, who, handler, path, members)? {
        paths.push(member)?;
    }
    Ok(paths)
}
