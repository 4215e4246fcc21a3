use super::*;
use crate::asserting::same;
use std::test::Fail;

// A list that stays empty: memory runs out for each lock.
#[derive(Drop)]
struct NoLocks {}

impl DavLockSystem for NoLocks {
    ghost use Rattle.std.specs.Prelude.{[]};

    ghost locks = { λ s. [] };

    fn lock(
        &mut self,
        _alloc: Global,
        _path: &DavPath,
        _principal: Option<&str>,
        _owner: Option<&Element>,
        _timeout: Option<u64>,
        _shared: bool,
        _deep: bool,
        _token: &str,
        _now: u64,
    ) -> Result<DavLock, LockRefusal> {
        Err(LockRefusal::Memory)
    }

    fn unlock(&mut self, _path: &DavPath, _token: &str) -> Result<(), ()> {
        Err(())
    }

    fn refresh(
        &mut self,
        _alloc: Global,
        _path: &DavPath,
        _token: &str,
        _timeout: Option<u64>,
        _now: u64,
    ) -> Result<DavLock, RefreshRefusal> {
        Err(RefreshRefusal::NotThere)
    }

    fn check(
        &self,
        _path: &DavPath,
        _principal: Option<&str>,
        _ignore_principal: bool,
        _deep: bool,
        _tokens: &[String],
    ) -> Result<(), &DavLock> {
        Ok(())
    }

    fn discover(&self, alloc: Global, _path: &DavPath) -> Result<Vec<DavLock>, NoMemory> {
        Ok(Vec::new(alloc))
    }

    fn delete(&mut self, _path: &DavPath) -> Result<(), ()> {
        Ok(())
    }
}

// Whether anyone may write at a path, in any list of locks.
fn may_write<L: DavLockSystem>(ls: Option<&L>, path: &DavPath) -> bool {
    match ls {
        Some(ls) => ls.check(path, None, true, false, &[]).is_ok(),
        None => true,
    }
}

#[test]
fn asks_a_list(rt: HostRuntime) -> Result<(), Fail> {
    let mut ls = NoLocks {};
    let path = DavPath::new(rt.alloc(), "/a")?;
    assert!(rt; may_write(Some(&ls), &path));
    let granted = ls.lock(
        rt.alloc(),
        &path,
        None,
        None,
        Some(60),
        false,
        true,
        "urn:t:1",
        1,
    );
    same(&rt, &granted.err(), &Some(LockRefusal::Memory));
    assert!(rt; ls.unlock(&path, "urn:t:1").is_err());
    let refreshed = ls.refresh(rt.alloc(), &path, "urn:t:1", None, 1);
    same(&rt, &refreshed.err(), &Some(RefreshRefusal::NotThere));
    same(&rt, &ls.discover(rt.alloc(), &path)?.len(), &0);
    assert!(rt; ls.delete(&path).is_ok());
    Ok(())
}

// A lock of anna's on /a/, of infinite depth.
fn sample(alloc: Global) -> Result<DavLock, Fail> {
    Ok(DavLock {
        token: String::from_str(alloc, "urn:t:1")?,
        path: DavPath::new(alloc, "/a/")?,
        principal: Some(String::from_str(alloc, "anna")?),
        owner: Some(Element::new(alloc, "owner")?),
        timeout_at: Some(61),
        timeout: Some(60),
        shared: false,
        deep: true,
    })
}

#[test]
fn copies_a_lock(rt: HostRuntime) -> Result<(), Fail> {
    let lock = sample(rt.alloc())?;
    let copy = lock.clone()?;
    same(&rt, &copy.token.as_str(), &"urn:t:1");
    same(&rt, &copy.path.as_bytes(), &b"/a/".as_slice());
    same(&rt, &copy.principal.as_deref(), &Some("anna"));
    same(&rt, &copy.owner, &lock.owner);
    same(&rt, &(copy.timeout_at, copy.timeout), &(Some(61), Some(60)));
    assert!(rt; !copy.shared && copy.deep);
    Ok(())
}
