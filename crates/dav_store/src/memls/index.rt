//! An index of a list of locks, which says of most paths that no lock matters to them without a look at the list.
//!
//! A tree of the names of paths: the node of a path counts the locks on it or below it, those on it, and those of infinite
//! depth on it, and has the number of the grant of the last of each. Where there is no node there are no such locks.
ghost use Rattle.std.specs.Prelude.{◌≡◌, ◌+◌, ◌-◌, ◌≤◌, true, false, Some, List, ℕ, OnOk, IfOk, IfSome, option_copied, if◌then◌else◌, position, slice_get, take};
ghost use Rattle.std.specs.List.{filter, list_any};
ghost use Rattle.std.specs.Option.{option_and_then, option_map_or, IsSome};
ghost use Rattle.dav_core.specs.Path.{Path, names, is_same_path, is_at_or_under};
ghost use Rattle.dav_core.specs.Locks.{Lock, has_token_at};
ghost use Rattle.dav_store.specs.Tree.{value_of, with_value};
ghost use Rattle.dav_store.specs.Placed.{named, found};
ghost use Rattle.dav_store.specs.LockCalls.{IsNamedPlace};
ghost use Rattle.dav_store.specs.LockIndex.{Key, key_of, at_key, same_kind, seat_count, count_of, one_at, path_keys, times, tally, HasCounts, IsIndexOf, matters, end_key, weight};
ghost use Rattle.dav_store.specs.declared.memls.index.Kind.{Kind};

use super::kept::Kept;
use crate::paths;
use crate::tree::{ROOT_ID, Tree};
use dav_core::davpath::DavPath;
use dav_core::errors::NoMemory;
use dav_core::ls::DavLock;
use std::alloc::{AllocError, Global};
use std::marker::Model;

/// Which locks a node counts: those on its path or below it, those on it, or those of infinite depth on it.
#[derive(Clone, Copy)]
pub enum Kind {
    Below,
    At,
    Deep,
}

/// How many locks there are, and the number of the grant of the last one, which may have gone since.
#[derive(Clone, Copy)]
pub struct Counted {
    pub count: u64,
    pub last: u64,
}

impl Counted {
    // No locks.
    const NONE: Counted = Counted { count: 0, last: 0 };

    // One lock more, by the grant of this number.
    fn raised(self, grant: u64) -> Option<Counted>
        ensures { IfSome result (λ c. c.count ≡ self.count + 1) }
    {
        match self.count.checked_add(1) {
            Some(count) => Some(Counted { count, last: grant }),
            None => None,
        }
    }

    // One lock less.
    fn lowered(self) -> Counted
        ensures { result.count ≡ self.count - 1 }
    {
        Counted {
            count: self.count.saturating_sub(1),
            last: self.last,
        }
    }
}

/// What a node counts.
#[derive(Clone, Copy)]
pub struct Seat {
    pub below: Counted,
    pub at: Counted,
    pub deep: Counted,
}

impl Seat {
    ghost use Rattle.std.specs.Prelude.{◌≡◌, true, if◌then◌else◌};
    ghost use Rattle.dav_store.specs.declared.memls.index.Kind.{Kind};
    ghost use Rattle.dav_store.specs.LockIndex.{seat_count, same_kind};

    // A node that counts no lock.
    fn bare() -> Seat
        ensures { (k : Kind) → seat_count k result ≡ 0 }
    {
        Seat {
            below: Counted::NONE,
            at: Counted::NONE,
            deep: Counted::NONE,
        }
    }

    // Whether it counts no lock.
    fn is_bare(self) -> bool
        ensures { result ≡ true → (k : Kind) → seat_count k self ≡ 0 }
    {
        self.below.count == 0 && self.at.count == 0 && self.deep.count == 0
    }

    // What it counts of a kind.
    fn of(self, kind: Kind) -> Counted
        ensures { result.count ≡ seat_count kind self }
    {
        match kind {
            Kind::Below => self.below,
            Kind::At => self.at,
            Kind::Deep => self.deep,
        }
    }

    // With this many of a kind.
    fn with(self, kind: Kind, counted: Counted) -> Seat
        ensures { (k : Kind) → seat_count k result
            ≡ (if same_kind kind k then counted.count else seat_count k self) }
    {
        match kind {
            Kind::Below => Seat {
                below: counted,
                at: self.at,
                deep: self.deep,
            },
            Kind::At => Seat {
                below: self.below,
                at: counted,
                deep: self.deep,
            },
            Kind::Deep => Seat {
                below: self.below,
                at: self.at,
                deep: counted,
            },
        }
    }
}

/// The nodes that count locks.
#[derive(Drop)]
pub struct Counts {
    tree: Tree<Vec<u8>, Seat>,
}

impl Model for Counts {
    ghost use Rattle.std.specs.Prelude.{ℕ, List};
    ghost use Rattle.dav_store.specs.declared.memls.index.Seat.{Seat};
    ghost use Rattle.dav_store.specs.Tree.{Tree as Seen};
    ghost use Rattle.dav_store.specs.Placed.{bare};
    ghost use Rattle.dav_store.specs.LockIndex.{IsSeatTree};

    ghost Value = { Seen (List ℕ) Seat };

    ghost view = { λ c. bare c.tree };

    ghost invariant = { λ c. IsSeatTree (bare c.tree) };
}

impl Counts {
    ghost use Rattle.std.specs.Prelude.{◌≡◌, ◌+◌, ◌-◌, ◌++◌, ◌∷◌, [], None, Some, ℕ, OnOk, IfOk, IfSome, if◌then◌else◌};
    ghost use Rattle.std.specs.List.{filter};
    ghost use Rattle.std.specs.Option.{option_and_then, option_map_or, IsSome};
    ghost use Rattle.dav_core.specs.Path.{Path, names, is_same_path, is_at_or_under};
    ghost use Rattle.dav_store.specs.Tree.{value_of, with_value};
    ghost use Rattle.dav_store.specs.Placed.{named, found};
    ghost use Rattle.dav_store.specs.LockCalls.{IsNamedPlace};
    ghost use Rattle.dav_store.specs.LockIndex.{Key, key_of, seat_count, count_of, one_at, path_keys, times, tally, IsIndexOf, weight};

    /// No lock is counted.
    pub fn new(alloc: Global) -> Result<Counts, NoMemory>
        ensures { IfOk result (λ t. (k : Key) → count_of t k ≡ 0) }
    {
        Ok(Counts {
            tree: Tree::new(alloc, Seat::bare())?,
        })
    }

    /// Whether the root has no children; a test asks it.
    #[cfg(test)]
    pub fn is_root_alone(&self, alloc: Global) -> bool {
        match self.tree.get_children(alloc, ROOT_ID) {
            Ok(mut children) => children.next().is_none(),
            Err(_) => false,
        }
    }

    // The number of the node under a name of a node; none of no node.
    #[tactic(auto, using(crate::proofs::BareTrees::named_bare))]
    fn child(&self, parent: Option<u64>, name: &[u8]) -> Option<u64>
        ensures { result ≡ option_and_then (λ n. named self.now n name.now) parent }
    {
        self.tree.get_child_bytes(parent?, name).ok()
    }

    // The number of the node under a name of a node; none without a name.
    fn below(&self, parent: Option<u64>, name: Option<&[u8]>) -> Option<u64>
        ensures { IfSome name.entry
            (λ n. result ≡ option_and_then (λ m. named self.now m n.now) parent) }
    {
        match name {
            Some(name) => self.child(parent, name),
            None => None,
        }
    }

    // What a node counts.
    #[tactic(auto, using(crate::proofs::BareTrees::value_bare))]
    fn seat(&self, id: u64) -> Option<Seat>
        ensures { result ≡ value_of self.now id }
    {
        match self.tree.get_node(id) {
            Ok(seat) => Some(*seat),
            Err(_) => None,
        }
    }

    // What a node counts of a kind; no locks where there is no node.
    fn counted(&self, at: Option<u64>, kind: Kind) -> Counted
        ensures { (q : Path) → at ≡ found self.now q
            → result.count ≡ count_of self.now (key_of kind q) }
    {
        match at {
            Some(id) => match self.seat(id) {
                Some(seat) => seat.of(kind),
                None => Counted::NONE,
            },
            None => Counted::NONE,
        }
    }

    // Sets what a node counts.
    fn set(&mut self, id: u64, seat: Seat)
        ensures walks { IsSome (value_of self.old id)
            → (q : Path) → found self.new q ≡ found self.old q }
        ensures counts { IsSome (value_of self.old id) → (q : Path) → found self.old q ≡ Some id
            → (k : Key) → count_of self.new k
            ≡ (if is_same_path q k.1 then seat_count k.0 seat else count_of self.old k) }
    {
        let Ok(old) = self.tree.get_node_mut(id) else {
            return;
        };
        *old = seat;
    }

    // A node counts one lock of a kind more, by the grant of this number.
    fn raise(&mut self, id: u64, kind: Kind, grant: u64) -> Result<(), NoMemory>
        ensures walks { OnOk result ((q : Path) → found self.new q ≡ found self.old q) }
        ensures counts { OnOk result ((q : Path) → found self.old q ≡ Some id → (k : Key)
            → count_of self.new k ≡ count_of self.old k + one_at (key_of kind q) k) }
    {
        let Some(seat) = self.seat(id) else {
            return Err(AllocError);
        };
        let Some(counted) = seat.of(kind).raised(grant) else {
            return Err(AllocError);
        };
        self.set(id, seat.with(kind, counted));
        Ok(())
    }

    // A node, where there is one, counts one lock of a kind less.
    fn lower(&mut self, at: Option<u64>, kind: Kind)
        ensures walks { (q : Path) → found self.new q ≡ found self.old q }
        ensures counts { (q : Path) → at ≡ found self.old q → (k : Key)
            → count_of self.new k ≡ count_of self.old k - one_at (key_of kind q) k }
    {
        if let Some(id) = at {
            if let Some(seat) = self.seat(id) {
                self.set(id, seat.with(kind, seat.of(kind).lowered()));
            }
        }
    }

    // A new node under a name of a node, which counts no lock.
    fn add(&mut self, alloc: Global, parent: u64, name: &[u8]) -> Result<u64, NoMemory>
        requires { named self.old parent name.now ≡ None }
        ensures walks { IfOk result (λ id. (q : Path) → found self.old q ≡ Some parent
            → found self.new (q ++ name.now ∷ []) ≡ Some id) }
        ensures counts { OnOk result ((q : Path) → found self.old q ≡ Some parent
            → (k : Key) → count_of self.new k ≡ count_of self.old k) }
    {
        let name = name.to_vec(alloc)?;
        let Ok(id) = self
            .tree
            .add_child(alloc, parent, name, Seat::bare(), false)
        else {
            return Err(AllocError);
        };
        Ok(id)
    }

    // The node under a name of a node; it is made where there is none.
    fn descend(&mut self, alloc: Global, parent: u64, name: &[u8]) -> Result<u64, NoMemory>
        ensures walks { IfOk result (λ id. (q : Path) → found self.old q ≡ Some parent
            → found self.new (q ++ name.now ∷ []) ≡ Some id) }
        ensures counts { OnOk result ((q : Path) → found self.old q ≡ Some parent
            → (k : Key) → count_of self.new k ≡ count_of self.old k) }
    {
        match self.child(Some(parent), name) {
            Some(id) => Ok(id),
            None => self.add(alloc, parent, name),
        }
    }

    // A node that counts no lock and has no children goes; its parent is answered then.
    fn drop_bare(&mut self, id: u64) -> Option<u64>
        ensures { (k : Key) → count_of self.new k ≡ count_of self.old k }
    {
        let seat = self.seat(id)?;
        if !seat.is_bare() {
            return None;
        }
        let parent = self.tree.parent(id);
        match self.tree.delete_node(id) {
            Ok(()) => Some(parent),
            Err(_) => None,
        }
    }

    // The nodes of a path and above it go that count no lock and have no children, from its own up.
    fn prune(&mut self, path: &DavPath, mut at: Option<u64>)
        ensures { (k : Key) → count_of self.new k ≡ count_of self.old k }
    {
        for _name in path.segments() {
            if let Some(id) = at {
                at = self.drop_bare(id);
            }
        }
    }

    // A lock on a path comes, by the grant of this number.
    fn raise_path(
        &mut self,
        alloc: Global,
        path: &DavPath,
        deep: bool,
        grant: u64,
    ) -> Result<(), NoMemory>
        ensures { OnOk result ((k : Key) → count_of self.new k
            ≡ count_of self.old k + times k (path_keys deep (names path.now))) }
    {
        let mut at = ROOT_ID;
        for name in path.segments() {
            self.raise(at, Kind::Below, grant)?;
            at = self.descend(alloc, at, name)?;
        }
        self.raise(at, Kind::Below, grant)?;
        self.raise(at, Kind::At, grant)?;
        if deep {
            self.raise(at, Kind::Deep, grant)?;
        }
        Ok(())
    }

    // A lock on a path goes from the counts; the node of the path is answered.
    fn lower_along(&mut self, path: &DavPath, deep: bool) -> Option<u64>
        ensures { (k : Key) → count_of self.new k
            ≡ count_of self.old k - times k (path_keys deep (names path.now)) }
    {
        let mut at = Some(ROOT_ID);
        for name in path.segments() {
            self.lower(at, Kind::Below);
            at = self.child(at, name);
        }
        self.lower(at, Kind::Below);
        self.lower(at, Kind::At);
        if deep {
            self.lower(at, Kind::Deep);
        }
        at
    }

    // A lock on a path goes, and so do the nodes that count none any more.
    fn lower_path(&mut self, path: &DavPath, deep: bool)
        ensures { (k : Key) → count_of self.new k
            ≡ count_of self.old k - times k (path_keys deep (names path.now)) }
    {
        let at = self.lower_along(path, deep);
        self.prune(path, at);
    }

    // The locks at a path and below it go.
    fn lower_below(&mut self, locks: &[Kept], path: &DavPath)
        ensures { (k : Key) → count_of self.new k ≡ count_of self.old k
            - tally k (filter (λ l. is_at_or_under (names l.path) (names path.now)) locks.now) }
    {
        for kept in locks {
            let lock = kept.lock();
            if lock.path.is_at_or_under(path) {
                self.lower_path(&lock.path, lock.deep);
            }
        }
    }

    // How many locks may matter to a path at most: cover it or, where `deep`, be on it or below it. `None` where they are
    // too many to count.
    fn weight(&self, path: &DavPath, deep: bool) -> Option<u64>
        ensures { IfSome result (λ n. n ≡ weight (count_of self.now) deep (names path.now)) }
    {
        let mut at = ROOT_ID;
        let mut weight: u64 = 0;
        for name in path.segments() {
            weight = weight.checked_add(self.counted(Some(at), Kind::Deep).count)?;
            match self.child(Some(at), name) {
                Some(id) => at = id,
                None => return Some(weight),
            }
        }
        weight.checked_add(self.counted(Some(at), end_kind(deep)).count)
    }

    // The number of the grant of the last lock that may matter to a path, as far as is known, where one may.
    fn last_of_some(&self, path: &DavPath, deep: bool) -> u64 {
        let mut at = Some(ROOT_ID);
        for name in path.segments() {
            let above = self.counted(at, Kind::Deep);
            if above.count > 0 {
                return above.last;
            }
            at = self.child(at, name);
        }
        self.counted(at, end_kind(deep)).last
    }

    // The number of the grant by which the one lock came that may matter to a path, as far as is known; `None` where none or
    // more than one may.
    fn only_grant(&self, path: &DavPath, deep: bool) -> Option<u64>
        ensures { IfSome result (λ n. weight (count_of self.now) deep (names path.now) ≡ 1) }
    {
        if self.weight(path, deep)? != 1 {
            return None;
        }
        Some(self.last_of_some(path, deep))
    }

    // The place of the lock that a token and a path mean: that of the first one with the token on the shortest front of the
    // path on which one has it.
    fn named_place(&self, locks: &[Kept], path: &DavPath, token: &str) -> Option<usize>
        requires { IsIndexOf (Some self.now) locks.now }
        ensures { IsNamedPlace token.now (names path.now) locks.now result }
    {
        let mut at = Some(ROOT_ID);
        let mut left = path.segments();
        for len in 0..=paths::count(path) {
            let seated = self.counted(at, Kind::At);
            if let Some(i) = place_on(locks, seated, path, token, len) {
                return Some(i);
            }
            let name = left.next();
            at = self.below(at, name);
        }
        None
    }
}

// Whether a lock has this token and is on the first so many names of a path.
fn is_named(lock: &DavLock, path: &DavPath, token: &str, len: usize) -> bool
    ensures { result ≡ has_token_at token.now (take len (names path.now)) lock.now }
{
    lock.token.as_str() == token && paths::is_front(&lock.path, path, len)
}

// The place of the first lock that has this token and is on the first so many names of a path.
fn named_at(locks: &[Kept], path: &DavPath, token: &str, len: usize) -> Option<usize>
    ensures { result ≡ position (has_token_at token.now (take len (names path.now))) locks.now }
{
    locks
        .iter()
        .position(|l| is_named(l.lock(), path, token, len))
}

// The same, where so many locks are on the first so many names of the path. Of one alone it looks at that one.
fn place_on(
    locks: &[Kept],
    seated: Counted,
    path: &DavPath,
    token: &str,
    len: usize,
) -> Option<usize>
    requires { seated.count ≡ tally (at_key (take len (names path.now))) locks.now }
    ensures { result ≡ position (has_token_at token.now (take len (names path.now))) locks.now }
{
    if seated.count == 0 {
        return None;
    }
    if seated.count == 1 {
        if let Some((i, kept)) = only_on(locks, seated.last, path, len) {
            return if kept.lock().token.as_str() == token {
                Some(i)
            } else {
                None
            };
        }
    }
    named_at(locks, path, token, len)
}

// The lock by this grant with its place, where it is on the first so many names of a path.
fn only_on<'a>(
    locks: &'a [Kept],
    grant: u64,
    path: &DavPath,
    len: usize,
) -> Option<(usize, &'a Kept)>
    ensures { IfSome result (λ x. (slice_get locks.now x.0 ≡ Some x.1.now)
        × (is_same_path (names x.1.now.path) (take len (names path.now)) ≡ true)) }
{
    let i = locks.binary_search_by_key(&grant, |l| l.grant()).ok()?;
    let kept = locks.get(i)?;
    if paths::is_front(&kept.lock().path, path, len) {
        Some((i, kept))
    } else {
        None
    }
}

// The kind of the locks at a path or, where `deep`, of those at it or below it.
fn end_kind(deep: bool) -> Kind
    ensures { (q : Path) → key_of result q ≡ end_key deep q }
{
    if deep { Kind::Below } else { Kind::At }
}

/// Whether a lock may matter to a path: it may cover it or, where `deep`, be on it or below it. Without an index any may.
#[tactic(auto, using(crate::proofs::IndexSound::none_matters))]
pub fn may_matter(index: &Option<Counts>, path: &DavPath, deep: bool) -> bool
    ensures { (ls : List Lock) → HasCounts index.now (λ k. tally k ls) → result ≡ false
        → list_any (matters deep (names path.now)) ls ≡ false }
{
    let Some(counts) = index else {
        return true;
    };
    match counts.weight(path, deep) {
        Some(0) => false,
        _ => true,
    }
}

/// The number of the grant by which the one lock came that may matter to a path, as far as is known. Where it answers a number, at most
/// one lock matters.
#[tactic(auto, using(crate::proofs::IndexSound::only_counted))]
pub fn only_grant(index: &Option<Counts>, path: &DavPath, deep: bool) -> Option<u64>
    ensures { (ls : List Lock) → HasCounts index.now (λ k. tally k ls)
        → IfSome result (λ n. weight (λ k. tally k ls) deep (names path.now) ≤ 1) }
{
    match index {
        Some(counts) => counts.only_grant(path, deep),
        None => None,
    }
}

/// The place of the lock that a token and a path mean. Looks at the locks on fronts of the path alone, where there is an index.
pub fn named_place(
    index: &Option<Counts>,
    locks: &[Kept],
    path: &DavPath,
    token: &str,
) -> Option<usize>
    requires { IsIndexOf index.now locks.now }
    ensures { IsNamedPlace token.now (names path.now) locks.now result }
{
    match index {
        Some(counts) => counts.named_place(locks, path, token),
        None => named_by_walk(locks, path, token),
    }
}

// The same, by a look at each lock for each front of the path.
fn named_by_walk(locks: &[Kept], path: &DavPath, token: &str) -> Option<usize>
    ensures { IsNamedPlace token.now (names path.now) locks.now result }
{
    for len in 0..=paths::count(path) {
        if let Some(i) = named_at(locks, path, token, len) {
            return Some(i);
        }
    }
    None
}

/// A lock on a path comes, by the grant of this number. An index that can't grow goes.
pub fn raise(alloc: Global, index: &mut Option<Counts>, path: &DavPath, deep: bool, grant: u64)
    ensures { (f : Key → ℕ) → HasCounts index.old f
        → HasCounts index.new (λ k. f k + times k (path_keys deep (names path.now))) }
{
    if let Some(mut counts) = index.take() {
        if counts.raise_path(alloc, path, deep, grant).is_ok() {
            *index = Some(counts);
        }
    }
}

/// A lock on a path goes.
pub fn lower(index: &mut Option<Counts>, path: &DavPath, deep: bool)
    ensures { (f : Key → ℕ) → HasCounts index.old f
        → HasCounts index.new (λ k. f k - times k (path_keys deep (names path.now))) }
{
    if let Some(counts) = index {
        counts.lower_path(path, deep);
    }
}

/// The locks at a path and below it go.
pub fn lower_below(index: &mut Option<Counts>, locks: &[Kept], path: &DavPath)
    ensures { (f : Key → ℕ) → HasCounts index.old f → HasCounts index.new (λ k. f k
        - tally k (filter (λ l. is_at_or_under (names l.path) (names path.now)) locks.now)) }
{
    if let Some(counts) = index {
        counts.lower_below(locks, path);
    }
}
