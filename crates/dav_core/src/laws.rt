//! Laws of paths, worlds, locks and methods. Each function does nothing, or returns constants: its contract is a
//! theorem on the definitions.
pub mod calls;

ghost use Rattle.std.specs.Prelude.{◌≡◌, [], ◌∷◌};
ghost use Rattle.dav_core.specs.Laws.{LeavesOnePath, LeavesNoFault, OneFault, ReadsOnePath, ReadIsNotRefused, OneRefusal, ReadOrRefused, KeepsNames, ReadsNames, StarHasNoNames, ReadsAgain, NamesReadAgain, SameText, SlashKeepsNames, AddsName, AddsSegment, SlashAddsNoName, MemberIsNoStar, FewNames, NamesAreSegments, NameIsSegment, ParentOfNames, ParentHasNames, OneParent, CutsAtNames, CutKeepsNames, OneCut, EmptyIsWorld, NewKeepsWorld, ChangeKeepsWorld, OneMethod, NameNames, MembersAreHad, SameMethodsSameSet, EqualToItself, EqualBothWays, EqualThrough};
ghost use Rattle.dav_core.specs.LockLaws.{FreeHoldsExclusive, FreeHoldsOwn, FreeDeepHoldsBelow, FreeIsNoConflict, GrantedCanBeUnlocked, TakenBack, CoveringAreShared, GrantedAreShared, UnlockedAreShared, RefreshedAreShared, DeletedAreShared, UnlockTakesOne, RefreshChangesOne, DiscoveredAreCovering};
ghost use Rattle.dav_core.specs.Method.{all_methods, methods_in};

use crate::method::{DavMethod, DavMethodSet};

/// Apart from memory that runs out, a text is read as one path, or refused for one reason, and not both: the pieces between
/// slashes leave one path, or the first of them that is refused decides (RFC 3986, sections 3.3 and 5.2.4).
pub fn one_reading()
    ensures leaves { LeavesOnePath }
    ensures leaves_no_fault { LeavesNoFault }
    ensures one_fault { OneFault }
    ensures reads { ReadsOnePath }
    ensures read_is_not_refused { ReadIsNotRefused }
    ensures one_refusal { OneRefusal }
    ensures read_or_refused { ReadOrRefused }
{}

/// A path keeps its names: those in its bytes are the names that it was made of, and a text that is read gives
/// names only. The path `*` has none. The names in any bytes are segments, and each name is one.
pub fn names_are_kept()
    ensures kept { KeepsNames }
    ensures read { ReadsNames }
    ensures star { StarHasNoNames }
    ensures segments { NamesAreSegments }
    ensures name { NameIsSegment }
{}

/// The text of a path in a URL is read as this path again.
pub fn reads_again()
    ensures read { ReadsAgain }
    ensures names { NamesReadAgain }
{}

/// Two paths that were read have the same bytes exactly if their texts in a URL are equal.
pub fn texts_tell_paths()
    ensures { SameText }
{}

/// `==` of paths is reflexive, symmetric and transitive.
pub fn equal_paths_are_alike()
    ensures reflexive { EqualToItself }
    ensures symmetric { EqualBothWays }
    ensures transitive { EqualThrough }
{}

/// A slash at the end changes no name, a name or segment that is added is the last, and the parent of any path has all names
/// but the last. A path has no more names than bytes, and the path of a member is never `*`. A path that is cut after a prefix has
/// the names that follow those of the prefix. A path has one parent, and a prefix cuts it in one way.
pub fn names_are_added()
    ensures slash { SlashKeepsNames }
    ensures name { AddsName }
    ensures segment { AddsSegment }
    ensures closed { SlashAddsNoName }
    ensures member { MemberIsNoStar }
    ensures few { FewNames }
    ensures parent { ParentOfNames }
    ensures cut { CutsAtNames }
    ensures after { CutKeepsNames }
    ensures names { ParentHasNames }
    ensures one_parent { OneParent }
    ensures one_cut { OneCut }
{}

/// The empty world is a world; so is a world with one more node, and one in which a node was changed: the root and every
/// parent are folders (RFC 4918, section 5.1), numbers differ and are below the next, and times can be shown as HTTP dates.
pub fn worlds_are_kept()
    ensures empty { EmptyIsWorld }
    ensures made { NewKeepsWorld }
    ensures changed { ChangeKeepsWorld }
{}

/// Where a path is free, the requester holds each exclusive lock that covers it, so each that is on it, and where the path is
/// checked with everything below, each lock at it and below it (RFC 4918, sections 6.1 and 7.5); it is free exactly where no
/// lock conflicts. A lock that was just granted can be unlocked, and where its token is new, that leaves the list as it was
/// before.
pub fn free_paths_are_held()
    ensures exclusive { FreeHoldsExclusive }
    ensures own { FreeHoldsOwn }
    ensures below { FreeDeepHoldsBelow }
    ensures conflict { FreeIsNoConflict }
    ensures granted { GrantedCanBeUnlocked }
    ensures back { TakenBack }
{}

/// Any two locks that cover one path are both shared (RFC 4918, section 6.2): this holds of an empty list, and still holds
/// after a lock was granted that may be, after one was unlocked or refreshed, and after those at a path and below it were
/// deleted.
pub fn locks_exclude()
    ensures none { CoveringAreShared [] }
    ensures granted { GrantedAreShared }
    ensures unlocked { UnlockedAreShared }
    ensures refreshed { RefreshedAreShared }
    ensures deleted { DeletedAreShared }
{}

/// The locks that are listed for a path are those that cover it. An unlock removes one lock, and a refresh gives one lock a new
/// timeout: one with this token, on the path or above it. All other locks stay as they are, in their places (RFC 4918, sections 6.8,
/// 9.10.2 and 9.11).
pub fn lock_lists_are_read()
    ensures discovered { DiscoveredAreCovering }
    ensures unlocked { UnlockTakesOne }
    ensures refreshed { RefreshChangesOne }
{}

/// A text names one method at most. A set is known by its methods: two that have the same ones are equal.
pub fn sets_are_their_methods()
    ensures name { NameNames }
    ensures one_method { OneMethod }
    ensures members { MembersAreHad }
    ensures one_set { SameMethodsSameSet }
{}

/// The sets that are constants, HTTP_RO, HTTP_RW, WEBDAV_RO and WEBDAV_RW: their methods, and the numbers that they
/// are kept as.
pub fn constant_sets() -> (DavMethodSet, DavMethodSet, DavMethodSet, DavMethodSet)
    ensures bits { result ≡ (19, 23, 51, 65535) }
    ensures http_ro { methods_in result.0
        ≡ DavMethod.Head ∷ DavMethod.Get ∷ DavMethod.Options ∷ [] }
    ensures http_rw { methods_in result.1
        ≡ DavMethod.Head ∷ DavMethod.Get ∷ DavMethod.Put ∷ DavMethod.Options ∷ [] }
    ensures webdav_ro { methods_in result.2
        ≡ DavMethod.Head ∷ DavMethod.Get ∷ DavMethod.Options ∷ DavMethod.PropFind ∷ [] }
    ensures webdav_rw { methods_in result.3 ≡ all_methods }
{
    (
        DavMethodSet::HTTP_RO,
        DavMethodSet::HTTP_RW,
        DavMethodSet::WEBDAV_RO,
        DavMethodSet::WEBDAV_RW,
    )
}
