//! Laws of what a file store holds and of its calls. Each function does nothing: its contract is a theorem on the
//! definitions.
ghost use Rattle.dav_core.specs.CallLaws.{PruneLeaves, AdjustChanges, UnionHasBoth, GraftMoves, MovedStands, TouchedIsModified, PutStands, PruneKeepsOrder, AdjustKeepsOrder, UnionKeepsOrder, GraftKeepsOrder, MovedKeepsOrder, CallsKeepWorlds, NumbersRise, TimesAreShown, AskingIsDetermined, ErrorsLeaveWorlds, RulesComeFirst, RefusalsAreUsedUp, RefusalIsAnswered, CanBeAsked, MembersStandBelow, MembersRise, ListsWhatStands, NodesFollowRenames, NodesStay, OthersAreUnchanged, NodesWereThere, TakenIsGone, NumbersTellBytes, NumbersLookBack, MadeStands, OpenedStands, OpenedIsOpenFile, OpenFilesStay, TakenFilesAreGone, TakenNeverReturn, CopyBrings, CopySparesFolders, RemovalSparesMembers};

/// What is at any path after each operation on the whole map, whatever the map's order.
pub fn nodes_after()
    ensures prune { PruneLeaves }
    ensures adjust { AdjustChanges }
    ensures union { UnionHasBoth }
    ensures graft { GraftMoves }
    ensures moved { MovedStands }
    ensures touched { TouchedIsModified }
    ensures put { PutStands }
{}

/// Each operation on the whole map keeps it in the order of its paths.
pub fn order_is_kept()
    ensures prune { PruneKeepsOrder }
    ensures adjust { AdjustKeepsOrder }
    ensures union { UnionKeepsOrder }
    ensures graft { GraftKeepsOrder }
    ensures moved { MovedKeepsOrder }
{}

/// A world stays a world after each call that a caller may make; the next change number never falls, whatever is called; and
/// in a world the times that a call answers are from 1970 to the end of the year 9999.
pub fn calls_keep_worlds()
    ensures kept { CallsKeepWorlds }
    ensures next { NumbersRise }
    ensures times { TimesAreShown }
{}

/// What a folder lists in a world: the names at which something is directly below it, each once, in the order of
/// their bytes, and each with whether it is a folder.
pub fn members_are_what_stands_below()
    ensures below { MembersStandBelow }
    ensures rise { MembersRise }
    ensures listed { ListsWhatStands }
{}

/// Where no allocation in a store ever failed, its answer to each call is determined: the refusal that is next in the list,
/// or what the call means. The error of a rule that refuses a call is the answer whether memory suffices or not. An error
/// leaves the world as it was, and every call has an answer.
pub fn asking_is_determined()
    ensures determined { AskingIsDetermined }
    ensures error { ErrorsLeaveWorlds }
    ensures rule { RulesComeFirst }
    ensures used_up { RefusalsAreUsedUp }
    ensures refused { RefusalIsAnswered }
    ensures can_be { CanBeAsked }
{}

/// A folder or file that a call doesn't take away is still there, at its path or where a rename moved it, and as it was, but
/// for the moment of its last change, where the call doesn't change it. What is taken away is gone and never comes back; and
/// what keeps its number keeps its bytes, so each change of bytes takes a new number, which nothing had before.
pub fn nodes_follow()
    ensures renamed { NodesFollowRenames }
    ensures stay { NodesStay }
    ensures others { OthersAreUnchanged }
    ensures were_there { NodesWereThere }
    ensures gone { TakenIsGone }
    ensures numbers { NumbersTellBytes }
    ensures back { NumbersLookBack }
{}

/// An open file refers to the file at the path at which it was opened, wherever a rename moves it, until a call takes it
/// away: from then on it refers to none. The file that was created under a change number is at one path in a world.
pub fn open_files_follow()
    ensures made { MadeStands }
    ensures opened { OpenedStands }
    ensures stays { OpenFilesStay }
    ensures is_open { OpenedIsOpenFile }
    ensures gone { TakenFilesAreGone }
    ensures never { TakenNeverReturn }
{}

/// A copy has the bytes and dead properties of its source, the next change number, and the moment of the call as both times.
/// Nothing is copied over a folder, and a folder with members isn't removed.
pub fn copies_and_removals()
    ensures brings { CopyBrings }
    ensures spares_folders { CopySparesFolders }
    ensures spares_members { RemovalSparesMembers }
{}
