//! Laws of what rules of access keep.
ghost use Rattle.dav_confined.specs.Granted.{AnswersStayInGrants, LocksOfOthersStand, LocksStayOutsideGrants, RunsStayInGrants, WritesStayInGrants, WritesStayInGrantsCut};

/// A request with leave changes content where its principal may write, and nowhere else, whatever its bytes are, whatever is locked,
/// whatever the store refuses, and where memory runs out in its step; and a lock elsewhere stands. An UNLOCK leaves the locks of others
/// where its principal may not end these. Through a run, with rules that may change between requests, the content at paths where none
/// of those who make them may write stays.
pub fn writes_stay_in_grants()
    ensures step { WritesStayInGrants }
    ensures cut { WritesStayInGrantsCut }
    ensures locks { LocksStayOutsideGrants }
    ensures others { LocksOfOthersStand }
    ensures run { RunsStayInGrants }
{}

/// The answer to a GET, HEAD, OPTIONS or PROPFIND with leave of a path that its principal may read tells of what the principal may read,
/// and of the locks that cover it, and of nothing else: two servers that agree there give the same reply, byte for byte.
pub fn answers_stay_in_grants()
    ensures { AnswersStayInGrants }
{}
