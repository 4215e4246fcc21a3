//! Laws of what is told of a folder on the way. Each function does nothing: its contract is a theorem on the definitions.
ghost use Rattle.dav_seen.specs.Laws.{WaysMayBeSeen, WaysStayInSight};

/// The reply to a request for a folder on the way tells of which folders are there among the paths that who asks may see, and of what may
/// be read, and of nothing else: two servers that agree there give the same reply, byte for byte; and of each folder of which it tells
/// that it is on the way, may be seen that it is there.
pub fn ways_stay_in_sight()
    ensures sight { WaysStayInSight }
    ensures seen { WaysMayBeSeen }
{}
