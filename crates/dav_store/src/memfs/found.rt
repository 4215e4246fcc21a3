//! What is at a path, for who only looks.
use super::MemFs;
use crate::entries;
use dav_core::davpath::DavPath;
use dav_core::fs::DavMetaData;

impl MemFs {
    ghost use Rattle.std.specs.Prelude.{◌≡◌, option_map};
    ghost use Rattle.dav_core.specs.Calls.{metadata_of};
    ghost use Rattle.dav_core.specs.Path.{names};
    ghost use Rattle.dav_core.specs.World.{node_at};

    /// The metadata of what is at a path, with its times in seconds since 1970; `None` where nothing is. This is no call of the
    /// store, and changes nothing.
    pub fn found_at(&self, path: &DavPath) -> Option<DavMetaData>
        ensures { result ≡ option_map metadata_of (node_at self.now.world (names path.now)) }
    {
        match entries::node_at(&self.entries, path) {
            Some(node) => Some(node.metadata()),
            None => None,
        }
    }
}
