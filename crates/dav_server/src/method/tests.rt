//! Names of methods, and which of them are served (RFC 9110, section 9.1).
use super::*;
use crate::rows::{Player, play_rows};
use std::alloc::Global;
use std::test::Fail;

const METHODS: &str = r##"# the methods that are served
GET -> Ok(Get)
HEAD -> Ok(Head)
PUT -> Ok(Put)
PATCH -> Ok(Patch)
OPTIONS -> Ok(Options)
PROPFIND -> Ok(PropFind)
PROPPATCH -> Ok(PropPatch)
MKCOL -> Ok(MkCol)
COPY -> Ok(Copy)
MOVE -> Ok(Move)
DELETE -> Ok(Delete)
LOCK -> Ok(Lock)
UNLOCK -> Ok(Unlock)
# no method, or one that isn't served
 -> Err(UnknownDavMethod)
FOO -> Err(UnknownDavMethod)
get -> Err(UnknownDavMethod)
Get -> Err(UnknownDavMethod)
GETS -> Err(UnknownDavMethod)
REPORT -> Err(UnknownDavMethod)
MKCALENDAR -> Err(UnknownDavMethod)
MKADDRESSBOOK -> Err(UnknownDavMethod)
"##;

// Asks for the method of a name.
#[derive(Drop)]
struct Methods;

impl Player for Methods {
    fn begin(&mut self, _alloc: Global) -> Result<(), Fail> {
        Ok(())
    }

    fn answer(&mut self, alloc: Global, question: &'static str) -> Result<Vec<u8>, Fail> {
        let method = method_of(question.as_bytes());
        Ok(format!(in alloc; "{method:?}")?.into_bytes())
    }
}

#[test]
fn knows_methods(rt: HostRuntime) -> Result<(), Fail> {
    play_rows(&rt, &mut Methods, METHODS)
}
