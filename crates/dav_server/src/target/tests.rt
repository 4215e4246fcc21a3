//! Targets whose paths were worked out by hand from RFC 9112, section 3.2, and RFC 3986, section 5.2.4.
use super::*;
use crate::method::method_of;
use crate::rows::{NoRow, Player, play_rows};
use std::test::Fail;

// A method, a target, and where it isn't empty the prefix that it is read below.
const TARGETS: &str = r##"# paths
GET / -> /
GET /a%20b/ -> /a b/
GET /x/../a?b=%2F -> /a
GET http://h/a -> /a
GET http://h:80/a/./b?q -> /a/b
GET HTTPS://u@h -> /
GET ://h/a -> /a
# no targets
GET * -> Status 400
GET a -> Status 400
GET h:80 -> Status 400
GET http://h/a#b -> Status 400
GET http:///a -> Status 400
# no paths
GET http://h?q -> InvalidPath 400
GET /a#b -> InvalidPath 400
GET /a%2Fb -> InvalidPath 400
GET http://h/a%00 -> InvalidPath 400
# above the root
GET /%2e%2e/x -> ForbiddenPath 403
GET http://h/.. -> ForbiddenPath 403
# below a prefix; its slash at the end doesn't count
GET /dav/a below /dav -> /a
GET /dav below /dav -> /
GET http://h/dav/a below /dav -> /a
GET /davx below /dav -> IllegalPath 502
GET /other below /dav -> IllegalPath 502
GET /dav/a below /dav/ -> /a
GET /dav below /dav/ -> /
GET http://h/dav/a below /dav/ -> /a
GET /davx below /dav/ -> IllegalPath 502
GET /other below /dav/ -> IllegalPath 502
# the star is for OPTIONS alone, and no prefix is cut from it
OPTIONS * below /dav -> the star, below ''
PROPFIND * below /dav -> Status 400
"##;

// The bytes of a path, or that it is the star.
fn shown(alloc: Global, path: &DavPath) -> Result<Vec<u8>, Fail> {
    if path.is_star() {
        let prefix = path.prefix();
        return Ok(format!(in alloc; "the star, below '{prefix}'")?.into_bytes());
    }
    Ok(Vec::from_slice(alloc, path.as_bytes())?)
}

// Asks for the path of a target.
#[derive(Drop)]
struct Targets;

impl Player for Targets {
    fn begin(&mut self, _alloc: Global) -> Result<(), Fail> {
        Ok(())
    }

    fn answer(&mut self, alloc: Global, question: &'static str) -> Result<Vec<u8>, Fail> {
        let (request, prefix) = question.split_once(" below ").unwrap_or((question, ""));
        let (name, target) = request.split_once(' ').ok_or(NoRow(question))?;
        let method = method_of(name.as_bytes())?;
        match path_of(alloc, method, target, prefix) {
            Ok(path) => shown(alloc, &path),
            Err(error) => {
                let status = error.statuscode().as_u16();
                Ok(format!(in alloc; "{error} {status}")?.into_bytes())
            }
        }
    }
}

#[test]
fn reads_targets(rt: HostRuntime) -> Result<(), Fail> {
    play_rows(&rt, &mut Targets, TARGETS)
}
