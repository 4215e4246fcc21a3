//! The requests by which the times of uploaded files are set.
use super::unescaped;
use dav_http::time_request;
use std::str;
use std::test::Fail;

// The status of a request and its head, and the head of the request that sets the time, with its body up to the date and from it on
// left out; the date is that of RFC 9110, section 5.6.7.
const TIMES: &str = "\
201 PUT /a HTTP/1.1^X-OC-Mtime: 784111777^^ -> PROPPATCH /a HTTP/1.1^^Sun, 06 Nov 1994 08:49:37 GMT
204 PUT /d/%61?x HTTP/1.1^X-OC-MTime: 0784111777^^ -> PROPPATCH /d/%61?x HTTP/1.1^^Sun, 06 Nov 1994 08:49:37 GMT
201 PUT /a HTTP/1.1^x-oc-mtime: 0^^ -> PROPPATCH /a HTTP/1.1^^Thu, 01 Jan 1970 00:00:00 GMT
201 PUT /a HTTP/1.1^X-OC-Mtime: 253402300799^^ -> PROPPATCH /a HTTP/1.1^^Fri, 31 Dec 9999 23:59:59 GMT
204 PUT /a HTTP/1.1^If: (<urn:t> [\"8\"])^X-OC-Mtime: 784111777^If-Match: \"8\"^^ -> PROPPATCH /a HTTP/1.1^If: (<urn:t> [\"8\"]) (Not <DAV:no-lock>)^^Sun, 06 Nov 1994 08:49:37 GMT
201 PUT /a HTTP/1.1^If: <http://h/d> (<urn:t>)^X-OC-Mtime: 784111777^^ -> PROPPATCH /a HTTP/1.1^If: <http://h/d> (<urn:t>) (Not <DAV:no-lock>)^^Sun, 06 Nov 1994 08:49:37 GMT
# no PUT that was done, and none that tells a time
412 PUT /a HTTP/1.1^X-OC-Mtime: 784111777^^ -> none
200 GET /a HTTP/1.1^X-OC-Mtime: 784111777^^ -> none
201 MKCOL /a HTTP/1.1^X-OC-Mtime: 784111777^^ -> none
201 PUT /a HTTP/1.1^^ -> none
201 PUT /a HTTP/1.1^X-OC-Mtime: 253402300800^^ -> none
201 PUT /a HTTP/1.1^X-OC-Mtime: -1^^ -> none
201 PUT /a HTTP/1.1^X-OC-Mtime: 784111777.5^^ -> none
201 PUT /a HTTP/1.1^X-OC-Mtime: +784111777^^ -> none
201 PUT /a HTTP/1.1^X-OC-Mtime: 1^X-OC-Mtime: 2^^ -> none
201 PUT /a -> none
";

// What stands in a body before and after the date.
const BEFORE: &str = "<propertyupdate xmlns=\"DAV:\"><set><prop><getlastmodified>";

const AFTER: &str = "</getlastmodified></prop></set></propertyupdate>";

#[test]
fn uploads_set_times(rt: HostRuntime) -> Result<(), Fail> {
    let mut count = 0usize;
    for row in TIMES.lines() {
        let Some((input, wanted)) = row.split_once(" -> ") else {
            continue;
        };
        let (status, head) = input.split_once(" ").ok_or("a row without a status")?;
        let head = unescaped(rt.alloc(), head)?;
        let found = time_request(rt.alloc(), &head, status.parse::<u16>()?)?;
        let text = match &found {
            Some(set) => {
                let body = str::from_utf8(set.body.as_slice())?;
                let date = body.strip_prefix(BEFORE).ok_or("another body")?;
                let date = date.strip_suffix(AFTER).ok_or("another end")?;
                format!(in rt.alloc(); "{}{date}", str::from_utf8(&set.head)?)?
            }
            None => String::from_str(rt.alloc(), "none")?,
        };
        let wanted = unescaped(rt.alloc(), wanted)?;
        assert!(rt; text.as_bytes() == wanted.as_slice(), "{row}: {text}");
        count = count.saturating_add(1);
    }
    assert!(rt; count == 16, "{count} rows");
    Ok(())
}
