//! Pages of folders: what requests put there, and what a page of it has.
use super::unescaped;
use crate::machine::Machine;
use crate::page::{shown_date, shown_size};
use bytes::{Buf, Bytes};
use dav_http::Handler;
use dav_kept::{Handles, Request};
use http_server::Response;
use std::alloc::Global;
use std::str;
use std::test::Fail;

/// Requests, whose body, if any, follows `=`, and texts that the body of the response to the last one has, in this order; `!` for
/// one that it hasn't. They may begin with the prefix of the server and a colon. Names are escaped in links (RFC 3986, section
/// 2.1), and their characters that mean something in HTML are references.
const PAGES: &str = "\
# what a page tells of a folder and its members
MKCOL /d ; PUT /d/one = hello ; MKCOL /d/two ; GET /d/ -> <title>/d/</title> ; <h1>/d/</h1> ; <a href=\"/\">..</a></td><td></td><td></td></tr> ; <a href=\"/d/two/\">two/</a></td><td></td><td>2001-09-09 01:46</td></tr> ; <a href=\"/d/one\">one</a></td><td>5 B</td><td>2001-09-09 01:46</td></tr>
PUT /one = hello ; GET / -> <title>/</title> ; <h1>/</h1> ; !.. ; <a href=\"/one\">one</a>
MKCOL /d ; MKCOL /d/e ; GET /d/e/ -> <title>/d/e/</title> ; <h1>/d/e/</h1> ; <a href=\"/d/\">..</a>
PUT /none ; GET / -> <a href=\"/none\">none</a></td><td>0 B</td>
GET / -> <!DOCTYPE html> ; <html lang=\"en\"> ; <meta charset=\"utf-8\"> ; <meta name=\"viewport\" content=\"width=device-width, initial-scale=1\"> ; <tr><th>Name</th><th>Size</th><th>Changed (UTC)</th></tr> ; !<a ; !<script ; !<form ; </html>
# folders come before files, each by their names
PUT /b = x ; MKCOL /z ; PUT /a = x ; MKCOL /c ; PUT /d = x ; GET / -> >c/</a> ; >z/</a> ; >a</a> ; >b</a> ; >d</a> ; </table>
MKCOL /d ; PUT /d/a = x ; MKCOL /d/b ; GET /d/ -> >..</a> ; >b/</a> ; >a</a> ; </table>
# links are of the whole path, with the prefix
/p : MKCOL /p/d ; MKCOL /p/d/e ; PUT /p/d/a = x ; GET /p/d/ -> <title>/p/d/</title> ; <a href=\"/p/\">..</a> ; <a href=\"/p/d/e/\">e/</a> ; <a href=\"/p/d/a\">a</a>
# the folder of the prefix has no way up
/p : GET /p/ -> <title>/p/</title> ; !..
/x y : GET /x%20y/ -> <title>/x y/</title> ; !..
/p/q : PUT /p/q/a = x ; GET /p/q/ -> <title>/p/q/</title> ; !.. ; <a href=\"/p/q/a\">a</a>
# characters that mean something in HTML
PUT /a%26b = x ; GET / -> <a href=\"/a%26b\">a&amp;b</a> ; !a&b
PUT /%3Cscript%3Ealert(1)%3C%2Fscript%3E = x ; GET / -> !<script>
PUT /%3Cb%3E = x ; GET / -> <a href=\"/%3Cb%3E\">&lt;b&gt;</a> ; !<b>
PUT /a%22b = x ; GET / -> <a href=\"/a%22b\">a&quot;b</a>
PUT /it's = x ; GET / -> <a href=\"/it%27s\">it&#39;s</a>
PUT /%26lt;b = x ; GET / -> <a href=\"/%26lt%3Bb\">&amp;lt;b</a>
MKCOL /%3Ci%3E ; GET /%3Ci%3E/ -> <title>/&lt;i&gt;/</title> ; <h1>/&lt;i&gt;/</h1> ; !<i>
MKCOL /%22 ; MKCOL /%22/a ; GET /%22/a/ -> <a href=\"/%22/\">..</a>
MKCOL /%3Ci%3E ; MKCOL /%3Ci%3E/a ; GET /%3Ci%3E/a/ -> <title>/&lt;i&gt;/a/</title> ; <a href=\"/%3Ci%3E/\">..</a> ; !<i>
# other characters
MKCOL /a%20b ; MKCOL /a%20b/%C3%A9 ; GET /a%20b/%C3%A9/ -> <title>/a b/é/</title> ; <h1>/a b/é/</h1> ; <a href=\"/a%20b/\">..</a>
PUT /a%20b = x ; GET / -> <a href=\"/a%20b\">a b</a>
PUT /%C3%A9 = x ; GET / -> <a href=\"/%C3%A9\">é</a>
PUT /%E2%82%AC = x ; GET / -> <a href=\"/%E2%82%AC\">€</a>
PUT /50%25 = x ; GET / -> <a href=\"/50%25\">50%</a>
PUT /%253Cb%253E = x ; GET / -> <a href=\"/%253Cb%253E\">%3Cb%3E</a>
PUT /a%3Fb%23c = x ; GET / -> <a href=\"/a%3Fb%23c\">a?b#c</a>
PUT /javascript:alert(1) = x ; GET / -> <a href=\"/javascript%3Aalert%281%29\">javascript:alert(1)</a>
# of a file, and of what isn't there, there is none
PUT /one = hello ; GET /one -> hello ; !<html
GET /none/ -> !<html
";

/// What a number of bytes is shown by.
const SIZES: &str = "\
0 -> 0 B
9 -> 9 B
999 -> 999 B
1000 -> 1.0 kB
1049 -> 1.0 kB
1050 -> 1.1 kB
9900 -> 9.9 kB
9949 -> 9.9 kB
9950 -> 10 kB
10000 -> 10 kB
10499 -> 10 kB
10500 -> 11 kB
999000 -> 999 kB
999499 -> 999 kB
999500 -> 1.0 MB
1000000 -> 1.0 MB
1049999 -> 1.0 MB
1050000 -> 1.1 MB
9949999 -> 9.9 MB
9950000 -> 10 MB
999499999 -> 999 MB
999500000 -> 1.0 GB
1000000000 -> 1.0 GB
9949999999 -> 9.9 GB
9950000000 -> 10 GB
1500000000000 -> 1500 GB
18446744073709551615 -> 18446744074 GB
# what is no number of bytes stays
18446744073709551616 -> 18446744073709551616
many -> many
";

/// What a date is shown by.
const DATES: &str = "\
Sun, 09 Sep 2001 01:46:40 GMT -> 2001-09-09 01:46
Thu, 01 Jan 1970 00:00:59 GMT -> 1970-01-01 00:00
Tue, 29 Feb 2028 12:30:00 GMT -> 2028-02-29 12:30
Sun, 31 Mar 2024 02:30:00 GMT -> 2024-03-31 02:30
Tue, 30 Apr 2024 10:01:02 GMT -> 2024-04-30 10:01
Wed, 01 May 2024 10:01:02 GMT -> 2024-05-01 10:01
Sat, 01 Jun 2024 10:01:02 GMT -> 2024-06-01 10:01
Mon, 01 Jul 2024 10:01:02 GMT -> 2024-07-01 10:01
Thu, 01 Aug 2024 10:01:02 GMT -> 2024-08-01 10:01
Tue, 01 Oct 2024 10:01:02 GMT -> 2024-10-01 10:01
Fri, 01 Nov 2024 10:01:02 GMT -> 2024-11-01 10:01
Fri, 31 Dec 9999 23:59:59 GMT -> 9999-12-31 23:59
# what is no date stays, or has marks
yesterday -> yesterday
éééééééééééééé1 -> éé-?-? ?
";

// A request with this head and body, of nobody who is known.
fn request_for<'r>(head: &'r [u8], body: &'r Bytes) -> Request<'r> {
    let _ = (head.len(), body.len());
    let nobody: Option<&'r str> = None;
    Request {
        moment: 1_000_000_000,
        principal: nobody,
        token: nobody,
        head,
        body,
    }
}

// The response to a request of a row, whose body, if any, follows `=`.
fn answered(alloc: Global, machine: &mut Machine, text: &str) -> Result<Response, Fail> {
    let (line, body) = text.split_once(" = ").unwrap_or((text, ""));
    let mut head = unescaped(alloc, line)?;
    head.extend_from_slice(b" HTTP/1.1\r\n\r\n")?;
    let body = Bytes::copy_from_slice(alloc, body.as_bytes())?;
    let request = request_for(&head, &body);
    let mut response = Response::new(alloc);
    machine
        .handle(&request, &mut response)
        .map_err(|_| "not answered")?;
    Ok(response)
}

// Whether a page has these texts, in this order, but none after `!`.
fn has(page: &str, wanted: &str) -> bool {
    let mut from = 0usize;
    for text in wanted.split(" ; ") {
        if let Some(absent) = text.strip_prefix('!') {
            if page.contains(absent) {
                return false;
            }
            continue;
        }
        let Some(place) = page.get(from..).unwrap_or("").find(text) else {
            return false;
        };
        from = from.saturating_add(place).saturating_add(text.len());
    }
    true
}

#[test]
fn pages_have_their_members(rt: HostRuntime) -> Result<(), Fail> {
    let alloc = rt.alloc();
    for row in PAGES.lines() {
        let Some((input, wanted)) = row.split_once(" -> ") else {
            continue;
        };
        let (prefix, input) = input.split_once(" : ").unwrap_or(("", input));
        let handler = Handler::new(alloc, prefix).map_err(|_| "no handler")?;
        let mut machine = Machine::new(alloc, handler);
        let mut body = Vec::new(alloc);
        for text in input.split(" ; ") {
            let response = answered(alloc, &mut machine, text)?;
            body = Vec::from_slice(alloc, response.body.chunk())?;
        }
        let page = str::from_utf8(&body).unwrap_or("?");
        assert!(&rt; has(page, wanted), "{row}\ngives: {page}");
    }
    Ok(())
}

#[test]
fn sizes_are_shown_in_units(rt: HostRuntime) -> Result<(), Fail> {
    let alloc = rt.alloc();
    for row in SIZES.lines() {
        let Some((told, wanted)) = row.split_once(" -> ") else {
            continue;
        };
        let shown = shown_size(alloc, told)?;
        assert!(&rt; shown.as_str() == wanted, "{row}\ngives: {shown}");
    }
    Ok(())
}

#[test]
fn dates_are_shown_to_the_minute(rt: HostRuntime) -> Result<(), Fail> {
    let alloc = rt.alloc();
    for row in DATES.lines() {
        let Some((told, wanted)) = row.split_once(" -> ") else {
            continue;
        };
        let shown = shown_date(alloc, told)?;
        assert!(&rt; shown.as_str() == wanted, "{row}\ngives: {shown}");
    }
    Ok(())
}
