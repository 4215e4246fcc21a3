//! Lines of the rules that limit how much there may be.
use super::{marked, parts};
use dav_access::{Access, Limit, Measure, Users, file};
use std::alloc::{AllocError, Global};
use std::test::Fail;

const USERS: &str = "\
anna:$5$rounds=1000$aa$ih1prkhg9Lg0AGuY3ILPnD.W7vwH5Hc6Fu72rE8aTE2
";

// A text, and its limits, each as `measure path most`; or what is said of the text.
const TEXTS: &str = "\
# none
read / anna -> -
#files / 3 -> -
# files / 3 -> -
@space = anna -> -
# one
files /a 3 -> files /a 3
space /a 3 -> space /a 3
⇥space⇥/a⇥ 3 ␍ -> space /a 3
space / 0 -> space / 0
files /a%20b//c/../d/./ 1 -> files /a%20b/d/ 1
# several: in the order of their lines, two at one path, and with grants between
files /b 2↵space /a 1↵files /a 3 -> files /b 2; space /a 1; files /a 3
space /a 2↵space /a 1 -> space /a 2; space /a 1
read / anna↵files /a 2↵↵# a comment↵@staff = anna↵write /a @staff↵space / 9 -> files /a 2; space / 9
# letters
space /a 5k -> space /a 5120
space /a 5K -> space /a 5120
space /a 5m -> space /a 5242880
space /a 5M -> space /a 5242880
space /a 5g -> space /a 5368709120
space /a 5G -> space /a 5368709120
files /a 2k -> files /a 2048
files /a 0g -> files /a 0
space /a 007 -> space /a 7
# the greatest number, and what is past it
space /a 18446744073709551615 -> space /a 18446744073709551615
space /a 18446744073709551616 -> line 1: '18446744073709551616' isn't a number that it can be
space /a 000000000000000000000000000000001 -> space /a 1
space /a 17179869183g -> space /a 18446744072635809792
space /a 17179869184g -> line 1: '17179869184g' isn't a number that it can be
files /a 18014398509481983k -> files /a 18446744073709550592
files /a 18014398509481984k -> line 1: '18014398509481984k' isn't a number that it can be
files /a 17592186044416m -> line 1: '17592186044416m' isn't a number that it can be
space /a 99999999999999999999k -> line 1: '99999999999999999999k' isn't a number that it can be
# what is no number
space /a k -> line 1: 'k' isn't a number that it can be
space /a +1 -> line 1: '+1' isn't a number that it can be
space /a +1k -> line 1: '+1k' isn't a number that it can be
space /a -1 -> line 1: '-1' isn't a number that it can be
space /a 1.5g -> line 1: '1.5g' isn't a number that it can be
space /a 1,024 -> line 1: '1,024' isn't a number that it can be
space /a 0x10 -> line 1: '0x10' isn't a number that it can be
space /a 1kk -> line 1: '1kk' isn't a number that it can be
space /a 1km -> line 1: '1km' isn't a number that it can be
space /a 1t -> line 1: '1t' isn't a number that it can be
space /a k1 -> line 1: 'k1' isn't a number that it can be
space /a ١ -> line 1: '١' isn't a number that it can be
space /a anna -> line 1: 'anna' isn't a number that it can be
# no path, no number, a word too many
files -> line 1: there is no path in it
space 3 -> line 1: its path can't be read: InvalidPath
space 3 /a -> line 1: its path can't be read: InvalidPath
space * 3 -> line 1: its path can't be read: InvalidPath
space /a/../../b 3 -> line 1: its path can't be read: ForbiddenPath
space /a -> line 1: there is no number in it
space /a 3 4 -> line 1: '4' is a word too many
space /a 3 k -> line 1: 'k' is a word too many
space /a 3 anna ben -> line 1: 'anna' is a word too many
# the first fault of a line, and the first line with one
space * x y -> line 1: its path can't be read: InvalidPath
space /a x y -> line 1: 'x' isn't a number that it can be
files /a 1↵space /b↵rede -> line 2: there is no number in it
files /a 1↵rede /b anna↵space -> line 2: there is no right 'rede'
# other words for what is limited
Space /a 3 -> line 1: there is no right 'Space'
file /a 3 -> line 1: there is no right 'file'
bytes /a 3 -> line 1: there is no right 'bytes'
";

// A limit as text.
fn limit_text(alloc: Global, limit: &Limit) -> Result<String, AllocError> {
    let measure = match limit.measure {
        Measure::Files => "files",
        Measure::Space => "space",
    };
    let path = limit.path.as_url_string()?;
    format!(in alloc; "{measure} {path} {}", limit.most)
}

// The limits as text.
fn limits_text(alloc: Global, access: &Access) -> Result<String, AllocError> {
    let mut out = String::new(alloc);
    for limit in &access.limits {
        if !out.is_empty() {
            out.push_str("; ")?;
        }
        out.push_str(&limit_text(alloc, limit)?)?;
    }
    if out.is_empty() {
        out.push('-')?;
    }
    Ok(out)
}

#[test]
fn limits_are_read(rt: HostRuntime) -> Result<(), Fail> {
    let users = Users::read(rt.alloc(), USERS)?;
    for row in TEXTS.lines() {
        if let Some((text, wanted)) = parts(row) {
            let text = marked(rt.alloc(), text)?;
            let found = match file::read(rt.alloc(), text.as_bytes(), Some(&users)) {
                Ok(access) => limits_text(rt.alloc(), &access)?,
                Err(error) => format!(in rt.alloc(); "{error}")?,
            };
            assert!(&rt; found.as_str() == wanted, "{row}\ngives: {found}");
        }
    }
    Ok(())
}
