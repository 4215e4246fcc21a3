//! Lists of users, and who is let in by them.
use super::{marked, parts};
use dav_access::{Refusal, Users, principal_of};
use std::alloc::{AllocError, Global};
use std::test::Fail;

// The text of a list, and what is said of it.
const LISTS: &str = "\
# lists of users: what is read, or the fault and its line
anna:$5$rounds=1000$aa$ih1prkhg9Lg0AGuY3ILPnD.W7vwH5Hc6Fu72rE8aTE2 -> read
anna:$5$rounds=1000$aa$ih1prkhg9Lg0AGuY3ILPnD.W7vwH5Hc6Fu72rE8aTE2↵ -> read
anna:$5$rounds=1000$aa$ih1prkhg9Lg0AGuY3ILPnD.W7vwH5Hc6Fu72rE8aTE2↵bert:$5$rounds=1000$bb$h/fwQ20z8usGQjhs.06seWJvzk7zvCZgiEkgwAPkcxD↵ -> read
anna:$5$rounds=1000$aa$ih1prkhg9Lg0AGuY3ILPnD.W7vwH5Hc6Fu72rE8aTE2␍↵bert:$5$rounds=1000$bb$h/fwQ20z8usGQjhs.06seWJvzk7zvCZgiEkgwAPkcxD␍↵ -> read
# a comment↵↵  ⇥↵ anna:$5$rounds=1000$aa$ih1prkhg9Lg0AGuY3ILPnD.W7vwH5Hc6Fu72rE8aTE2 ↵#↵ # b↵ -> read
 -> there is no user in it
↵↵ -> there is no user in it
# anna↵ -> there is no user in it
anna -> line 1 isn't name:$5$.. as `vuldarg user NAME` writes it, or its name can't be written in XML
anna:secret -> line 1 isn't name:$5$.. as `vuldarg user NAME` writes it, or its name can't be written in XML
anna:<NULL> -> line 1 isn't name:$5$.. as `vuldarg user NAME` writes it, or its name can't be written in XML
↵#↵anna: $5$rounds=1000$aa$ih1prkhg9Lg0AGuY3ILPnD.W7vwH5Hc6Fu72rE8aTE2 -> line 3 isn't name:$5$.. as `vuldarg user NAME` writes it, or its name can't be written in XML
anna :$5$rounds=1000$aa$ih1prkhg9Lg0AGuY3ILPnD.W7vwH5Hc6Fu72rE8aTE2x -> line 1 isn't name:$5$.. as `vuldarg user NAME` writes it, or its name can't be written in XML
:$5$rounds=1000$aa$ih1prkhg9Lg0AGuY3ILPnD.W7vwH5Hc6Fu72rE8aTE2 -> line 1 isn't name:$5$.. as `vuldarg user NAME` writes it, or its name can't be written in XML
anna:$5$rounds=1000$aa$ih1prkhg9Lg0AGuY3ILPnD.W7vwH5Hc6Fu72rE8aTE2↵bert:$5$rounds=1000$bb$h/fwQ20z8usGQjhs.06seWJvzk7zvCZgiEkgwAPkcxD↵carl:$5$x -> line 3 isn't name:$5$.. as `vuldarg user NAME` writes it, or its name can't be written in XML
anna:$5$rounds=1000$aa$ih1prkhg9Lg0AGuY3ILPnD.W7vwH5Hc6Fu72rE8aTE2↵carl↵dora -> line 2 isn't name:$5$.. as `vuldarg user NAME` writes it, or its name can't be written in XML
an①na:$5$rounds=1000$aa$ih1prkhg9Lg0AGuY3ILPnD.W7vwH5Hc6Fu72rE8aTE2 -> line 1 isn't name:$5$.. as `vuldarg user NAME` writes it, or its name can't be written in XML
an②na:$5$rounds=1000$aa$ih1prkhg9Lg0AGuY3ILPnD.W7vwH5Hc6Fu72rE8aTE2 -> line 1 isn't name:$5$.. as `vuldarg user NAME` writes it, or its name can't be written in XML
anna:$5$rounds=1000$aa$ih1prkhg9Lg0AGuY3ILPnD.W7vwH5Hc6Fu72rE8aTE2↵↵↵an③na:$5$rounds=1000$aa$ih1prkhg9Lg0AGuY3ILPnD.W7vwH5Hc6Fu72rE8aTE2↵ -> line 4 isn't name:$5$.. as `vuldarg user NAME` writes it, or its name can't be written in XML
anna:$5$rounds=1000$aa$ih1prkhg9Lg0AGuY3ILPnD.W7vwH5Hc6Fu72rE8aTE -> line 1 isn't name:$5$.. as `vuldarg user NAME` writes it, or its name can't be written in XML
anna:$5$rounds=1000$aa$ih1prkhg9Lg0AGuY3ILPnD.W7vwH5Hc6Fu72rE8aTE2. -> line 1 isn't name:$5$.. as `vuldarg user NAME` writes it, or its name can't be written in XML
anna:$5$seventeenbyteslong$ih1prkhg9Lg0AGuY3ILPnD.W7vwH5Hc6Fu72rE8aTE2 -> line 1 isn't name:$5$.. as `vuldarg user NAME` writes it, or its name can't be written in XML
anna:$6$rounds=1000$aa$ih1prkhg9Lg0AGuY3ILPnD.W7vwH5Hc6Fu72rE8aTE2 -> line 1 isn't name:$5$.. as `vuldarg user NAME` writes it, or its name can't be written in XML
an:na:$5$rounds=1000$aa$ih1prkhg9Lg0AGuY3ILPnD.W7vwH5Hc6Fu72rE8aTE2 -> line 1 isn't name:$5$.. as `vuldarg user NAME` writes it, or its name can't be written in XML
an na:$5$rounds=1000$aa$ih1prkhg9Lg0AGuY3ILPnD.W7vwH5Hc6Fu72rE8aTE2 -> read
żółć:$5$rounds=1000$aa$ih1prkhg9Lg0AGuY3ILPnD.W7vwH5Hc6Fu72rE8aTE2 -> read
anna:$5$sixteenbytesLong$ih1prkhg9Lg0AGuY3ILPnD.W7vwH5Hc6Fu72rE8aTE2 -> read
anna :$5$rounds=1000$aa$ih1prkhg9Lg0AGuY3ILPnD.W7vwH5Hc6Fu72rE8aTE2 -> read
";

// A list, or nothing, and a field's value, or nothing; who is let in, or `!` and the name that is
// shown.
const PRINCIPALS: &str = "\
# no users: anybody, whatever is shown
 |  -> anybody
 | Basic YW5uYTpmaXJzdA== -> anybody
# users, and their passwords
anna:$5$rounds=1000$aa$ih1prkhg9Lg0AGuY3ILPnD.W7vwH5Hc6Fu72rE8aTE2↵bert:$5$rounds=1000$bb$h/fwQ20z8usGQjhs.06seWJvzk7zvCZgiEkgwAPkcxD | Basic YW5uYTpmaXJzdA== -> anna
anna:$5$rounds=1000$aa$ih1prkhg9Lg0AGuY3ILPnD.W7vwH5Hc6Fu72rE8aTE2↵bert:$5$rounds=1000$bb$h/fwQ20z8usGQjhs.06seWJvzk7zvCZgiEkgwAPkcxD | Basic YmVydDpzZWNvbmQ= -> bert
anna:$5$rounds=1000$aa$ih1prkhg9Lg0AGuY3ILPnD.W7vwH5Hc6Fu72rE8aTE2↵bert:$5$rounds=1000$bb$h/fwQ20z8usGQjhs.06seWJvzk7zvCZgiEkgwAPkcxD | Basic YW5uYTpzZWNvbmQ= -> ! anna
anna:$5$rounds=1000$aa$ih1prkhg9Lg0AGuY3ILPnD.W7vwH5Hc6Fu72rE8aTE2↵bert:$5$rounds=1000$bb$h/fwQ20z8usGQjhs.06seWJvzk7zvCZgiEkgwAPkcxD | Basic YmVydDpmaXJzdA== -> ! bert
anna:$5$rounds=1000$aa$ih1prkhg9Lg0AGuY3ILPnD.W7vwH5Hc6Fu72rE8aTE2↵bert:$5$rounds=1000$bb$h/fwQ20z8usGQjhs.06seWJvzk7zvCZgiEkgwAPkcxD | Basic QW5uYTpmaXJzdA== -> ! Anna
anna:$5$rounds=1000$aa$ih1prkhg9Lg0AGuY3ILPnD.W7vwH5Hc6Fu72rE8aTE2↵bert:$5$rounds=1000$bb$h/fwQ20z8usGQjhs.06seWJvzk7zvCZgiEkgwAPkcxD | Basic QU5OQTpmaXJzdA== -> ! ANNA
anna:$5$rounds=1000$aa$ih1prkhg9Lg0AGuY3ILPnD.W7vwH5Hc6Fu72rE8aTE2↵bert:$5$rounds=1000$bb$h/fwQ20z8usGQjhs.06seWJvzk7zvCZgiEkgwAPkcxD | Basic YW5uYSA6Zmlyc3Q= -> ! anna 
anna:$5$rounds=1000$aa$ih1prkhg9Lg0AGuY3ILPnD.W7vwH5Hc6Fu72rE8aTE2↵bert:$5$rounds=1000$bb$h/fwQ20z8usGQjhs.06seWJvzk7zvCZgiEkgwAPkcxD | Basic YW5uOmZpcnN0 -> ! ann
anna:$5$rounds=1000$aa$ih1prkhg9Lg0AGuY3ILPnD.W7vwH5Hc6Fu72rE8aTE2↵bert:$5$rounds=1000$bb$h/fwQ20z8usGQjhs.06seWJvzk7zvCZgiEkgwAPkcxD | Basic Y2FybDpmaXJzdA== -> ! carl
anna:$5$rounds=1000$aa$ih1prkhg9Lg0AGuY3ILPnD.W7vwH5Hc6Fu72rE8aTE2↵bert:$5$rounds=1000$bb$h/fwQ20z8usGQjhs.06seWJvzk7zvCZgiEkgwAPkcxD | Basic Y2FybDo= -> ! carl
anna:$5$rounds=1000$aa$ih1prkhg9Lg0AGuY3ILPnD.W7vwH5Hc6Fu72rE8aTE2↵bert:$5$rounds=1000$bb$h/fwQ20z8usGQjhs.06seWJvzk7zvCZgiEkgwAPkcxD | Basic YW5uYTo= -> ! anna
anna:$5$rounds=1000$aa$ih1prkhg9Lg0AGuY3ILPnD.W7vwH5Hc6Fu72rE8aTE2↵bert:$5$rounds=1000$bb$h/fwQ20z8usGQjhs.06seWJvzk7zvCZgiEkgwAPkcxD | Basic YW5uYTpmaXJz -> ! anna
anna:$5$rounds=1000$aa$ih1prkhg9Lg0AGuY3ILPnD.W7vwH5Hc6Fu72rE8aTE2↵bert:$5$rounds=1000$bb$h/fwQ20z8usGQjhs.06seWJvzk7zvCZgiEkgwAPkcxD | Basic YW5uYTpmaXJzVA== -> ! anna
anna:$5$rounds=1000$aa$ih1prkhg9Lg0AGuY3ILPnD.W7vwH5Hc6Fu72rE8aTE2↵bert:$5$rounds=1000$bb$h/fwQ20z8usGQjhs.06seWJvzk7zvCZgiEkgwAPkcxD | Basic YW5uYTpmaXJzdHR0dHR0dHR0dHR0dHR0dHR0dHR0dHR0dHR0dHR0dHR0dHR0dHR0dHR0dHR0dHR0dHR0dHR0dHR0dHR0dHR0dHR0dHR0dHQ= -> ! anna
anna:$5$rounds=1000$aa$ih1prkhg9Lg0AGuY3ILPnD.W7vwH5Hc6Fu72rE8aTE2↵bert:$5$rounds=1000$bb$h/fwQ20z8usGQjhs.06seWJvzk7zvCZgiEkgwAPkcxD | Basic OmZpcnN0 -> ! 
# nothing that reads as credentials
anna:$5$rounds=1000$aa$ih1prkhg9Lg0AGuY3ILPnD.W7vwH5Hc6Fu72rE8aTE2↵bert:$5$rounds=1000$bb$h/fwQ20z8usGQjhs.06seWJvzk7zvCZgiEkgwAPkcxD |  -> ! 
anna:$5$rounds=1000$aa$ih1prkhg9Lg0AGuY3ILPnD.W7vwH5Hc6Fu72rE8aTE2↵bert:$5$rounds=1000$bb$h/fwQ20z8usGQjhs.06seWJvzk7zvCZgiEkgwAPkcxD | Bearer YW5uYTpmaXJzdA== -> ! 
anna:$5$rounds=1000$aa$ih1prkhg9Lg0AGuY3ILPnD.W7vwH5Hc6Fu72rE8aTE2↵bert:$5$rounds=1000$bb$h/fwQ20z8usGQjhs.06seWJvzk7zvCZgiEkgwAPkcxD | Basic YW5uYQ== -> ! 
# a name that is listed twice: the first line counts
anna:$5$rounds=1000$aa$ih1prkhg9Lg0AGuY3ILPnD.W7vwH5Hc6Fu72rE8aTE2↵anna:$5$rounds=1000$bb$h/fwQ20z8usGQjhs.06seWJvzk7zvCZgiEkgwAPkcxD | Basic YW5uYTpmaXJzdA== -> anna
anna:$5$rounds=1000$aa$ih1prkhg9Lg0AGuY3ILPnD.W7vwH5Hc6Fu72rE8aTE2↵anna:$5$rounds=1000$bb$h/fwQ20z8usGQjhs.06seWJvzk7zvCZgiEkgwAPkcxD | Basic YW5uYTpzZWNvbmQ= -> ! anna
";

// What is said of a list.
fn said(alloc: Global, text: &str) -> Result<String, AllocError> {
    match Users::read(alloc, text) {
        Ok(_) => String::from_str(alloc, "read"),
        Err(error) => format!(in alloc; "{error}"),
    }
}

#[test]
fn lists_are_read(rt: HostRuntime) -> Result<(), Fail> {
    for row in LISTS.lines() {
        if let Some((text, wanted)) = parts(row) {
            let text = marked(rt.alloc(), text)?;
            let found = said(rt.alloc(), &text)?;
            assert!(&rt; found.as_str() == wanted, "{row}\ngives: {found}");
        }
    }
    Ok(())
}

// Who is let in.
fn let_in(alloc: Global, users: &mut Option<Users>, value: &str) -> Result<String, AllocError> {
    let shown = if value.is_empty() {
        None
    } else {
        Some(value.as_bytes())
    };
    match principal_of(alloc, users, shown) {
        Ok(None) => String::from_str(alloc, "anybody"),
        Ok(Some(name)) => Ok(name),
        Err(Refusal::Unknown(name)) => format!(in alloc; "! {name}"),
        Err(Refusal::Memory) => Err(AllocError),
    }
}

#[test]
fn users_are_let_in(rt: HostRuntime) -> Result<(), Fail> {
    for row in PRINCIPALS.lines() {
        if let Some((input, wanted)) = parts(row) {
            let (list, value) = input.split_once(" | ").ok_or("a row without a value")?;
            let list = marked(rt.alloc(), list)?;
            let mut users = if list.is_empty() {
                None
            } else {
                Some(Users::read(rt.alloc(), &list)?)
            };
            // The second time a password that fitted is known by its digest.
            for turn in ["first", "second"] {
                let found = let_in(rt.alloc(), &mut users, value)?;
                assert!(&rt;
                    found.as_str() == wanted,
                    "{row}\ngives the {turn} time: {found}"
                );
            }
        }
    }
    Ok(())
}
