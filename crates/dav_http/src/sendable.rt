//! Texts that a reply may tell.
ghost use Rattle.std.specs.Prelude.{◌↔◌, IsTrue};
ghost use Rattle.std.specs.Option.{option_copied};
ghost use Rattle.dav_http.specs.Sent.{IsSendableText, IsSendableTextIfAny};

use dav_xml::is_legal;

/// Whether a text may stand in a reply: it isn't empty, and its characters are such as a document may have (XML 1.0, section
/// 2.2).
pub fn is_sendable(text: &str) -> bool
    ensures { IsTrue result ↔ IsSendableText text.now }
{
    !text.is_empty() && is_legal(text)
}

/// Whether a text may stand in a reply, if there is one.
pub fn is_sendable_if_any(text: Option<&str>) -> bool
    ensures { IsTrue result ↔ IsSendableTextIfAny (option_copied text.entry) }
{
    match text {
        Some(text) => is_sendable(text),
        None => true,
    }
}
