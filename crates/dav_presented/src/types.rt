//! The media type of a file by its name, and which types browsers run (RFC 9110, section 8.3.1).
//! Nothing is guessed by a file's bytes.
ghost use Rattle.std.specs.Prelude.{◌≡◌, ℕ, List, ◌++◌, ◌∷◌, bytes_eq, map, option_map, IfOk, MatchOption, IfSome, IsTrue};
ghost use Rattle.std.specs.Char.{to_ascii_lowercase};
ghost use Rattle.http_header.specs.FieldValue.{is_visible_text};
ghost use Rattle.dav_presented.specs.Types as spec;

use std::alloc::{AllocError, Global};

// Types of text.
fn text_type(extension: &str) -> Option<&'static str>
    ensures is { option_map (λ t. t.now) result ≡ spec.text_type extension.now }
    ensures text { IfSome result (λ t. IsTrue (is_visible_text t.now)) }
{
    match extension {
        "txt" => Some("text/plain; charset=utf-8"),
        "text" => Some("text/plain; charset=utf-8"),
        "log" => Some("text/plain; charset=utf-8"),
        "html" => Some("text/html; charset=utf-8"),
        "htm" => Some("text/html; charset=utf-8"),
        "css" => Some("text/css; charset=utf-8"),
        "csv" => Some("text/csv; charset=utf-8"),
        "md" => Some("text/markdown; charset=utf-8"),
        "markdown" => Some("text/markdown; charset=utf-8"),
        "ics" => Some("text/calendar; charset=utf-8"),
        "vcf" => Some("text/vcard; charset=utf-8"),
        "js" => Some("text/javascript; charset=utf-8"),
        "mjs" => Some("text/javascript; charset=utf-8"),
        "xml" => Some("application/xml"),
        "json" => Some("application/json"),
        _ => None,
    }
}

// Types of images.
fn image_type(extension: &str) -> Option<&'static str>
    ensures is { option_map (λ t. t.now) result ≡ spec.image_type extension.now }
    ensures text { IfSome result (λ t. IsTrue (is_visible_text t.now)) }
{
    match extension {
        "png" => Some("image/png"),
        "jpg" => Some("image/jpeg"),
        "jpeg" => Some("image/jpeg"),
        "gif" => Some("image/gif"),
        "webp" => Some("image/webp"),
        "svg" => Some("image/svg+xml"),
        "avif" => Some("image/avif"),
        "heic" => Some("image/heic"),
        "heif" => Some("image/heif"),
        "bmp" => Some("image/bmp"),
        "tif" => Some("image/tiff"),
        "tiff" => Some("image/tiff"),
        "ico" => Some("image/vnd.microsoft.icon"),
        _ => None,
    }
}

// Types of sound and video.
fn sound_type(extension: &str) -> Option<&'static str>
    ensures is { option_map (λ t. t.now) result ≡ spec.sound_type extension.now }
    ensures text { IfSome result (λ t. IsTrue (is_visible_text t.now)) }
{
    match extension {
        "mp3" => Some("audio/mpeg"),
        "m4a" => Some("audio/mp4"),
        "ogg" => Some("audio/ogg"),
        "oga" => Some("audio/ogg"),
        "opus" => Some("audio/ogg"),
        "flac" => Some("audio/flac"),
        "wav" => Some("audio/wav"),
        "mp4" => Some("video/mp4"),
        "m4v" => Some("video/mp4"),
        "mov" => Some("video/quicktime"),
        "webm" => Some("video/webm"),
        "mkv" => Some("video/matroska"),
        "avi" => Some("video/vnd.avi"),
        "mpg" => Some("video/mpeg"),
        "mpeg" => Some("video/mpeg"),
        _ => None,
    }
}

// Types of documents.
fn document_type(extension: &str) -> Option<&'static str>
    ensures is { option_map (λ t. t.now) result ≡ spec.document_type extension.now }
    ensures text { IfSome result (λ t. IsTrue (is_visible_text t.now)) }
{
    match extension {
        "pdf" => Some("application/pdf"),
        "rtf" => Some("application/rtf"),
        "epub" => Some("application/epub+zip"),
        "doc" => Some("application/msword"),
        "xls" => Some("application/vnd.ms-excel"),
        "ppt" => Some("application/vnd.ms-powerpoint"),
        "docx" => Some("application/vnd.openxmlformats-officedocument.wordprocessingml.document"),
        "xlsx" => Some("application/vnd.openxmlformats-officedocument.spreadsheetml.sheet"),
        "pptx" => Some("application/vnd.openxmlformats-officedocument.presentationml.presentation"),
        "odt" => Some("application/vnd.oasis.opendocument.text"),
        "ods" => Some("application/vnd.oasis.opendocument.spreadsheet"),
        "odp" => Some("application/vnd.oasis.opendocument.presentation"),
        _ => None,
    }
}

// Types of archives and fonts.
fn packed_type(extension: &str) -> Option<&'static str>
    ensures is { option_map (λ t. t.now) result ≡ spec.packed_type extension.now }
    ensures text { IfSome result (λ t. IsTrue (is_visible_text t.now)) }
{
    match extension {
        "zip" => Some("application/zip"),
        "gz" => Some("application/gzip"),
        "tar" => Some("application/x-tar"),
        "7z" => Some("application/x-7z-compressed"),
        "bz2" => Some("application/x-bzip2"),
        "xz" => Some("application/x-xz"),
        "zst" => Some("application/zstd"),
        "wasm" => Some("application/wasm"),
        "woff" => Some("font/woff"),
        "woff2" => Some("font/woff2"),
        "ttf" => Some("font/ttf"),
        "otf" => Some("font/otf"),
        _ => None,
    }
}

// The type of an extension in lower case.
fn type_by(extension: &str) -> Option<&'static str>
    ensures is { option_map (λ t. t.now) result ≡ spec.type_by extension.now }
    ensures text { IfSome result (λ t. IsTrue (is_visible_text t.now)) }
{
    if let Some(found) = text_type(extension) {
        return Some(found);
    }
    if let Some(found) = image_type(extension) {
        return Some(found);
    }
    if let Some(found) = sound_type(extension) {
        return Some(found);
    }
    if let Some(found) = document_type(extension) {
        return Some(found);
    }
    packed_type(extension)
}

// What is before and after the first dot of a text.
fn cut(text: &str) -> Option<(&str, &str)>
    ensures { MatchOption result (spec.IsWithoutDot text.now)
        (λ p. text.now ≡ p.0.now ++ 46 ∷ p.1.now) }
{
    text.split_once('.')
}

// What is after the first dot of a text.
fn after_dot(text: &str) -> Option<&str>
    ensures { MatchOption result (spec.IsWithoutDot text.now)
        (λ after. (front : List ℕ) × (text.now ≡ front ++ 46 ∷ after.now)) }
{
    match cut(text) {
        Some((_, after)) => Some(after),
        None => None,
    }
}

// What is after the last dot of a text, which is the text itself where it has no dot.
fn last_part(text: &str) -> &str
    ensures { spec.IsLastPart text.now result.now }
{
    let mut rest = text;
    while let Some(after) = after_dot(rest) {
        rest = after;
    }
    rest
}

// What is after the last dot of a name.
fn extension_in(name: &str) -> Option<&str>
    ensures { spec.IsExtension name.now (option_map (λ e. e.now) result) }
{
    match after_dot(name) {
        Some(after) => Some(last_part(after)),
        None => None,
    }
}

// What is after the last dot of a name, as a function of the name.
#[tactic(auto, using(crate::proofs::DotLemmas::extension_by))]
fn extension(name: &str) -> Option<&str>
    ensures is { spec.IsExtension name.now (option_map (λ e. e.now) result) }
    ensures by { option_map (λ e. e.now) result ≡ spec.extension_of name.now }
{
    extension_in(name)
}

// The type by an extension, whatever the case of its ASCII letters is.
fn type_after(alloc: Global, extension: Option<&str>) -> Result<Option<&'static str>, AllocError>
    ensures is { IfOk result (λ found. option_map (λ t. t.now) found
        ≡ spec.type_after (option_map (λ e. e.now) extension.entry)) }
    ensures text { IfOk result (λ found. IfSome found (λ t. IsTrue (is_visible_text t.now))) }
{
    let Some(extension) = extension else {
        return Ok(None);
    };
    let lower = extension.to_ascii_lowercase(alloc)?;
    Ok(type_by(&lower))
}

/// The media type of a file of that name (RFC 9110, section 8.3.1), by what is after its last dot,
/// whatever the case of its ASCII letters is; `None` where there is no dot, and where the table hasn't
/// it. It is visible ASCII and blanks. `Err` where there is no memory.
pub fn type_of(alloc: Global, name: &str) -> Result<Option<&'static str>, AllocError>
    ensures is { IfOk result (λ found. spec.IsTypeOf name.now (option_map (λ t. t.now) found)) }
    ensures by { IfOk result (λ found. option_map (λ t. t.now) found ≡ spec.type_of name.now) }
    ensures text { IfOk result (λ found. IfSome found (λ t. IsTrue (is_visible_text t.now))) }
{
    type_after(alloc, extension(name))
}

// Whether a byte ends type and subtype.
fn ends_type(byte: u8) -> bool
    ensures { result ≡ spec.ends_type byte }
{
    byte == b';' || byte == b' ' || byte == b'\t'
}

// Type and subtype of a media type, in the letters that it has.
fn essence(kind: &[u8]) -> &[u8]
    ensures { map to_ascii_lowercase result.now ≡ spec.essence_of kind.now }
{
    for (i, byte) in kind.iter().enumerate() {
        if ends_type(*byte) {
            return &kind[..i];
        }
    }
    kind
}

// Whether two texts are the same but for the case of their ASCII letters.
#[tactic(auto, using(crate::proofs::TypeLemmas::same_letters))]
fn is_same(text: &[u8], other: &[u8]) -> bool
    ensures { result ≡ bytes_eq (map to_ascii_lowercase text.now)
        (map to_ascii_lowercase other.now) }
{
    text.eq_ignore_ascii_case(other)
}

// The last four bytes, where there are as many.
fn suffix(essence: &[u8]) -> &[u8]
    ensures { map to_ascii_lowercase result.now
        ≡ spec.suffix_of (map to_ascii_lowercase essence.now) }
{
    let start = essence.len().saturating_sub(4);
    &essence[start..]
}

// Whether type and subtype are those of XML.
fn is_xml(essence: &[u8]) -> bool
    ensures { result ≡ spec.is_xml (map to_ascii_lowercase essence.now) }
{
    is_same(essence, b"text/xml")
        || is_same(essence, b"application/xml")
        || is_same(suffix(essence), b"+xml")
}

/// Whether a browser runs the scripts that a document of this media type holds, as those of the server
/// that sent it: HTML and XML, of which XHTML and SVG are two (MIME Sniffing, section 4.6; RFC 7303,
/// section 10). `kind` is a value of Content-Type (RFC 9110, section 8.3) without blanks before it;
/// neither the case of its letters nor its parameters tell anything.
pub fn acts(kind: &str) -> bool
    ensures { result ≡ spec.acts kind.now }
{
    let essence = essence(kind.as_bytes());
    is_same(essence, b"text/html") || is_xml(essence)
}
