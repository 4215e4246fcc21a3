//! Laws of headers. Each function does nothing: its contract is a theorem on the grammars.
ghost use Rattle.dav_headers.specs.Laws.{StrongIsSymmetric, StrongIsTransitive, StrongMatchesItself, OverwriteReadsAgain, OneOverwrite, DepthReadsAgain, OneDepth, UpdateRangeReadsAgain, OneUpdateRange, OneTimeout, TimeoutReadsAgain, OneTagList, OneContentRange, OneContentLength, OneDestination, OneLanguageList, OneEntityTag, OneETag, ReadTagIsText, ETagReadsAgain, ContentRangeReadsAgain, ContentLengthReadsAgain};

/// The strong comparison of entity tags (RFC 9110, section 8.8.3.2) is symmetric and transitive, and a tag matches itself
/// exactly where it is strong.
#[tactic(auto, using(crate::proofs::StrongLemmas::strong_is_symmetric, crate::proofs::StrongLemmas::strong_is_transitive, crate::proofs::StrongLemmas::strong_matches_itself))]
pub fn strong_comparison()
    ensures symmetric { StrongIsSymmetric }
    ensures transitive { StrongIsTransitive }
    ensures reflexive { StrongMatchesItself }
{}

/// The value written for an `Overwrite` is read back as the same, and values have at most one reading.
pub fn overwrite_is_read_again()
    ensures again { OverwriteReadsAgain }
    ensures one { OneOverwrite }
{}

/// The value written for a `Depth` is read back as the same, and values have at most one reading.
pub fn depth_is_read_again()
    ensures again { DepthReadsAgain }
    ensures one { OneDepth }
{}

/// The value written for an `XUpdateRange` is read back as the same, and values have at most one reading.
pub fn update_range_is_read_again()
    ensures again { UpdateRangeReadsAgain }
    ensures one { OneUpdateRange }
{}

/// The value written for a `Timeout` with a TimeType in it is read back as the same, and values have at most one
/// reading.
pub fn timeout_is_read_again()
    ensures again { TimeoutReadsAgain }
    ensures one { OneTimeout }
{}

/// The values of If-Match and If-None-Match have at most one reading.
#[tactic(auto, using(crate::proofs::OneReading::one_tag_list))]
pub fn tag_lists_have_one_reading()
    ensures { OneTagList }
{}

/// The values of Content-Range and of Content-Length have at most one reading.
pub fn lengths_have_one_reading()
    ensures range { OneContentRange }
    ensures length { OneContentLength }
{}

/// The values written for a `ContentRange` and a `ContentLength` are read back as the same.
pub fn lengths_are_read_again()
    ensures range { ContentRangeReadsAgain }
    ensures length { ContentLengthReadsAgain }
{}

/// The values of Destination and of Content-Language have at most one reading.
pub fn destinations_and_languages_have_one_reading()
    ensures destination { OneDestination }
    ensures languages { OneLanguageList }
{}

/// A text is at most one entity tag, and so is the value of ETag and If-Range.
pub fn entity_tags_have_one_reading()
    ensures text { OneEntityTag }
    ensures value { OneETag }
{}

/// A tag that was read from a header can be written, and the value written for a tag that is text is read back as the same.
pub fn entity_tag_is_read_again()
    ensures text { ReadTagIsText }
    ensures again { ETagReadsAgain }
{}
