use super::*;
use crate::asserting::same;

#[test]
fn names_headers_of_content(rt: HostRuntime) {
    same(
        &rt,
        &[
            CONTENT_LANGUAGE().as_str(),
            CONTENT_LENGTH().as_str(),
            CONTENT_LOCATION().as_str(),
            CONTENT_RANGE().as_str(),
            CONTENT_TYPE().as_str(),
            ETAG().as_str(),
        ],
        &[
            "content-language",
            "content-length",
            "content-location",
            "content-range",
            "content-type",
            "etag",
        ],
    );
}

#[test]
fn names_headers_of_requests(rt: HostRuntime) {
    same(
        &rt,
        &[
            DEPTH().as_str(),
            DESTINATION().as_str(),
            IF().as_str(),
            IF_MATCH().as_str(),
            IF_NONE_MATCH().as_str(),
            IF_RANGE().as_str(),
            LOCK_TOKEN().as_str(),
            OVERWRITE().as_str(),
            TIMEOUT().as_str(),
            X_LITMUS().as_str(),
            X_UPDATE_RANGE().as_str(),
        ],
        &[
            "depth",
            "destination",
            "if",
            "if-match",
            "if-none-match",
            "if-range",
            "lock-token",
            "overwrite",
            "timeout",
            "x-litmus",
            "x-update-range",
        ],
    );
}
