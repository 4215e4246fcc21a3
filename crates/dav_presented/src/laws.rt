//! Laws of the definitions. A function here does nothing: its contract is a theorem.
ghost use Rattle.dav_presented.specs.Own.{NoTimeIsForged};
ghost use Rattle.dav_presented.specs.Parts.{PartsJoin, PartsAreWhole};
ghost use Rattle.dav_presented.specs.Sent.{AskedMayBeSent, ShownMayBeSent};

/// A part and the one that begins after its last byte are the part of both, so a download that is
/// taken up again is right; and the part from the first byte to the last one is the whole (RFC 9110,
/// section 14.1.2).
pub fn parts_join()
    ensures joined { PartsJoin }
    ensures whole { PartsAreWhole }
{}

/// What is shown of a multistatus that may be sent may be sent: with types, times and usual names, with
/// the names that are missing, where the body of the request is as reading gives it, and with the names
/// by which times were set (RFC 4918, section 14.16; Namespaces in XML 1.0, sections 3 to 6). So a client
/// reads it again (`sendable_is_read` of `dav_xml`).
pub fn shown_may_be_sent()
    ensures { ShownMayBeSent }
{}

/// What is run of the body of a PROPFIND or a PROPPATCH may be sent, where that body may: what the server
/// keeps of it can be told again (RFC 4918, sections 9.1 and 9.2).
pub fn asked_may_be_sent()
    ensures { AskedMayBeSent }
{}

/// Whatever a client sends as the body of a PROPPATCH, what is set of it in the server's own namespace are times, each with the
/// moment of the request: so nobody makes a time that outlasts a change (RFC 4918, section 9.2).
pub fn no_time_is_forged()
    ensures { NoTimeIsForged }
{}
