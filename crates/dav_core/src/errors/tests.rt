use super::*;
use crate::asserting::same;
use crate::ls::{LockRefusal, RefreshRefusal};
use crate::method::InvalidMethod;
use std::test::Fail;

// Each error of a store, its status, and the status that a method answers with for it.
const STORE_ROWS: &str = "
NotImplemented 501 501
GeneralFailure 500 500
Exists 405 405
NotFound 404 404
Forbidden 403 403
InsufficientStorage 507 507
LoopDetected 508 508
PathTooLong 414 414
TooLarge 413 413
IsRemote 502 502
";

// Adds a row of an error of a store.
fn push_store_row(rows: &mut String, error: FsError) -> Result<(), NoMemory> {
    let status = StatusCode::from(error).as_u16();
    let answer = DavError::from(error).statuscode().as_u16();
    let row = format!(in *rows.allocator(); "{error} {status} {answer}\n")?;
    rows.push_str(&row)
}

#[test]
fn shows_errors_of_stores(rt: HostRuntime) -> Result<(), Fail> {
    let mut rows = String::from_str(rt.alloc(), "\n")?;
    for error in [
        FsError::NotImplemented,
        FsError::GeneralFailure,
        FsError::Exists,
        FsError::NotFound,
        FsError::Forbidden,
        FsError::InsufficientStorage,
        FsError::LoopDetected,
        FsError::PathTooLong,
        FsError::TooLarge,
        FsError::IsRemote,
    ] {
        push_store_row(&mut rows, error)?;
    }
    same(&rt, &rows.as_str(), &STORE_ROWS);
    Ok(())
}

// Each error of a method, its status, and whether the connection is to be closed.
const METHOD_ROWS: &str = "
XmlParseError 400 false
InvalidPath 400 false
ForbiddenPath 403 false
IllegalPath 502 false
UnknownDavMethod 501 false
ChanError 500 false
Status 423 false
StatusClose 409 true
FsError 405 false
Memory 507 false
";

// Adds a row of an error of a method.
fn push_method_row(rows: &mut String, error: DavError) -> Result<(), NoMemory> {
    let status = error.statuscode().as_u16();
    let row = format!(in *rows.allocator(); "{error} {status} {}\n", error.must_close())?;
    rows.push_str(&row)
}

#[test]
fn shows_errors_of_methods(rt: HostRuntime) -> Result<(), Fail> {
    let mut rows = String::from_str(rt.alloc(), "\n")?;
    for error in [
        DavError::XmlParseError,
        DavError::InvalidPath,
        DavError::ForbiddenPath,
        DavError::IllegalPath,
        DavError::UnknownDavMethod,
        DavError::ChanError,
        DavError::Status(StatusCode::LOCKED),
        DavError::StatusClose(StatusCode::CONFLICT),
        DavError::FsError(FsError::Exists),
        DavError::Memory,
    ] {
        push_method_row(&mut rows, error)?;
    }
    same(&rt, &rows.as_str(), &METHOD_ROWS);
    Ok(())
}

// Each error of a path, of a lock and of a method's name.
const OTHER_ROWS: &str = "InvalidPath PrefixMismatch ForbiddenPath Memory
Conflict Memory NotThere Memory InvalidMethod";

#[test]
fn shows_other_errors(rt: HostRuntime) -> Result<(), Fail> {
    let shown = format!(in rt.alloc();
        "{} {} {} {}\n{} {} {} {} {}",
        ParseError::InvalidPath,
        ParseError::PrefixMismatch,
        ParseError::ForbiddenPath,
        ParseError::Memory,
        LockRefusal::Conflict,
        LockRefusal::Memory,
        RefreshRefusal::NotThere,
        RefreshRefusal::Memory,
        InvalidMethod
    )?;
    same(&rt, &shown.as_str(), &OTHER_ROWS);
    Ok(())
}

#[test]
fn becomes_errors_of_methods(rt: HostRuntime) {
    let found = [
        DavError::from(FsError::NotFound),
        DavError::from(StatusCode::LOCKED),
        DavError::from(ParseError::InvalidPath),
        DavError::from(ParseError::PrefixMismatch),
        DavError::from(ParseError::ForbiddenPath),
        DavError::from(ParseError::Memory),
        DavError::from(NoMemory),
        DavError::from(AllocFailed { value: 1u8 }),
    ];
    let wanted = [
        DavError::FsError(FsError::NotFound),
        DavError::Status(StatusCode::LOCKED),
        DavError::InvalidPath,
        DavError::IllegalPath,
        DavError::ForbiddenPath,
        DavError::Memory,
        DavError::Memory,
        DavError::Memory,
    ];
    same(&rt, &found, &wanted);
}
