//! The program `dav-run`: plays a script of WebDAV requests, read from standard input as JSON, on a new server, and
//! writes each reply to standard output as one line of JSON. It ignores its arguments. Its exit status is that of
//! [`play::play`]; one that isn't 0 is also reported on standard error.
#![tactic(auto)]

mod play;
mod print;
mod request;
mod script;
mod tree;

use play::{IO_FAILED, NOT_SCRIPT, OUT_OF_MEMORY, play};
use std::io;
use std::process::ExitCode;

fn main(rt: HostRuntime) -> ExitCode {
    let status = play(rt.alloc(), &mut rt.reader(), &mut io::writer(&rt));
    // A failed write to standard error can't be reported anywhere.
    let _ = match status {
        NOT_SCRIPT => eprintln!(rt; "dav-run: not a script"),
        IO_FAILED => eprintln!(rt; "dav-run: read or write failed"),
        OUT_OF_MEMORY => eprintln!(rt; "dav-run: out of memory"),
        _ => Ok(()),
    };
    ExitCode::from(status)
}
