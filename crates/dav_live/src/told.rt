//! What who runs the server is told: a line for each request, and notices.
use crate::line::{Answered, line_of};
use dav_http::Head;
use std::alloc::{AllocError, Global};
use std::marker::Model;
use std::str;

/// The status of a response, and the bytes of its body.
#[derive(Clone, Copy, Debug, PartialEq, Eq)]
pub struct Replied {
    pub status: u16,
    pub bytes: usize,
}

/// What is to be told, and where the requests come from that are answered next. Clauses see nothing of it.
#[derive(Drop)]
pub struct Told {
    alloc: Global,
    logs: bool,
    address: String,
    lines: String,
    notices: String,
    // Whether a login was right that wasn't known, and whether a second passed since.
    is_login_new: bool,
    are_logins_due: bool,
}

impl Model for Told {
    ghost use Rattle.std.specs.Bool.{⊤};

    ghost Value = { ⊤ };

    ghost view = { λ _. tt };
}

impl Told {
    /// Nothing yet; of requests only where they are to be logged.
    pub fn new(alloc: Global, logs: bool) -> Told {
        Told {
            alloc,
            logs,
            address: String::new(alloc),
            lines: String::new(alloc),
            notices: String::new(alloc),
            is_login_new: false,
            are_logins_due: false,
        }
    }

    /// Takes the address that the requests come from which are answered next.
    pub fn hear_address(&mut self, address: &[u8]) -> Result<(), AllocError> {
        self.address.clear();
        self.address
            .push_str(str::from_utf8(address).unwrap_or("?"))
    }

    /// Notes a request of somebody who said to be this user, and how it was answered.
    pub fn note(
        &mut self,
        moment: u64,
        user: &str,
        head: &Head<'_>,
        reply: Replied,
    ) -> Result<(), AllocError> {
        if !self.logs {
            return Ok(());
        }
        let told = Answered {
            moment,
            address: self.address.as_bytes(),
            user: user.as_bytes(),
            method: head.method(),
            target: head.target().as_bytes(),
            status: reply.status,
            bytes: reply.bytes,
        };
        let line = line_of(self.alloc, &told)?;
        self.lines.push_str(line.as_str())?;
        self.lines.push_str("\n")
    }

    /// Notes what else there is to tell.
    pub fn notice(&mut self, notice: &str) -> Result<(), AllocError> {
        self.notices.push_str(notice)?;
        self.notices.push_str("\n")
    }

    /// The lines of the requests that were answered since this was last cleared.
    pub fn lines(&self) -> &str {
        self.lines.as_str()
    }

    /// The notices since this was last cleared.
    pub fn notices(&self) -> &str {
        self.notices.as_str()
    }

    /// Notes that a login was right that wasn't known.
    pub fn note_login(&mut self) {
        self.is_login_new = true;
    }

    /// A second passed.
    pub fn pass_second(&mut self) {
        self.are_logins_due = self.are_logins_due || self.is_login_new;
        self.is_login_new = false;
    }

    /// Whether there are logins to be kept: since this was last cleared a second passed after one that wasn't known.
    pub fn are_logins_due(&self) -> bool {
        self.are_logins_due
    }

    /// Forgets these lines, and that logins are to be kept.
    pub fn clear(&mut self) {
        self.lines.clear();
        self.notices.clear();
        self.are_logins_due = false;
    }
}
