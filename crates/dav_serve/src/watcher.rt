//! Tells of requests on standard error, and keeps what is known of logins.
use crate::known::keep;
use dav_live::Watch;
use std::rt::{Clock, Runtime};
use std::time::Instant;

/// Writes a line for each request: date, address, user, method, target, status, bytes, and the microseconds until its turn was
/// kept. What is known of logins it keeps in the folder of the state, where the server has that.
#[derive(Drop)]
pub struct Watcher<'r> {
    rt: &'r HostRuntime,
    begun: Option<Instant>,
    folder: Option<&'r str>,
}

impl<'r> Watcher<'r> {
    /// A watcher that saw nothing, of a server that has the state of this folder, or of one that has none.
    pub fn new(rt: &'r HostRuntime, folder: Option<&'r str>) -> Watcher<'r> {
        Watcher {
            rt,
            begun: None,
            folder,
        }
    }

    // The microseconds since reports came.
    fn elapsed(&self) -> u128 {
        let Some(begun) = self.begun else {
            return 0;
        };
        match Instant::now(self.rt) {
            Ok(now) => now.saturating_duration_since(begun).as_micros(),
            Err(_) => 0,
        }
    }
}

impl<'r> Watch for Watcher<'r> {
    fn begin(&mut self) {
        self.begun = Instant::now(self.rt).ok();
    }

    fn tell(&mut self, lines: &str) {
        let micros = self.elapsed();
        for line in lines.lines() {
            // A failed write to standard error can't be reported anywhere.
            let _ = eprintln!(self.rt; "{line} {micros}");
        }
    }

    fn know(&mut self, logins: &[u8]) {
        if let Some(folder) = self.folder {
            // Where they can't be kept, who was let in before is checked after a start as anybody is.
            let _ = keep(self.rt, folder, logins);
        }
    }

    fn say(&mut self, notices: &str) {
        for line in notices.lines() {
            // A failed write to standard error can't be reported anywhere.
            let _ = eprintln!(self.rt; "serve: {line}");
        }
    }
}
