//! The connections by their slots, and what each report does.
ghost use Rattle.std.specs.Prelude.{◌≡◌, ◌++◌, ◌<◌, ◌≢◌, List, [], IfOk, OnOk, IsTrue, IsFalse};
ghost use Rattle.std.specs.Option.{option_copied};
ghost use Rattle.dav_turns.specs.declared.keeper.TurnError.TheVariants.{Pipe};
ghost use Rattle.dav_turns.specs.Frames.{Order, report_view, order_bytes};
ghost use Rattle.dav_turns.specs.Turns.{keeping, server, Counts, Opens, Ends, GoesOn, Heard, HearsSome, IsEmpty, IsFree, IsMisplaced, IsBroken, orders_after, may_take_long, begins_long, new_turns, room_for};

use crate::config::TurnsConfig;
use crate::connection::Connection;
use crate::frames::{
    CLOSE, GONE, GOT, HEAD, HELLO, Next, OPENED, READ, ROOM, Report, SENT, TICK, USERS, add_order,
    next_in,
};
use crate::keeper::{Keeper, TurnError};
use std::alloc::{AllocError, Global};

/// At most so many connections are open.
const MOST_SLOTS: usize = 4096;

/// The connections by their slots, and what new ones are made with.
#[derive(Drop)]
pub struct Table {
    alloc: Global,
    pub config: TurnsConfig,
    pub slots: Vec<Option<Connection>>,
    /// For how many bytes of the bodies that are being read there has to be room.
    pub waiting: usize,
}

impl Table {
    /// No connection in each slot.
    pub fn new(alloc: Global, config: TurnsConfig) -> Result<Table, AllocError>
        ensures config { IfOk result (λ t. t.config ≡ config) }
        ensures slots { IfOk result (λ t. t.slots.items ≡ (new_turns config).slots) }
        ensures counts { IfOk result (λ t. Counts t.config t.waiting t.slots.items) }
    {
        let mut slots = Vec::new(alloc);
        for _ in 0..MOST_SLOTS {
            slots.push(None)?;
        }
        Ok(Table {
            alloc,
            config,
            slots,
            waiting: 0,
        })
    }

    /// Hears reports, one after another, until no whole one follows, or one that may take long
    /// follows one that doesn't. The count of their bytes.
    pub fn hear_some<K: Keeper>(
        &mut self,
        keeper: &mut K,
        reports: &[u8],
        orders: &mut Vec<u8>,
    ) -> Result<usize, TurnError>
        requires { Counts self.old.config self.old.waiting self.old.slots.items }
        ensures hears { IfOk result (λ used. (ordered : List Order) × HearsSome
            (keeping K.judges K.answers K.greeted K.listed K.placed K.passed K.marked K.kept)
            self.old.config reports.now used (server self.old.slots.items keeper.old)
            (server self.new.slots.items keeper.new) ordered
            × (orders.new.items ≡ orders_after orders.old.items ordered)) }
        ensures pipe { result ≡ Err Pipe → IsBroken
            (keeping K.judges K.answers K.greeted K.listed K.placed K.passed K.marked K.kept)
            self.old.config reports.now (server self.old.slots.items keeper.old) }
        ensures config { self.new.config ≡ self.old.config }
        ensures counts { Counts self.new.config self.new.waiting self.new.slots.items }
    {
        let mut rest = reports;
        let mut is_short = false;
        loop {
            match next_in(rest) {
                Next::Part => return Ok(reports.len() - rest.len()),
                Next::Wrong => return Err(TurnError::Pipe),
                Next::Whole(report) => {
                    let is_long = may_take_long(&report);
                    if is_long && is_short {
                        return Ok(reports.len() - rest.len());
                    }
                    self.hear(keeper, &report, orders)?;
                    is_short = !is_long;
                    rest = &rest[HEAD + report.bytes.len()..];
                }
            }
        }
    }

    // Hears a report.
    fn hear<K: Keeper>(
        &mut self,
        keeper: &mut K,
        report: &Report<'_>,
        orders: &mut Vec<u8>,
    ) -> Result<(), TurnError>
        requires { Counts self.old.config self.old.waiting self.old.slots.items }
        ensures heard { OnOk result ((ordered : List Order) × Heard
            (keeping K.judges K.answers K.greeted K.listed K.placed K.passed K.marked K.kept)
            self.old.config (report_view report.now) (server self.old.slots.items keeper.old)
            (server self.new.slots.items keeper.new) ordered
            × (orders.new.items ≡ orders_after orders.old.items ordered)) }
        ensures pipe { result ≡ Err Pipe
            → IsMisplaced self.old.slots.items (report_view report.now) }
        ensures config { self.new.config ≡ self.old.config }
        ensures counts { Counts self.new.config self.new.waiting self.new.slots.items }
    {
        keeper.hear_clocks(report.seconds, report.date)?;
        let bytes = report.bytes;
        match report.kind {
            HELLO => {
                keeper.hear_hello(bytes);
                Ok(())
            }
            OPENED => self.open(report.slot, bytes, orders),
            GOT => self.go_on(keeper, report.slot, Some(bytes), orders),
            SENT => self.go_on(keeper, report.slot, None, orders),
            GONE => self.end(report.slot),
            TICK => Ok(keeper.keep_mark()?),
            USERS => Ok(keeper.hear_users(bytes)?),
            ROOM => {
                keeper.hear_room(bytes);
                Ok(())
            }
            _ => Err(TurnError::Pipe),
        }
    }

    // A connection came from this address.
    fn open(&mut self, slot: u32, address: &[u8], orders: &mut Vec<u8>) -> Result<(), TurnError>
        requires { Counts self.old.config self.old.waiting self.old.slots.items }
        ensures opens { OnOk result
            (Opens self.old.config slot address.now self.old.slots.items self.new.slots.items) }
        ensures orders { OnOk result (orders.new.items ≡ orders.old.items
            ++ order_bytes (record { slot = slot; next = READ; bytes = [] })) }
        ensures pipe { result ≡ Err Pipe → IsFree self.old.slots.items slot → ⊥ }
        ensures config { self.new.config ≡ self.old.config }
        ensures counts { Counts self.new.config self.new.waiting self.new.slots.items }
    {
        let at = slot as usize;
        if at >= self.slots.len() || is_taken(&self.slots[at]) {
            return Err(TurnError::Pipe);
        }
        let connection = Connection::new(self.alloc, self.config.connection, address)?;
        self.slots[at] = Some(connection);
        Ok(add_order(orders, slot, READ, &[])?)
    }

    // A connection is gone.
    fn end(&mut self, slot: u32) -> Result<(), TurnError>
        requires { Counts self.old.config self.old.waiting self.old.slots.items }
        ensures ends { OnOk result (Ends slot self.old.slots.items self.new.slots.items) }
        ensures pipe { result ≡ Err Pipe → IsEmpty self.old.slots.items slot }
        ensures config { self.new.config ≡ self.old.config }
        ensures counts { Counts self.new.config self.new.waiting self.new.slots.items }
    {
        let at = slot as usize;
        if at >= self.slots.len() {
            return Err(TurnError::Pipe);
        }
        let Some(gone) = self.slots[at].take() else {
            return Err(TurnError::Pipe);
        };
        self.waiting -= gone.held();
        Ok(())
    }

    // Bytes came on a connection, or it can go on.
    fn go_on<K: Keeper>(
        &mut self,
        keeper: &mut K,
        slot: u32,
        bytes: Option<&[u8]>,
        orders: &mut Vec<u8>,
    ) -> Result<(), TurnError>
        requires { Counts self.old.config self.old.waiting self.old.slots.items }
        ensures goes { OnOk result ((order : Order) × GoesOn
            (keeping K.judges K.answers K.greeted K.listed K.placed K.passed K.marked K.kept)
            (room_for self.old.config slot self.old.slots.items) slot
            (option_copied bytes.entry) (server self.old.slots.items keeper.old)
            (server self.new.slots.items keeper.new) order
            × (orders.new.items ≡ orders.old.items ++ order_bytes order)) }
        ensures pipe { result ≡ Err Pipe → IsEmpty self.old.slots.items slot }
        ensures config { self.new.config ≡ self.old.config }
        ensures counts { Counts self.new.config self.new.waiting self.new.slots.items }
    {
        let at = slot as usize;
        if at >= self.slots.len() {
            return Err(TurnError::Pipe);
        }
        let Some(mut connection) = self.slots[at].take() else {
            return Err(TurnError::Pipe);
        };
        self.waiting -= connection.held();
        let room = self.config.max_waiting - self.waiting;
        connection.advance(keeper, bytes, room)?;
        let next = connection.hand_out(slot, orders)?;
        if next != CLOSE {
            self.waiting += connection.held();
            self.slots[at] = Some(connection);
        }
        Ok(())
    }
}

// Whether a connection is in a place.
fn is_taken(place: &Option<Connection>) -> bool
    ensures free { IsFalse result → place.now ≡ None }
    ensures taken { IsTrue result → place.now ≢ None }
{
    place.is_some()
}

// Whether a report may take long.
fn may_take_long(report: &Report<'_>) -> bool
    ensures { result ≡ may_take_long (report_view report.now) }
{
    report.kind == GOT && begins_long(report.bytes)
}

// Whether bytes begin a request that may take long, or an element tree.
fn begins_long(bytes: &[u8]) -> bool
    ensures { result ≡ begins_long bytes.now }
{
    bytes.starts_with(b"PROPFIND ")
        || bytes.starts_with(b"COPY ")
        || bytes.starts_with(b"MOVE ")
        || bytes.starts_with(b"DELETE ")
        || bytes.starts_with(b"<")
}
