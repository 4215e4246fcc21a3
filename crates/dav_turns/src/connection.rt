//! A connection in its slot.
ghost use Rattle.std.specs.Prelude.{◌≡◌, ◌++◌, ◌≤◌, List, ℕ, IfOk, OnOk, length, take};
ghost use Rattle.std.specs.Option.{option_copied};
ghost use Rattle.dav_wire.specs.History.{after_sent, held};
ghost use Rattle.dav_wire.specs.Peer.{config_of, history};
ghost use Rattle.dav_wire.specs.declared.state.State.TheVariants.{Open};
ghost use Rattle.dav_turns.specs.Frames.{order_bytes};
ghost use Rattle.dav_turns.specs.Turns.{keeping, Advances, HandsOut, next_after, new_connection, reading};

use crate::frames::{CLOSE, READ, READ_BODY, READ_HEAD, TELL, add_order};
use crate::keeper::Keeper;
use dav_wire::{Config, Peer, Stop};
use std::alloc::{AllocError, Global};
use std::marker::Model;

/// A connection, and the address that it came from.
#[derive(Drop)]
pub struct Connection {
    peer: Peer,
    address: Vec<u8>,
}

impl Model for Connection {
    ghost use Rattle.dav_turns.specs.Connections.{ConnectionView};

    ghost Value = { ConnectionView };

    ghost use Rattle.dav_wire.specs.Peer.{config_of, history};

    ghost view = { λ c. record {
      config = config_of c.peer;
      address = c.address.items;
      history = history c.peer;
    } };
}

impl Connection {
    /// A connection that came from this address, on which nothing came yet.
    pub fn new(alloc: Global, config: Config, address: &[u8]) -> Result<Connection, AllocError>
        ensures { IfOk result (λ c. c ≡ new_connection config address.now) }
    {
        Ok(Connection {
            peer: Peer::new(alloc, config),
            address: Vec::from_slice(alloc, address)?,
        })
    }

    /// Takes what came, where something did, and has the requests answered that came whole; there
    /// is room for so many bytes of a body.
    pub fn advance<K: Keeper>(
        &mut self,
        keeper: &mut K,
        bytes: Option<&[u8]>,
        room: usize,
    ) -> Result<(), Stop>
        ensures { OnOk result (Advances
            (keeping K.judges K.answers K.greeted K.listed K.placed K.passed K.marked K.kept)
            room (option_copied bytes.entry) self.old keeper.old self.new keeper.new) }
    {
        keeper.hear_address(&self.address)?;
        if let Some(bytes) = bytes {
            self.peer.take(bytes)?;
        }
        self.peer.advance(keeper, room)
    }

    /// For how many bytes of the body that is being read there has to be room.
    pub fn held(&self) -> usize
        ensures { result ≡ held self.now.history }
    {
        self.peer.held()
    }

    /// Orders the front to send what waits, and answers what it is to do then.
    pub fn hand_out(&mut self, slot: u32, orders: &mut Vec<u8>) -> Result<u8, AllocError>
        ensures { IfOk result (λ next. (text : List ℕ) × HandsOut self.old self.new next text
            × (orders.new.items ≡ orders.old.items
            ++ order_bytes (record { slot = slot; next = next; bytes = text }))) }
    {
        let piece = self.peer.output();
        let count = piece.len();
        let next = next_after(&self.peer, count);
        add_order(orders, slot, next, piece)?;
        self.peer.sent(count);
        self.peer.is_served();
        Ok(next)
    }
}

// What an open connection is read for.
fn reading(peer: &Peer) -> u8
    requires { (history peer.now).state ≡ Open }
    ensures { result ≡ reading (history peer.now) }
{
    if peer.is_in_body() {
        READ_BODY
    } else if peer.has_unread() {
        READ_HEAD
    } else {
        READ
    }
}

// What the front is to do after so many of the bytes that wait are sent.
fn next_after(peer: &Peer, count: usize) -> u8
    requires { count ≤ length (history peer.now).pending }
    ensures { result ≡ next_after (config_of peer.now) (history peer.now)
        (after_sent (history peer.now) count) }
{
    if peer.is_full() || count < peer.waiting() {
        TELL
    } else if peer.is_open() {
        reading(peer)
    } else {
        CLOSE
    }
}
