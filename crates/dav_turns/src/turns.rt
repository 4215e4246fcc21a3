//! Turns: reports in, orders out.
ghost use Rattle.std.specs.Prelude.{◌≡◌, ◌≤◌, ◌⊎◌, ℕ, List, IfOk};
ghost use Rattle.std.specs.List.{flat_map};
ghost use Rattle.std.specs.Io.KnownBytes.{Appends};
ghost use Rattle.dav_turns.specs.declared.keeper.TurnError.TheVariants.{Pipe};
ghost use Rattle.dav_turns.specs.Frames.{Order, order_bytes};
ghost use Rattle.dav_turns.specs.Turns.{keeping, server, Turn, IsBroken, held_by, orders_after, new_turns};

use crate::config::TurnsConfig;
use crate::keeper::{Keeper, TurnError};
use crate::table::Table;
use std::alloc::{AllocError, Global};
use std::io::Write;
use std::marker::Model;

/// The connections of a server, by their slots.
#[derive(Drop)]
pub struct Turns {
    table: Table,
}

impl Model for Turns {
    ghost use Rattle.dav_turns.specs.Connections.{TurnsView};

    ghost Value = { TurnsView };

    ghost view = { λ t. record { config = t.table.config; slots = t.table.slots.items } };

    ghost use Rattle.dav_turns.specs.Turns.{Counts};

    ghost invariant = { λ t. Counts t.table.config t.table.waiting t.table.slots.items };
}

impl Turns {
    /// No connections, in 4,096 slots, with these limits for each that comes.
    pub fn new(alloc: Global, config: TurnsConfig) -> Result<Turns, AllocError>
        ensures { IfOk result (λ t. t ≡ new_turns config) }
    {
        Ok(Turns {
            table: Table::new(alloc, config)?,
        })
    }

    /// What is true of all turns: the bodies that are being read have, all together, at most so
    /// many bytes as they may. It does nothing.
    pub fn bodies_fit(&self)
        ensures { held_by self.now.slots ≤ self.now.config.max_waiting }
    {
        let _ = &self.table;
    }

    /// Hears each whole report, and then has all that was answered kept. Each report that a
    /// connection came, that bytes came, or that some were sent adds one order. The count of bytes
    /// that were used. After an error no order may be handed out; `Pipe` is a report that is none
    /// or doesn't fit.
    pub fn turn<K: Keeper>(
        &mut self,
        keeper: &mut K,
        reports: &[u8],
        orders: &mut Vec<u8>,
    ) -> Result<usize, TurnError>
        ensures turn { IfOk result (λ used. (ordered : List Order) × Turn
            (keeping K.judges K.answers K.greeted K.listed K.placed K.passed K.marked K.kept)
            reports.now used self.old keeper.old self.new keeper.new ordered
            × (orders.new.items ≡ orders_after orders.old.items ordered)) }
        ensures pipe { result ≡ Err Pipe → IsBroken
            (keeping K.judges K.answers K.greeted K.listed K.placed K.passed K.marked K.kept)
            self.old.config reports.now (server self.old.slots keeper.old) }
        ensures config { self.new.config ≡ self.old.config }
    {
        let used = self.table.hear_some(keeper, reports, orders)?;
        keeper.commit()?;
        Ok(used)
    }

    /// A turn, of which the orders are written and flushed: nothing before all that was answered
    /// is kept. `orders` holds them for that time; what it held before is dropped. The count of
    /// bytes that were used.
    pub fn serve<K: Keeper, W: Write>(
        &mut self,
        keeper: &mut K,
        reports: &[u8],
        orders: &mut Vec<u8>,
        writer: &mut W,
    ) -> Result<usize, TurnError>
        ensures turn { IfOk result (λ used. (ordered : List Order) × Turn
            (keeping K.judges K.answers K.greeted K.listed K.placed K.passed K.marked K.kept)
            reports.now used self.old keeper.old self.new keeper.new ordered
            × Appends (W.contents writer.old) (W.contents writer.new)
            (flat_map order_bytes ordered)) }
        ensures held { (writer.new ≡ writer.old) ⊎ ((used : ℕ) × (ordered : List Order) × Turn
            (keeping K.judges K.answers K.greeted K.listed K.placed K.passed K.marked K.kept)
            reports.now used self.old keeper.old self.new keeper.new ordered) }
        ensures pipe { result ≡ Err Pipe → IsBroken
            (keeping K.judges K.answers K.greeted K.listed K.placed K.passed K.marked K.kept)
            self.old.config reports.now (server self.old.slots keeper.old)
            ⊎ ((used : ℕ) × (ordered : List Order) × Turn
            (keeping K.judges K.answers K.greeted K.listed K.placed K.passed K.marked K.kept)
            reports.now used self.old keeper.old self.new keeper.new ordered) }
        ensures config { self.new.config ≡ self.old.config }
    {
        orders.clear();
        let used = self.turn(keeper, reports, orders)?;
        if writer.write_all(orders).is_err() || writer.flush().is_err() {
            return Err(TurnError::Pipe);
        }
        Ok(used)
    }
}
