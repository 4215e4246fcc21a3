//! A live server, behind one stream of reports and one of orders.
ghost use Rattle.std.specs.Prelude.{◌≡◌, ◌++◌, ℕ, List, [], Err, IfOk, OnOk};
ghost use Rattle.std.specs.Io.KnownBytes.{Consumes, IsAtEnd};
ghost use Rattle.dav_journal.specs.Pair.{IsCleanPair, IsReadingPair};
ghost use Rattle.dav_turns.specs.Frames.{BeginsWith, ReportView};
ghost use Rattle.dav_live.specs.LiveRun.{HasNoReport, service_of};

use crate::fault::{Fault, OpenError};
use crate::lists::Lists;
use crate::machine::Machine;
use crate::service::{Service, preface};
use crate::settings::Settings;
use dav_access::Logins;
use dav_core::errors::NoMemory;
use dav_http::Handler;
use dav_journal::Pair;
use dav_kept::{Keeps, adopt};
use dav_store::memfs::Amount;
use dav_turns::{Pipe, ReadError, Turns, TurnsConfig};
use dav_wire::Config;
use http1::Limits;
use sqlite_disk::Disk;
use std::alloc::Global;
use std::io::{Read, Write};

/// The most bytes of a body that is an element tree.
const MOST_XML: usize = 1_048_576;

/// Hears what a server tells of the requests that it answered.
pub trait Watch {
    /// Reports came.
    fn begin(&mut self);

    /// These requests were answered, one in a line, and what they changed is kept.
    fn tell(&mut self, lines: &str);

    /// Who runs the server is to know this, a notice in a line.
    fn say(&mut self, notices: &str);

    /// A login was right that wasn't known, a second ago at least: of these bytes it is known at the next start, by `Logins::recalled`
    /// and `Live::know`.
    fn know(&mut self, logins: &[u8]);
}

/// A live server: its connections, and what answers their requests.
#[derive(Drop)]
pub struct Live<D: Disk + Drop> {
    alloc: Global,
    turns: Turns,
    service: Service<Machine, Pair<D>>,
}

impl<D: Disk + Drop> Live<D> {
    ghost use Rattle.std.specs.Prelude.{◌≡◌, ◌≢◌, ◌⊎◌, ◌<◌, ℕ, List, [], Err, IfOk, OnOk, Option, length, string_bytes};
    ghost use Rattle.std.specs.List.{flat_map};
    ghost use Rattle.std.specs.Io.KnownBytes.{Appends, Consumes, IsAtEnd};
    ghost use Rattle.dav_journal.specs.Journal.{blocks_end, file_of};
    ghost use Rattle.dav_journal.specs.Pair.{HasReadPair, IsCleanPair, IsKeptPair, counting};
    ghost use Rattle.sqlite_disk.specs.Disk.{Holds};
    ghost use Rattle.dav_http.specs.Saved.{IsSaveable, Loads, saved_bytes};
    ghost use Rattle.dav_http.specs.Steps.{new_server};
    ghost use Rattle.dav_kept.specs.Kept.{Snapshot, answer_step, held_by, is_new, journal_of};
    ghost use Rattle.dav_kept.specs.Life.{IsRunSince};
    ghost use Rattle.dav_server.specs.Server.{Server as ServerValue};
    ghost use Rattle.dav_store.specs.Used.{amount_at};
    ghost use Rattle.dav_turns.specs.Frames.{BeginsWith, Order, ReportView, order_bytes};
    ghost use Rattle.dav_turns.specs.Turns.{Turn};
    ghost use Rattle.dav_live.specs.Answers.{IsAnswer};
    ghost use Rattle.dav_live.specs.Runs.{IsOneRun, IsOpened, RunGoesOn};
    ghost use Rattle.dav_live.specs.Numbered.{AreNumbered};
    ghost use Rattle.dav_live.specs.LiveRun.{GoesOnToServe, HasNoReport, HasServed, ServesOn, doing, kept_in, server_of, service_of, turns_of};
    ghost use Rattle.dav_live.specs.Serving.{StaysAll, logins_of};

    /// A server over the two files of its journal: what it answers is as after the requests that the journal has. The files are as
    /// they were, unless they were empty, or the first was the journal of a server from before it made snapshots, which becomes the
    /// pair; `begin` comes next.
    pub fn open(
        alloc: Global,
        one: D,
        other: D,
        lists: Lists,
        settings: Settings,
    ) -> Result<Live<D>, OpenError>
        ensures run { IfOk result (λ l. (start : Option Snapshot) × (blocks : List (List ℕ))
            × (IsCleanPair D.Disk (journal_of (kept_in l)) → IsOpened IsAnswer Loads
            (λ j bs. HasReadPair D.Disk j bs) (new_server (string_bytes settings.prefix)) start
            blocks (kept_in l))) }
    {
        let journal = opened(alloc, one, other, preface(settings.prefix.as_str()))?;
        let handler = Handler::new(alloc, settings.prefix.as_str())?;
        let machine = Machine::new(alloc, handler);
        let service = Service::open(alloc, machine, journal, lists, settings)?;
        live_of(alloc, service)
    }

    /// Where the state's last whole block ends, and how many bytes follow that `begin` drops.
    pub fn rest(&mut self) -> Result<(usize, usize), OpenError>
        ensures opened { (first : ServerValue) (start : Option Snapshot)
            (blocks : List (List ℕ)) → IsOpened IsAnswer Loads
            (λ j bs. HasReadPair D.Disk j bs) first start blocks (kept_in self.old)
            → IsOpened IsAnswer Loads (λ j bs. HasReadPair D.Disk j bs) first start blocks
            (kept_in self.new) }
        ensures place { IfOk result
            (λ p. p.0 ≡ blocks_end (counting (journal_of (kept_in self.new)))) }
        ensures clean { IsCleanPair D.Disk (journal_of (kept_in self.new))
            → IsCleanPair D.Disk (journal_of (kept_in self.old)) }
    {
        self.service.rest()
    }

    /// Whether nothing was ever kept: the state has no block. `begin` gives it its first one.
    pub fn is_new(&self) -> bool
        ensures { result ≡ is_new (kept_in self.now) }
    {
        self.service.is_new()
    }

    /// How many files and folders there are, the one at the top too, and how many bytes these and their dead properties have. Takes
    /// time for each of them.
    pub fn amount(&self) -> Result<Amount, NoMemory>
        ensures { IfOk result (λ amount. amount
            ≡ amount_at [] (held_by (kept_in self.now)).state.state.store.world.nodes) }
    {
        self.service.handler().amount()
    }

    /// Reads bytes of the state's file.
    pub fn read(&mut self, at: usize, piece: &mut [u8]) -> Result<(), OpenError>
        ensures opened { (first : ServerValue) (start : Option Snapshot)
            (blocks : List (List ℕ)) → IsOpened IsAnswer Loads
            (λ j bs. HasReadPair D.Disk j bs) first start blocks (kept_in self.old)
            → IsOpened IsAnswer Loads (λ j bs. HasReadPair D.Disk j bs) first start blocks
            (kept_in self.new) }
        ensures bytes { OnOk result (IsCleanPair D.Disk (journal_of (kept_in self.new))
            → 0 < length piece.old
            → Holds (file_of D.Disk (counting (journal_of (kept_in self.old)))) at piece.new) }
        ensures clean { IsCleanPair D.Disk (journal_of (kept_in self.new))
            → IsCleanPair D.Disk (journal_of (kept_in self.old)) }
    {
        self.service.read(at, piece)
    }

    /// Makes the state ready for requests.
    pub fn begin(&mut self) -> Result<(), OpenError>
        ensures run { (first : ServerValue) (start : Option Snapshot) (blocks : List (List ℕ))
            → IsOpened IsAnswer Loads (λ j bs. HasReadPair D.Disk j bs) first start blocks
            (kept_in self.old) → (since : IsRunSince (answer_step IsAnswer) saved_bytes
            IsSaveable first start blocks (held_by (kept_in self.old)))
            → AreNumbered 0 since.all.records
            → OnOk result (IsCleanPair D.Disk (journal_of (kept_in self.new))
            → IsOneRun IsAnswer saved_bytes IsSaveable (λ j bs. IsKeptPair D.Disk j bs) first
            since.all.records (kept_in self.new)) }
        ensures clean { IsCleanPair D.Disk (journal_of (kept_in self.new))
            → IsCleanPair D.Disk (journal_of (kept_in self.old)) }
    {
        self.service.begin()
    }

    /// Goes on with what is known of logins.
    pub fn know(&mut self, logins: Logins)
        ensures logins { logins_of (service_of self.new) ≡ logins }
        ensures same { StaysAll (service_of self.old) (service_of self.new) }
        ensures turns { turns_of self.new ≡ turns_of self.old }
    {
        self.service.know(logins);
    }

    /// Serves until the input ends, or something fails: why it ended. Where the input ended, each whole report of it was heard once
    /// and in order, in one turn after another; the orders of these turns were written, and no others; and the run of the server's
    /// records goes on.
    pub fn run<R: Read, W: Write, L: Watch>(
        &mut self,
        reader: &mut R,
        writer: &mut W,
        watch: &mut L,
    ) -> Fault
        ensures run { result ≡ Fault.Ended → RunGoesOn IsAnswer saved_bytes IsSaveable
            (λ j. IsCleanPair D.Disk j) (λ j bs. IsKeptPair D.Disk j bs) (kept_in self.old)
            (kept_in self.new) }
        ensures served { result ≡ Fault.Ended → HasServed (doing D.Disk)
            (turns_of self.old).config (R.remaining reader.old) (R.remaining reader.new)
            (W.contents writer.old) (W.contents writer.new) (server_of self.old)
            (server_of self.new) }
    {
        let Ok(mut pipe) = Pipe::new(self.alloc) else {
            return Fault::Memory;
        };
        self.run_on(&mut pipe, reader, writer, watch)
    }

    /// The same, where bytes of the input were read before that weren't heard: what was served so far, and this, is one stream of turns.
    pub fn run_on<R: Read, W: Write, L: Watch>(
        &mut self,
        pipe: &mut Pipe,
        reader: &mut R,
        writer: &mut W,
        watch: &mut L,
    ) -> Fault
        ensures run { result ≡ Fault.Ended → RunGoesOn IsAnswer saved_bytes IsSaveable
            (λ j. IsCleanPair D.Disk j) (λ j bs. IsKeptPair D.Disk j bs) (kept_in self.old)
            (kept_in self.new) }
        ensures served { result ≡ Fault.Ended → GoesOnToServe (doing D.Disk)
            (turns_of self.old).config (R.remaining reader.old) (R.remaining reader.new)
            (W.contents writer.old) (W.contents writer.new) (server_of self.old)
            (server_of self.new) pipe.old }
    {
        let mut orders = Vec::new(self.alloc);
        for _ in 0..u64::MAX {
            match self.serve_once(pipe, &mut orders, reader, writer, watch) {
                Ok(()) => {}
                Err(fault) => return fault,
            }
        }
        Fault::Pipe
    }

    // A server that goes on with these connections.
    pub(crate) fn over(alloc: Global, turns: Turns, service: Service<Machine, Pair<D>>) -> Live<D>
        ensures turns { turns_of result ≡ turns }
        ensures service { service_of result ≡ service }
    {
        Live {
            alloc,
            turns,
            service,
        }
    }

    /// Takes the reports that came, and writes the orders for them: nothing before all that was answered is kept. The run of the
    /// server's records goes on. `orders` holds the orders for that time. The count of bytes that were used.
    pub fn turn<W: Write>(
        &mut self,
        reports: &[u8],
        orders: &mut Vec<u8>,
        writer: &mut W,
    ) -> Result<usize, Fault>
        ensures turn { IfOk result (λ used. (ordered : List Order) × Turn (doing D.Disk) reports.now
            used (turns_of self.old) (service_of self.old) (turns_of self.new)
            (service_of self.new) ordered
            × Appends (W.contents writer.old) (W.contents writer.new)
            (flat_map order_bytes ordered)) }
        ensures run { OnOk result (RunGoesOn IsAnswer saved_bytes IsSaveable
            (λ j. IsCleanPair D.Disk j) (λ j bs. IsKeptPair D.Disk j bs) (kept_in self.old)
            (kept_in self.new)) }
        ensures held { (writer.new ≡ writer.old) ⊎ RunGoesOn IsAnswer
            saved_bytes IsSaveable (λ j. IsCleanPair D.Disk j) (λ j bs. IsKeptPair D.Disk j bs)
            (kept_in self.old) (kept_in self.new) }
        ensures fault { result ≢ Err Fault.Ended }
        ensures config { (turns_of self.new).config ≡ (turns_of self.old).config }
    {
        match self.turns.serve(&mut self.service, reports, orders, writer) {
            Ok(used) => Ok(used),
            Err(error) => Err(error.into()),
        }
    }

    // Takes the reports that came, and hands out the orders; reads once before that, where no whole report is left.
    fn serve_once<R: Read, W: Write, L: Watch>(
        &mut self,
        pipe: &mut Pipe,
        orders: &mut Vec<u8>,
        reader: &mut R,
        writer: &mut W,
        watch: &mut L,
    ) -> Result<(), Fault>
        ensures run { OnOk result (RunGoesOn IsAnswer saved_bytes IsSaveable
            (λ j. IsCleanPair D.Disk j) (λ j bs. IsKeptPair D.Disk j bs) (kept_in self.old)
            (kept_in self.new)) }
        ensures serves { OnOk result (ServesOn (doing D.Disk)
            (turns_of self.old).config (R.remaining reader.old) (R.remaining reader.new)
            (W.contents writer.old) (W.contents writer.new) (server_of self.old)
            (server_of self.new) pipe.old pipe.new) }
        ensures config { OnOk result ((turns_of self.new).config ≡ (turns_of self.old).config) }
        ensures still { (t : ReportView) → BeginsWith pipe.old t → reader.new ≡ reader.old }
        ensures ended { result ≡ Err Fault.Ended → (self.new ≡ self.old) × (writer.new ≡ writer.old)
            × IsAtEnd (R.remaining reader.new)
            × Consumes (R.remaining reader.old) (R.remaining reader.new) []
            × HasNoReport pipe.old }
    {
        read_more(pipe, reader)?;
        watch.begin();
        let used = self.turn(pipe.unheard(), orders, writer)?;
        pipe.drop_heard(used);
        self.service.tell(watch);
        Ok(())
    }
}

// A journal over two disks, which is open. The first may have that of a server from before it made snapshots.
fn opened<D: Disk + Drop>(
    alloc: Global,
    one: D,
    other: D,
    preface: &[u8],
) -> Result<Pair<D>, OpenError>
    ensures { IfOk result (λ j. IsCleanPair D.Disk j → IsReadingPair D.Disk j []) }
{
    let mut pair = Pair::new(one, other);
    adopt(alloc, &mut pair, preface)?;
    pair.open(alloc)?;
    Ok(pair)
}

// A live server without connections.
fn live_of<D: Disk + Drop>(
    alloc: Global,
    service: Service<Machine, Pair<D>>,
) -> Result<Live<D>, OpenError>
    ensures { IfOk result (λ l. service_of l ≡ service) }
{
    Ok(Live {
        alloc,
        turns: Turns::new(alloc, config_of(&service))?,
        service,
    })
}

// The limits of the connections: of each, heads of 16 KiB, and no request is read while more than 16 KiB wait to be sent.
pub(crate) fn config_of<J: Keeps + Drop>(service: &Service<Machine, J>) -> TurnsConfig {
    let connection = Config {
        limits: Limits::default(),
        max_body_len: usize::try_from(service.most_body()).unwrap_or(usize::MAX),
        max_tree_len: MOST_XML,
        max_pending: 16_384,
    };
    TurnsConfig {
        connection,
        max_waiting: usize::try_from(service.most_waiting()).unwrap_or(usize::MAX),
    }
}

// Reads once, where no whole report is left.
pub(crate) fn read_more<R: Read>(pipe: &mut Pipe, reader: &mut R) -> Result<(), Fault>
    ensures read { OnOk result ((more : List ℕ)
        × Consumes (R.remaining reader.old) (R.remaining reader.new) more
        × (pipe.new ≡ pipe.old ++ more)) }
    ensures still { (t : ReportView) → BeginsWith pipe.old t → reader.new ≡ reader.old }
    ensures ended { result ≡ Err Fault.Ended → IsAtEnd (R.remaining reader.new)
        × Consumes (R.remaining reader.old) (R.remaining reader.new) []
        × HasNoReport pipe.old }
{
    match pipe.read_more(reader) {
        Ok(()) => Ok(()),
        Err(ReadError::Ended) => Err(Fault::Ended),
        Err(ReadError::Failed) => Err(Fault::Pipe),
        Err(ReadError::Memory) => Err(Fault::Memory),
    }
}
