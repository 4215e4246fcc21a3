//! A live server behind another one, until it takes that one's place.
ghost use Rattle.std.specs.Prelude.{◌≡◌, ◌≢◌, ◌++◌, ℕ, List, [], Err, IfErr, IfOk, OnOk, Option, drop, string_bytes};
ghost use Rattle.std.specs.List.{flat_map};
ghost use Rattle.std.specs.Io.KnownBytes.{Appends, Consumes, IsAtEnd};
ghost use Rattle.dav_journal.specs.Journal.{blocks_end};
ghost use Rattle.dav_journal.specs.Pair.{HasAllPair, HasReadPair, IsCleanPair, IsReadingPair, IsUnturned, counting};
ghost use Rattle.dav_journal.specs.declared.pair.Pair.{Pair as PairValue};
ghost use Rattle.dav_http.specs.Saved.{Loads};
ghost use Rattle.dav_http.specs.Steps.{new_server};
ghost use Rattle.dav_kept.specs.Followed.{TakesOver, followed_by};
ghost use Rattle.dav_kept.specs.Kept.{Snapshot, held_by, journal_of};
ghost use Rattle.dav_kept.specs.declared.followed.Followed.{Followed as FollowedValue};
ghost use Rattle.dav_server.specs.Server.{Server as ServerValue};
ghost use Rattle.dav_turns.specs.Frames.{Order, order_bytes};
ghost use Rattle.dav_turns.specs.Turns.{Turn};
ghost use Rattle.dav_live.specs.Answers.{IsAnswer};
ghost use Rattle.dav_live.specs.Behind.{HearsKept, IsCleanBehind, doing_behind, following_of, kept_behind, prefix_behind, turns_behind};
ghost use Rattle.dav_live.specs.LiveRun.{HasNoReport, kept_in, turns_of};
ghost use Rattle.dav_live.specs.Runs.{IsOpened};

use crate::fault::{Fault, OpenError};
use crate::lists::Lists;
use crate::live::{Live, Watch, config_of, read_more};
use crate::machine::Machine;
use crate::service::Service;
use crate::settings::Settings;
use dav_follow::Following;
use dav_http::Handler;
use dav_journal::Pair;
use dav_kept::Followed;
use dav_turns::{Pipe, Turns};
use sqlite_disk::Disk;
use std::alloc::Global;
use std::io::{Read, Write};

/// A live server behind another one, which has the state: it shows that as it is kept, and keeps nothing.
#[derive(Drop)]
pub struct Follower<D: Disk + Drop> {
    alloc: Global,
    prefix: String,
    turns: Turns,
    following: Following<Service<Machine, Followed<Pair<D>>>>,
}

impl<D: Disk + Drop> Follower<D> {
    /// A server behind the one that keeps its journal in these two files: what it answers is as after the requests that are there.
    pub fn open(
        alloc: Global,
        one: D,
        other: D,
        lists: Lists,
        settings: Settings,
    ) -> Result<Follower<D>, OpenError>
        ensures run { IfOk result (λ f. (start : Option Snapshot) × (blocks : List (List ℕ))
            × (IsCleanBehind D.Disk (journal_of (kept_behind f)) → IsOpened IsAnswer Loads
            (λ j bs. HasAllPair D.Disk (followed_by j) bs)
            (new_server (string_bytes settings.prefix)) start blocks (kept_behind f))) }
        ensures rest { IfOk result (λ f. (held_by (kept_behind f)).batch ≡ []) }
        ensures prefix { IfOk result (λ f. prefix_behind f ≡ string_bytes settings.prefix) }
    {
        let prefix = settings.prefix.clone()?;
        let journal = followed(alloc, one, other)?;
        let handler = Handler::new(alloc, prefix.as_str())?;
        let machine = Machine::new(alloc, handler);
        let service = Service::open(alloc, machine, journal, lists, settings)?;
        Ok(Follower {
            alloc,
            prefix,
            turns: Turns::new(alloc, config_of(&service))?,
            following: Following::new(alloc, service),
        })
    }

    /// Opens the files anew, where the other server began anew: what is answered is as after the requests that are there. After an
    /// error it is as before.
    pub fn open_anew(&mut self, one: D, other: D) -> Result<(), OpenError>
        ensures run { OnOk result ((start : Option Snapshot) × (blocks : List (List ℕ))
            × (IsCleanBehind D.Disk (journal_of (kept_behind self.new)) → IsOpened IsAnswer Loads
            (λ j bs. HasAllPair D.Disk (followed_by j) bs)
            (new_server (prefix_behind self.old)) start blocks (kept_behind self.new))) }
        ensures rest { OnOk result ((held_by (kept_behind self.new)).batch ≡ []) }
        ensures failed { IfErr result (λ _. following_of self.new ≡ following_of self.old) }
        ensures turns { turns_behind self.new ≡ turns_behind self.old }
        ensures prefix { prefix_behind self.new ≡ prefix_behind self.old }
    {
        let journal = followed(self.alloc, one, other)?;
        let handler = Handler::new(self.alloc, self.prefix.as_str())?;
        let machine = Machine::new(self.alloc, handler);
        self.following.keeper.open_anew(machine, journal)?;
        Ok(())
    }

    /// Hears what the other server kept since. False where that one began anew: `open_anew` is to be called then, and until it is done
    /// what is answered is as it was.
    pub fn hear(&mut self) -> Result<bool, Fault>
        ensures heard { IfOk result (λ goes. HearsKept IsAnswer
            (λ j. IsCleanBehind D.Disk j) (λ j. IsUnturned D.Disk (followed_by j))
            (λ j bs. IsReadingPair D.Disk (followed_by j) bs)
            (λ j bs. HasAllPair D.Disk (followed_by j) bs)
            (following_of self.old).keeper goes (following_of self.new).keeper) }
        ensures turns { turns_behind self.new ≡ turns_behind self.old }
        ensures fault { result ≢ Err Fault.Ended }
    {
        match self.following.catch_up() {
            Ok(goes) => Ok(goes),
            Err(stop) => Err(Fault::of(stop)),
        }
    }

    /// Takes the reports that came, and writes the orders for them. Nothing that is held changes. `orders` holds the orders for that
    /// time. The count of bytes that were used.
    pub fn turn<W: Write>(
        &mut self,
        reports: &[u8],
        orders: &mut Vec<u8>,
        writer: &mut W,
    ) -> Result<usize, Fault>
        ensures turn { IfOk result (λ used. (ordered : List Order) × Turn (doing_behind D.Disk)
            reports.now used (turns_behind self.old) (following_of self.old)
            (turns_behind self.new) (following_of self.new) ordered
            × Appends (W.contents writer.old) (W.contents writer.new)
            (flat_map order_bytes ordered)) }
        ensures still { OnOk result ((held_by (kept_behind self.old)).batch ≡ []
            → held_by (kept_behind self.new) ≡ held_by (kept_behind self.old)) }
        ensures fault { result ≢ Err Fault.Ended }
    {
        match self
            .turns
            .serve(&mut self.following, reports, orders, writer)
        {
            Ok(used) => Ok(used),
            Err(error) => Err(error.into()),
        }
    }

    /// Reads once, where no whole report is left, and then hears what the other server kept until now: so who asks sees what was kept
    /// before. False where that one began anew, as `hear` has it.
    pub fn listen<R: Read>(&mut self, pipe: &mut Pipe, reader: &mut R) -> Result<bool, Fault>
        ensures read { OnOk result ((more : List ℕ)
            × Consumes (R.remaining reader.old) (R.remaining reader.new) more
            × (pipe.new ≡ pipe.old ++ more)) }
        ensures heard { IfOk result (λ goes. HearsKept IsAnswer
            (λ j. IsCleanBehind D.Disk j) (λ j. IsUnturned D.Disk (followed_by j))
            (λ j bs. IsReadingPair D.Disk (followed_by j) bs)
            (λ j bs. HasAllPair D.Disk (followed_by j) bs)
            (following_of self.old).keeper goes (following_of self.new).keeper) }
        ensures turns { turns_behind self.new ≡ turns_behind self.old }
        ensures ended { result ≡ Err Fault.Ended → (self.new ≡ self.old)
            × IsAtEnd (R.remaining reader.new) × HasNoReport pipe.old }
    {
        read_more(pipe, reader)?;
        self.hear()
    }

    /// Takes the reports that were read, and hands out the orders for them; who is told of requests is `watch`. Nothing that is held
    /// changes.
    pub fn answer<W: Write, L: Watch>(
        &mut self,
        pipe: &mut Pipe,
        orders: &mut Vec<u8>,
        writer: &mut W,
        watch: &mut L,
    ) -> Result<(), Fault>
        ensures turn { OnOk result ((used : ℕ) × (ordered : List Order)
            × Turn (doing_behind D.Disk) pipe.old used (turns_behind self.old)
            (following_of self.old) (turns_behind self.new) (following_of self.new) ordered
            × Appends (W.contents writer.old) (W.contents writer.new)
            (flat_map order_bytes ordered) × (pipe.new ≡ drop used pipe.old)) }
        ensures still { OnOk result ((held_by (kept_behind self.old)).batch ≡ []
            → held_by (kept_behind self.new) ≡ held_by (kept_behind self.old)) }
        ensures fault { result ≢ Err Fault.Ended }
    {
        watch.begin();
        let used = self.turn(pipe.unheard(), orders, writer)?;
        pipe.drop_heard(used);
        self.following.keeper.tell(watch);
        Ok(())
    }

    /// Takes the place of the other server, over these files, which nobody else has: what was heard of them isn't run again. `Damaged`
    /// where they have not the blocks that were heard. All connections stay; `begin` comes next.
    pub fn take_over<E: Disk + Drop>(self, one: E, other: E) -> Result<Live<E>, OpenError>
        ensures over { IfOk result (λ l. (journal : PairValue E)
            × (IsCleanPair E.Disk journal → IsReadingPair E.Disk journal [])
            × TakesOver IsAnswer (λ j. blocks_end (counting (followed_by j)))
            (λ j. IsCleanPair E.Disk j) (λ j bs. IsReadingPair E.Disk j bs)
            (λ j bs. HasReadPair E.Disk j bs) (λ j. blocks_end (counting j))
            (kept_behind self) journal (kept_in l)) }
        ensures turns { IfOk result (λ l. turns_of l ≡ turns_behind self) }
    {
        let Follower {
            alloc,
            turns,
            following,
            ..
        } = self;
        let mut pair = Pair::new(one, other);
        pair.open(alloc)?;
        let service = following.into_keeper().take_over(pair)?;
        Ok(Live::over(alloc, turns, service))
    }
}

// A journal over two disks that another server writes.
fn followed<D: Disk + Drop>(alloc: Global, one: D, other: D) -> Result<Followed<Pair<D>>, OpenError>
    ensures { IfOk result (λ j. IsCleanBehind D.Disk j
        → IsReadingPair D.Disk (followed_by j) []) }
{
    let mut pair = Pair::new(one, other);
    pair.open(alloc)?;
    Ok(Followed::new(pair))
}
