ghost use Rattle.std.specs.Prelude.{◌≡◌, ◌↔◌, ◌+◌, ◌<◌, ◌≤◌, ◌++◌, ◌∷◌, [], ℕ, length, position, set, slice_get, swap_remove, Some, None, Err, true, false, IfSome, IsSomeAnd, OnOk, OnErr, vec_capacity, vec_len};
ghost use Rattle.std.specs.Option.{option_map};
ghost use Rattle.receipt_roll.specs.declared.roll.TheConstants.{MAX_ITEMS};
ghost use Rattle.receipt_roll.specs.Values.{next_receipt};
ghost use Rattle.pool_mail.specs.declared.end.End.TheVariants.{NotStarted};
ghost use Rattle.pool_outer.specs.Cause.{RoseBy};
ghost use Rattle.pool_view.specs.Numbers.{same_run};
ghost use Rattle.starter.specs.declared.given.Fate.TheVariants as fate;
ghost use Rattle.starter.specs.declared.given.LaunchError.TheVariants as launch_error;
ghost use Rattle.starter.specs.ChildTables.{as_doomed};
ghost use Rattle.starter.specs.Launchers.{count_given, ending_of, every_run, fate_of, given_as, is_given, is_refused, is_started, new_children, EndsIfRefused, GainsEnding, IsLauncher, IsTrueEnding};
ghost use Rattle.starter.specs.Spawners.{spawner_value, Kills, Looks, Starts};

use crate::calls::{kill, look_at, start};
use crate::children::{Child, Children};
use crate::given::{Fate, Given, LaunchError, Launched};
use claim_id::RunNo;
use pool_mail::{End, Ending};
use pool_outer::{Launch, SpawnError, Spawner};
use receipt_roll::{Mark, Receipt, Roll};
use startd_core::Permit;
use std::alloc::Global;
use std::marker::Model;

/// A spawner, what was given to it, and the endings of its runs. Contracts see it as a
/// `LauncherValue`, of which `IsLauncher` always holds (`know`).
#[derive(Drop)]
pub struct Launcher<P: Spawner> {
    spawner: P,
    given: Vec<Given>,
    children: Children,
    endings: Roll<Ending>,
    // There is room for one permit more.
    ready: bool,
}

impl<P: Spawner> Model for Launcher<P> {
    ghost use Rattle.starter.specs.Launchers.{LauncherValue, HasRoom, IsLauncher};
    ghost use Rattle.starter.specs.Spawners.{spawner_value};

    ghost Value = { LauncherValue P };

    ghost view = { λ l. record {
      spawner = l.spawner;
      given = l.given.items;
      children = l.children.list;
      endings = l.endings.list;
      mark = l.endings.mark;
      ready = l.ready;
    } };

    ghost invariant = { λ l. HasRoom l.ready l.given l.children l.endings.spare
        × IsLauncher
        (spawner_value P.tells P.count P.launches P.seen P.killed P.faults l.spawner)
        l.given.items l.children.list l.endings.list };
}

impl<P: Spawner> Launcher<P> {
    /// A launcher over a spawner that has launched nothing. Computes in O(1), without memory.
    pub fn new(alloc: Global, spawner: P) -> Launcher<P>
        requires { P.count spawner ≡ 0 }
        ensures spawner { result.spawner ≡ spawner }
        ensures given { result.given ≡ [] }
        ensures children { result.children ≡ [] }
        ensures endings { result.endings ≡ [] }
        ensures ready { result.ready ≡ false }
    {
        Launcher {
            spawner,
            given: Vec::new(alloc),
            children: Children::new(alloc),
            endings: Roll::new(alloc),
            ready: false,
        }
    }

    /// The mark of its roll. Computes in O(1), without memory.
    pub fn mark(&self) -> Mark<Ending>
        ensures { result ≡ self.now.mark }
    {
        self.endings.mark()
    }

    /// The children that were not seen to end yet. Computes in O(1).
    pub fn children(&self) -> &[Child]
        ensures { result.now ≡ self.now.children }
    {
        self.children.as_slice()
    }

    /// The place among the children of a run's child, where it has one. Computes in O(1) on
    /// average.
    pub fn place_of(&self, run: RunNo) -> Option<usize>
        ensures place { result ≡ position (λ child. same_run child.run run) self.now.children }
        ensures within { IfSome result (λ place. place < length self.now.children) }
    {
        self.children.place_of(run)
    }

    /// Whether a permit of the run was given to it. Computes in O(permits that were given), for
    /// those who don't know it otherwise.
    pub fn was_given(&self, run: RunNo) -> bool
        ensures { result ≡ is_given run self.now.given }
    {
        is_given(self.given.as_slice(), run)
    }

    /// The endings, in the order of their receipts. Computes in O(1).
    pub fn endings(&self) -> &[Ending]
        ensures { result.now ≡ self.now.endings }
    {
        self.endings.items()
    }

    /// Makes known that the receipt's ending stands on the roll and, where the spawner tells, that
    /// it was seen so. Changes nothing. Computes in O(1), without memory.
    pub fn confirm(&mut self, receipt: &Receipt<Ending>)
        requires { receipt.now.mark ≡ self.old.mark }
        ensures same { self.new ≡ self.old }
        ensures item { slice_get self.old.endings receipt.now.number ≡ Some receipt.now.item }
        ensures seen { P.tells self.old.spawner ≡ true → IsTrueEnding
            (spawner_value P.tells P.count P.launches P.seen P.killed P.faults self.old.spawner)
            self.old.given receipt.now.item }
    {
        self.endings.confirm(receipt);
    }

    /// Makes known what always holds of it. Computes in O(1).
    pub fn know(&self)
        ensures { IsLauncher
            (spawner_value P.tells P.count P.launches P.seen P.killed P.faults self.now.spawner)
            self.now.given self.now.children self.now.endings }
    {
        let _ = &self.ready;
    }

    /// The spawner. Computes in O(given runs), which are let go, without memory.
    pub fn into_spawner(self) -> P
        ensures spawner { result ≡ self.spawner }
        ensures knows { IsLauncher
            (spawner_value P.tells P.count P.launches P.seen P.killed P.faults result)
            self.given self.children self.endings }
    {
        let Launcher { spawner, .. } = self;
        spawner
    }

    /// Makes room for one permit more, for its child and for its ending. Computes in O(1), with
    /// memory, on average. After an error it is as it was.
    pub fn room(&mut self) -> Result<(), LaunchError>
        // What it gives, and what it leaves as it is.
        ensures ready { OnOk result (self.new.ready ≡ true) }
        ensures spawner { self.new.spawner ≡ self.old.spawner }
        ensures given { self.new.given ≡ self.old.given }
        ensures children { self.new.children ≡ self.old.children }
        ensures endings { self.new.endings ≡ self.old.endings }
        ensures mark { self.new.mark ≡ self.old.mark }

        // When it is refused, and that a refusal changes nothing.
        ensures full { (result ≡ Err launch_error.Roll)
            ↔ (MAX_ITEMS ≤ length self.old.endings + length self.old.children) }
        ensures err { OnErr result (self.new ≡ self.old) }
    {
        let count = self.children.as_slice().len() as u64;
        self.endings.room(count + 1)?;
        self.given.reserve(1)?;
        self.children.room()?;
        self.ready = true;
        Ok(())
    }

    /// Starts a permit's run, where the spawner does. Refused, the run ends as NotStarted. Computes
    /// in O(1) beside the spawner's launch.
    pub fn launch(&mut self, alloc: Global, permit: Permit) -> Launched
        requires ready { self.old.ready ≡ true }
        requires new { is_given permit.run self.old.given ≡ false }

        // What it notes: the permit, a child, an ending.
        ensures given { self.new.given
            ≡ self.old.given ++ given_as permit.run permit.what (fate_of result) ∷ [] }
        ensures children { self.new.children
            ≡ self.old.children ++ new_children permit.run (P.count self.old.spawner) result }
        ensures endings { EndsIfRefused permit.run self.old self.new
            (P.faults self.old.spawner) (P.faults self.new.spawner) result }
        ensures mark { self.new.mark ≡ self.old.mark }
        ensures spent { self.new.ready ≡ false }

        // What the spawner has done. Its faults have risen by no fewer than were ever refused.
        ensures starts { Starts permit.what
            (spawner_value P.tells P.count P.launches P.seen P.killed P.faults self.old.spawner)
            (spawner_value P.tells P.count P.launches P.seen P.killed P.faults self.new.spawner)
            (is_started (fate_of result)) }
        ensures rises { (first : ℕ)
            → RoseBy (count_given is_refused every_run self.old.given) first
            (P.faults self.old.spawner)
            → RoseBy (count_given is_refused every_run self.new.given) first
            (P.faults self.new.spawner) }
    {
        let (run, _job, what) = permit.spend();
        self.ready = false;
        match start(&mut self.spawner, alloc, &what) {
            Ok(number) => {
                note(&mut self.given, run, what, Fate::Started);
                self.children.push(Child {
                    run,
                    number,
                    doomed: false,
                });
                Launched::Started
            }
            Err(SpawnError::Failed) => {
                note(&mut self.given, run, what, Fate::Refused);
                Launched::Refused(put(&mut self.endings, run, End::NotStarted))
            }
            Err(SpawnError::Memory) => {
                note(&mut self.given, run, what, Fate::Lost);
                Launched::Lost
            }
        }
    }

    /// Ends a permit's run as NotStarted, without a launch. Computes in O(1).
    pub fn decline(&mut self, permit: Permit) -> Receipt<Ending>
        requires ready { self.old.ready ≡ true }
        requires new { is_given permit.run self.old.given ≡ false }

        // What it notes: the permit and an ending.
        ensures given { self.new.given
            ≡ self.old.given ++ given_as permit.run permit.what fate.Declined ∷ [] }
        ensures ended { GainsEnding self.old self.new result }
        ensures ending { result.item ≡ ending_of permit.run NotStarted }

        // What it leaves as it is.
        ensures spawner { self.new.spawner ≡ self.old.spawner }
        ensures children { self.new.children ≡ self.old.children }
        ensures mark { self.new.mark ≡ self.old.mark }
        ensures spent { self.new.ready ≡ false }
    {
        let (run, _job, what) = permit.spend();
        self.ready = false;
        note(&mut self.given, run, what, Fate::Declined);
        put(&mut self.endings, run, End::NotStarted)
    }

    /// The ending of the child at a place, where a look finds it ended: it is put on the roll, and
    /// the last child takes its place, so that a round of looks goes from the last place down. None
    /// only where the child was running at that look, or the spawner's faults rose. Computes in
    /// O(1) on average beside the spawner's look, without memory.
    pub fn poll(&mut self, place: usize) -> Option<Receipt<Ending>>
        requires { place < length self.old.children }

        // What the spawner has seen, and what came of it.
        ensures looks { IsSomeAnd (slice_get self.old.children place) (λ child. Looks child.number
            (spawner_value P.tells P.count P.launches P.seen P.killed P.faults self.old.spawner)
            (spawner_value P.tells P.count P.launches P.seen P.killed P.faults self.new.spawner)
            (option_map (λ receipt. receipt.item.end) result)) }
        ensures child { IsSomeAnd (slice_get self.old.children place) (λ child. IfSome result
            (λ receipt. (receipt.item.run ≡ child.run)
            × (self.new.children ≡ swap_remove self.old.children place child))) }
        ensures ended { IfSome result (GainsEnding self.old self.new) }
        ensures none { result ≡ None → (self.new.children ≡ self.old.children)
            × (self.new.endings ≡ self.old.endings) }

        // What it leaves as it is.
        ensures given { self.new.given ≡ self.old.given }
        ensures mark { self.new.mark ≡ self.old.mark }
        ensures ready { self.new.ready ≡ self.old.ready }
    {
        let child = self.children.get(place);
        let Some(end) = look_at(&mut self.spawner, child.number) else {
            return None;
        };
        self.children.remove(place);
        Some(put(&mut self.endings, child.run, end))
    }

    /// Asks the system to kill the child at a place, which is doomed then, whatever the system
    /// answers. Computes in O(1) beside the spawner's kill, without memory.
    pub fn kill(&mut self, place: usize)
        requires { place < length self.old.children }

        // What the spawner has done, and what is noted.
        ensures kills { IsSomeAnd (slice_get self.old.children place) (λ child. Kills child.number
            (spawner_value P.tells P.count P.launches P.seen P.killed P.faults self.old.spawner)
            (spawner_value P.tells P.count P.launches P.seen P.killed P.faults self.new.spawner)) }
        ensures children { IsSomeAnd (slice_get self.old.children place)
            (λ child. self.new.children ≡ set self.old.children place (as_doomed child)) }

        // What it leaves as it is.
        ensures given { self.new.given ≡ self.old.given }
        ensures endings { self.new.endings ≡ self.old.endings }
        ensures mark { self.new.mark ≡ self.old.mark }
        ensures ready { self.new.ready ≡ self.old.ready }
    {
        let child = self.children.get(place);
        kill(&mut self.spawner, child.number);
        self.children.doom(place);
    }
}

fn is_given(given: &[Given], run: RunNo) -> bool
    ensures { result ≡ is_given run given.now }
{
    given.iter().any(|one| is_same(one.run, run))
}

fn is_same(run: RunNo, other: RunNo) -> bool
    ensures { result ≡ same_run run other }
{
    run == other
}

// Notes a permit that was spent, for which there is room.
fn note(given: &mut Vec<Given>, run: RunNo, what: Launch, fate: Fate)
    requires { vec_len given.old < vec_capacity given.old }
    ensures { given.new.items ≡ given.old.items ++ given_as run what fate ∷ [] }
{
    given.push(Given { run, what, fate }).unwrap();
}

// Puts a run's ending on a roll that has room for it.
fn put(endings: &mut Roll<Ending>, run: RunNo, end: End) -> Receipt<Ending>
    requires { 0 < endings.old.spare }
    ensures list { endings.new.list ≡ endings.old.list ++ ending_of run end ∷ [] }
    ensures receipt { result ≡ next_receipt endings.old (ending_of run end) }
    ensures spare { endings.new.spare + 1 ≡ endings.old.spare }
    ensures mark { endings.new.mark ≡ endings.old.mark }
{
    let ending = Ending { run, end };
    endings.append(ending, ending).unwrap()
}
