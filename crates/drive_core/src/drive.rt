//! The drive and its calls.
ghost use Rattle.std.specs.Prelude.{◌≡◌, ◌↔◌, [], false, length, IsTrue, IfOk, OnErr, MatchOption, MatchResult};
ghost use Rattle.platter_model.specs.TrueLog.{is_off};
ghost use Rattle.geometry_map.specs.DefectMap.{IsPrimaryList};
ghost use Rattle.drive_scene.specs.Scene.{factory_ops};
ghost use Rattle.drive_scene.specs.Run.{IsGoodRun, run_at_start, behind_factory, scene_of};
ghost use Rattle.drive_scene.specs.Able.{refusal, needs_power, pick_of};
ghost use Rattle.drive_scene.specs.Turning.{AddsTurn, coming_after};
ghost use Rattle.drive_scene.specs.Progress.{SomebodyIsAble};
ghost use Rattle.drive_core.specs.Served.{IsServed};
ghost use Rattle.drive_core.specs.Starting.{KnowsStart};

use crate::server::{Server, reserve};
use crate::standing::{stands, stands_by_age};
use crate::turning::{entries_at_most, make_turn};
use crate::{Event, Pick, TurnAnswer, Waiting, able};
use block_machine::{Entries, Entry, Turn, Turns};
use disk_base::{Items, NoMemory, Psn};
use drive_scene::{Made, factories_leave_zeros, maps_stay};
use geometry_map::Size;
use history_replay::{Known, Scanning};
use mode_pages::Settings;
use platter_model::Ops;
use scan_log::ScanLog;
use sector_store::{Store, StoreFault};
use sense_data::Attentions;
use std::alloc::Global;
use std::marker::Model;
use task_set::{TaskSet, some_command_may_run};

// As many turns a drive can number.
const TURNS_MAX: usize = 4_294_967_294;

/// A drive on its platter, with all its turns. Contracts see what it did: what the factory was told, its turns, the operations
/// of its platter, and how many arrivals are still expected.
#[derive(Drop)]
pub struct Drive {
    alloc: Global,
    made: Made,
    server: Server,
    turns: Vec<Turn>,
    coming: u32,
}

impl Model for Drive {
    ghost use Rattle.drive_scene.specs.Run.{Run, run_of};
    ghost use Rattle.drive_core.specs.Kept.{Kept};

    ghost Value = { Run };

    ghost view = { λ d. run_of d.made d.server.store d.turns.items d.coming };

    ghost invariant = { λ d. Kept (run_of d.made d.server.store d.turns.items d.coming) d.server };
}

impl Drive {
    /// A drive of this size, whose sectors in the list are bad from the factory on: all its blocks are zeros.
    pub fn factory(alloc: Global, size: Size, primary: &[Psn]) -> Result<Self, StoreFault>
        ensures { MatchResult result
            (λ drive. (drive ≡ run_at_start (record { size = size; primary = primary.now })) × IsPrimaryList size primary.now)
            (λ fault. (fault ≡ StoreFault.Primary) ↔ (IsPrimaryList size primary.now → ⊥)) }
    {
        let store = Store::factory(alloc, size, primary)?;
        stands(&store);
        factories_leave_zeros();
        let server = Server {
            store,
            set: TaskSet::new(),
            commands: Vec::new(alloc),
            arrived: 0,
            known: known_at_start(alloc, size.capacity())?,
        };
        Ok(Drive {
            alloc,
            server,
            made: told(alloc, size, primary)?,
            turns: Vec::new(alloc),
            coming: 0,
        })
    }

    /// Holds of every drive: its run is good, and the power is on.
    pub fn is_good(&self)
        ensures good { IsGoodRun self.now }
        ensures powered { is_off self.now.ops ≡ false }
    {
        maps_stay();
        let platter = self.server.store.platter();
        platter.has_a_true_log();
    }

    /// Makes the turn of an event, or answers why there is none. Want of memory leaves the drive as it was.
    pub fn turn(&mut self, event: Event) -> Result<TurnAnswer, NoMemory>
        requires { IsServed self.old.made.size event }
        ensures turn { IfOk result (λ given. MatchOption (refusal self.old event)
            (AddsTurn self.old event given self.new)
            (λ refused. (given ≡ refused) × (self.new ≡ self.old))) }
        ensures err { OnErr result (self.new ≡ self.old) }
    {
        if let Some(refused) = self.refusal(&event) {
            return Ok(refused);
        }
        let entries_max = entries_at_most(&event);
        let mut entries = reserve(self.alloc, &mut self.server, &mut self.turns, entries_max)?;
        let from = ops_done(&self.made, &self.server);
        let coming = coming_after(self.coming, &event);
        let made = make_turn(self.alloc, &mut self.server, event, &mut entries)?;
        self.coming = coming;
        self.turns.push_reserved(Turn {
            label: made.label,
            ops_from: from,
            ops_to: ops_done(&self.made, &self.server),
            entries: sealed(entries),
        });
        Ok(TurnAnswer::Done {
            number: self.turns.len() as u64,
            ended: made.ended,
            scanned: false,
        })
    }

    // Why an event is refused; none where its turn comes.
    fn refusal(&self, event: &Event) -> Option<TurnAnswer>
        ensures { result ≡ refusal self.now event.now }
    {
        if needs_power(event) && self.server.store.platter().is_off() {
            return Some(TurnAnswer::Off);
        }
        if self.turns.len() >= TURNS_MAX {
            return Some(TurnAnswer::Spent);
        }
        match event {
            Event::Work(c) => able::refusal_of_work(&self.server, *c, self.coming),
            // No move is in flight yet.
            Event::Job(_) => Some(self.idle()),
            Event::Any(x) => match able::any(&self.server, *x) {
                Some(_) => None,
                None => Some(self.idle()),
            },
            Event::Destage => match able::destaged(&self.server) {
                Some(_) => None,
                None => Some(self.idle()),
            },
            _ => None,
        }
    }

    // There is nothing to do for an event now.
    fn idle(&self) -> TurnAnswer
        ensures { result ≡ TurnAnswer.Idle self.now.coming }
    {
        TurnAnswer::Idle {
            coming: self.coming,
        }
    }

    /// The turn that a number picks among those that may come: what arrives by initiator, then commands by age, then a destage.
    pub fn pick(&self, waiting: &Waiting, x: u32) -> Option<Pick>
        ensures value { result ≡ pick_of self.now waiting.now x }
    {
        if self.server.store.platter().is_off() || self.turns.len() >= TURNS_MAX {
            return None;
        }
        able::picked(&self.server, waiting, x)
    }

    /// Holds of every drive: while commands are in, work on one of them may come.
    pub fn somebody_is_able(&self)
        ensures { SomebodyIsAble (scene_of self.now) }
    {
        some_command_may_run();
        stands_by_age(&self.server.set);
    }

    /// So many arrivals are still to come.
    pub fn expect(&mut self, coming: u32)
        ensures { self.new ≡ record self.old { coming = coming } }
    {
        self.coming = coming;
    }

    /// Whether no command is in.
    pub fn is_idle(&self) -> bool
        ensures { IsTrue result ↔ ((scene_of self.now).hist.set ≡ []) }
    {
        self.server.set.members().is_empty()
    }

    pub fn turns(&self) -> &[Turn]
        ensures { result.now ≡ self.now.turns }
    {
        self.turns.as_slice()
    }

    pub fn store(&self) -> &Store
        ensures ops { result.now.platter.ops ≡ self.now.ops }
        ensures size { result.now.map.size ≡ self.now.made.size }
    {
        &self.server.store
    }

    /// How many operations the factory did: turns count theirs from behind these.
    pub fn factory_count(&self) -> u64
        ensures { result ≡ length (factory_ops self.now.made) }
    {
        self.made.factory_count()
    }

    /// All turns, and all operations of the platter, the factory's first.
    pub fn into_parts(self) -> (Turns, Ops)
        ensures turns { result.0 ≡ self.turns }
        ensures ops { result.1 ≡ self.ops }
    {
        let Drive { server, turns, .. } = self;
        let Server { store, .. } = server;
        (Turns::from_vec(turns), store.into_ops())
    }
}

// What the factory is told.
fn told(alloc: Global, size: Size, primary: &[Psn]) -> Result<Made, NoMemory>
    ensures { IfOk result (λ made. made ≡ record { size = size; primary = primary.now }) }
{
    let primary = Vec::from_slice(alloc, primary)?;
    Ok(Made {
        size,
        primary: Items::from_vec(primary),
    })
}

// What is known of a fresh drive.
fn known_at_start(alloc: Global, capacity: u64) -> Result<Known, NoMemory>
    ensures { IfOk result (KnowsStart capacity) }
{
    Ok(Known {
        capacity,
        settings: Settings::default_values(),
        waiting: Attentions::power_on(),
        corrupt: false,
        scan: Scanning {
            minutes: 0,
            scanned: 0,
            log: ScanLog::new(alloc)?,
        },
    })
}

// How many operations the platter did since the factory.
#[tactic(auto, unfolding(drive_scene::specs::Run::behind_factory))]
fn ops_done(made: &Made, server: &Server) -> u64
    ensures { result ≡ length (behind_factory made.now server.now.store.platter.ops) }
{
    let all = server.store.platter().ops().len() as u64;
    all.saturating_sub(made.factory_count())
}

// The entries of a turn that is over. They stay for the whole run, without room for more.
fn sealed(mut entries: Vec<Entry>) -> Entries
    ensures { result ≡ entries.items }
{
    entries.shrink_to_fit();
    Entries::from_vec(entries)
}

// Only what happens from outside comes while the power is off.
fn needs_power(event: &Event) -> bool
    ensures { result ≡ needs_power event.now }
{
    !matches!(event, Event::World(_))
}

// Each arrival takes one off those that are expected.
fn coming_after(coming: u32, event: &Event) -> u32
    ensures { result ≡ coming_after coming event.now }
{
    match event {
        Event::Arrive(_) => coming.saturating_sub(1),
        _ => coming,
    }
}
