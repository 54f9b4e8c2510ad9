//! Which turns may come, and why others are refused.
ghost use Rattle.std.specs.Prelude.{◌≡◌, ◌+◌, ◌<◌, ◌≤◌, if◌then◌else◌, ℕ, map, filter, length, position, slice_index, slice_index_or, nat_lt, All, Some, None, IfSome};
ghost use Rattle.std.specs.List.{list_any};
ghost use Rattle.std.specs.Option.{option_map, option_and_then};
ghost use Rattle.command_engine.specs.Need.{need_of};
ghost use Rattle.command_engine.specs.Answers.{is_hardened};
ghost use Rattle.task_set.specs.Members.{member_of, IsIn, blocker_of};
ghost use Rattle.block_machine.specs.Attentions.{initiators};
ghost use Rattle.drive_scene.specs.Scene.{Scene};
ghost use Rattle.drive_core.specs.Fits.{Fits};
ghost use Rattle.drive_core.specs.Needed.{IsNeeded, held_of};
ghost use Rattle.drive_core.specs.Accepting.{is_numbered};
ghost use Rattle.drive_core.specs.declared.accepted.Accepted.{Accepted as Command};
ghost use Rattle.write_cache.specs.Contents.{is_at};
ghost use Rattle.drive_core.specs.Claims.{older_after, claim_of, claims_of, holders_of, is_holder, is_held_by, keeps_from, holder_besides, held_back};
ghost use Rattle.drive_scene.specs.Evidence.{lba};
ghost use Rattle.drive_scene.specs.Holds.{destaged};
ghost use Rattle.drive_scene.specs.Able.{refusal_of_work, work_refused, is_able, able_destage, arrives, picked, nothing_waiting};

use crate::accepted::{Accepted, place};
use crate::server::Server;
use crate::{Holder, Pick, TurnAnswer, Waiting};
use arrayvec::ArrayVec;
use command_engine::{Need, Work};
use disk_base::{Initiator, Lba};
use task_set::{Member, TASKS_MAX};
use write_cache::Cache;

/// Why work on a command is refused; none where it may come.
pub fn refusal_of_work(server: &Server, c: u32, coming: u32) -> Option<TurnAnswer>
    ensures { (s : Scene) → Fits s server.now → result ≡ refusal_of_work s coming c }
{
    match server.set.member(c) {
        Some(member) if member.started => {
            let claims = claims(server);
            let holders = holders(claims.as_slice());
            let commands = server.commands.as_slice();
            let claim = claim_at(server, c, place(commands, c));
            held_back(&claim, holders.as_slice())
        }
        Some(_) => dormant(server, c),
        None => Some(TurnAnswer::Idle { coming }),
    }
}

/// The turn that a number picks among those that may come; none where none may.
pub fn picked(server: &Server, waiting: &Waiting, x: u32) -> Option<Pick>
    ensures { (s : Scene) → Fits s server.now → result ≡ picked s waiting.now x }
{
    let arrivals = arriving(waiting);
    let commands = able_commands(server);
    let destages = able_destages(server, waiting);
    let count = arrivals.len() + commands.len() + destages;
    if count == 0 {
        return None;
    }
    let k = x as usize % count;
    if k < arrivals.len() {
        Some(Pick::Arrive(arrivals[k]))
    } else {
        Some(behind_arrivals(commands.as_slice(), k - arrivals.len()))
    }
}

// What comes behind the arrivals: work on these commands, and then a destage.
fn behind_arrivals(commands: &[u32], n: usize) -> Pick
    ensures { result ≡ (if nat_lt n (length commands.now) then Pick.Work (slice_index commands.now n) else Pick.Destage) }
{
    if n < commands.len() {
        Pick::Work(commands[n])
    } else {
        Pick::Destage
    }
}

// How many destages may come: one, where one is asked for and a block is to be destaged.
fn able_destages(server: &Server, waiting: &Waiting) -> usize
    ensures count { (s : Scene) → Fits s server.now → result ≡ length (able_destage s waiting.now) }
    ensures few { result ≤ 1 }
{
    if waiting.destages && destaged(server).is_some() {
        1
    } else {
        0
    }
}

/// The block that a destage writes: the oldest dirty one that nobody holds.
pub fn destaged(server: &Server) -> Option<Lba>
    ensures { (s : Scene) → Fits s server.now → result ≡ option_map lba (destaged s) }
{
    let claims = claims(server);
    let held = held_blocks(claims.as_slice());
    server.store.cached().oldest_dirty(held.as_slice())
}

// The blocks that are held by the claims.
fn held_blocks(claims: &[Claim]) -> ArrayVec<Lba, TASKS_MAX>
    requires { length claims.now ≤ TASKS_MAX }
    ensures { (b : Lba) → list_any (is_at b) result.items ≡ list_any (is_held_by b) claims.now }
{
    let mut held = ArrayVec::new();
    for claim in claims {
        if let Some(b) = claim.holds {
            held.push(b);
        }
    }
    held
}

/// The command that a number picks while nothing waits outside; none where none is able.
pub fn any(server: &Server, x: u32) -> Option<u32>
    ensures picked { (s : Scene) → Fits s server.now → option_map Pick.Work result ≡ picked s nothing_waiting x }
    ensures free { (s : Scene) → Fits s server.now → IfSome result (λ c. refusal_of_work s 0 c ≡ None) }
{
    let commands = able_commands(server);
    if commands.is_empty() {
        return None;
    }
    Some(commands[x as usize % commands.len()])
}

// The initiators of which something arrives.
fn arriving(waiting: &Waiting) -> ArrayVec<Initiator, 8>
    ensures { result.items ≡ filter (arrives waiting.now) initiators }
{
    let mut arriving = ArrayVec::new();
    for number in 1..9 {
        if let Some(initiator) = comes(waiting, number) {
            arriving.push(initiator);
        }
    }
    arriving
}

// The initiator of a number, where something of it arrives.
fn comes(waiting: &Waiting, number: u8) -> Option<Initiator>
    requires low { 1 ≤ number }
    requires high { number < 9 }
    ensures { result ≡ (if arrives waiting.now number then Some number else None) }
{
    if waiting.arrivals[number as usize - 1] {
        Initiator::new(number)
    } else {
        None
    }
}

// The commands of the set on which work may come, by age.
fn able_commands(server: &Server) -> ArrayVec<u32, TASKS_MAX>
    ensures able { (s : Scene) → Fits s server.now → result.items ≡ map (λ m. m.task.c) (filter (is_able s) s.hist.set) }
    ensures free { (s : Scene) → Fits s server.now → All (λ c. refusal_of_work s 0 c ≡ None) result.items }
{
    let claims = claims(server);
    let holders = holders(claims.as_slice());
    let mut able = ArrayVec::new();
    for (i, member) in server.set.members().iter().enumerate() {
        if work_refused(server, member, &claims[i], holders.as_slice()).is_none() {
            able.push(member.task.c);
        }
    }
    able
}

// What a command claims of the blocks: the one that it needs next, and the one that it holds.
#[derive(Clone, Copy, Debug, Default)]
struct Claim {
    c: u32,
    needs: Option<Lba>,
    holds: Option<Lba>,
}

// What the commands of the set claim, by age. As far as the accepted commands stand in the order of the set, each is found at once.
fn claims(server: &Server) -> ArrayVec<Claim, TASKS_MAX>
    ensures claims { (s : Scene) → Fits s server.now → result.items ≡ claims_of s }
    ensures each { length result.items ≡ length server.now.set }
    ensures fits { length result.items ≤ TASKS_MAX }
{
    let commands = server.commands.as_slice();
    let mut claims = ArrayVec::new();
    let mut older = 0;
    for member in server.set.members() {
        let place = place_from(commands, older, member.task.c);
        older = older_after(older, place);
        claims.push(claim_at(server, member.task.c, place));
    }
    claims
}

// Where the command of a number is, which is looked for first behind so many that are older.
fn place_from(commands: &[Accepted], older: usize, c: u32) -> Option<usize>
    requires { (k : ℕ) (a : Command) → k < older → (slice_index_or commands.now k a).c < c }
    ensures { result ≡ position (is_numbered c) commands.now }
{
    if older < commands.len() && commands[older].c == c {
        Some(older)
    } else {
        place(commands, c)
    }
}

// How many are older than the next of the set: one more, where the command at this place is the next of them.
fn older_after(older: usize, place: Option<usize>) -> usize
    requires { older < TASKS_MAX }
    ensures { result ≡ older_after older place }
{
    match place {
        Some(i) if i == older => older + 1,
        _ => older,
    }
}

// Those of the claims by which a block is held.
fn holders(claims: &[Claim]) -> ArrayVec<Claim, TASKS_MAX>
    requires { length claims.now ≤ TASKS_MAX }
    ensures { result.items ≡ filter is_holder claims.now }
{
    let mut holders = ArrayVec::new();
    for claim in claims {
        if claim.holds.is_some() {
            holders.push(*claim);
        }
    }
    holders
}

// What the command at a place claims: nothing before it is started.
fn claim_at(server: &Server, c: u32, place: Option<usize>) -> Claim
    requires { place ≡ position (is_numbered c) server.now.commands.items }
    ensures { (s : Scene) → Fits s server.now → result ≡ claim_of s c }
{
    let commands = server.commands.as_slice();
    match place {
        Some(i) => match &commands[i].work {
            Some(work) => claim_by(work, c, server.store.cached()),
            None => nothing(c),
        },
        None => nothing(c),
    }
}

// What a started command claims by its need.
fn claim_by(work: &Work, c: u32, cache: &Cache) -> Claim
    ensures c { result.c ≡ c }
    ensures needs { IsNeeded cache.now (need_of work.now) result.needs }
    ensures holds { result.holds ≡ held_of (is_hardened work.now.plan) (need_of work.now) }
{
    let need = work.need();
    Claim {
        c,
        needs: block_of(need, cache),
        holds: held(need, work.is_hardened()),
    }
}

// The claim of a command that claims no block.
fn nothing(c: u32) -> Claim
    ensures c { result.c ≡ c }
    ensures needs { result.needs ≡ None }
    ensures holds { result.holds ≡ None }
{
    Claim {
        c,
        needs: None,
        holds: None,
    }
}

// The block that a need is about.
fn block_of(need: Need, cache: &Cache) -> Option<Lba>
    ensures { IsNeeded cache.now need result }
{
    match need {
        Need::Take { b, .. } => Some(b),
        Need::Put { b } => Some(b),
        Need::PutThrough { b } => Some(b),
        Need::Harden { b } => Some(b),
        Need::Pass { from, to } => cache.next_dirty(from, to),
        Need::Move { b, .. } => Some(b),
        Need::Page => None,
        Need::Nothing => None,
    }
}

// The block that is held by a need: it was tried or hardened, and isn't got yet.
fn held(need: Need, hardened: bool) -> Option<Lba>
    ensures { result ≡ held_of hardened need }
{
    match need {
        Need::Take { b, stage, .. } if stage.number > 0 || hardened => Some(b),
        _ => None,
    }
}

// Why work on a command of the set is refused, by its claim and the claims of all that hold a block.
fn work_refused(
    server: &Server,
    member: &Member,
    claim: &Claim,
    holders: &[Claim],
) -> Option<TurnAnswer>
    requires { member_of server.now.set member.now.task.c ≡ Some member.now }
    ensures { (s : Scene) → Fits s server.now → claim.now ≡ claim_of s member.now.task.c → holders.now ≡ holders_of s
        → result ≡ work_refused s member.now.task.c member.now }
{
    if member.started {
        held_back(claim, holders)
    } else {
        dormant(server, member.task.c)
    }
}

// The refusal of a command that the set keeps from starting.
fn dormant(server: &Server, c: u32) -> Option<TurnAnswer>
    requires { IsIn server.now.set c }
    ensures { result ≡ option_map TurnAnswer.Dormant (blocker_of server.now.set c) }
{
    match server.set.may_run(c) {
        Some(blocker) => Some(TurnAnswer::Dormant { blocker }),
        None => None,
    }
}

// The refusal of a started command whose next block is held.
fn held_back(claim: &Claim, holders: &[Claim]) -> Option<TurnAnswer>
    ensures { result ≡ held_back holders.now claim.now }
{
    match claim.needs {
        Some(b) => match holder_besides(holders, claim.c, b) {
            Some(by) => Some(TurnAnswer::Held { b, by }),
            None => None,
        },
        None => None,
    }
}

// Who else than a command holds a block: the oldest command that does.
fn holder_besides(holders: &[Claim], c: u32, b: Lba) -> Option<Holder>
    ensures { result ≡ holder_besides holders.now c b }
{
    holders
        .iter()
        .find(|holder| keeps_from(holder, c, b))
        .map(|holder| Holder::Command(holder.c))
}

// Whether a command keeps another from a block.
fn keeps_from(holder: &Claim, c: u32, b: Lba) -> bool
    ensures { result ≡ keeps_from c b holder.now }
{
    match holder.holds {
        Some(block) => holder.c != c && block == b,
        None => false,
    }
}
