//! Turns of a value whose step does nothing, by one thread or by several.
ghost use Rattle.std.specs.Prelude.{◌≡◌, ◌<◌, All, [], IfOk};
ghost use Rattle.turn_lock.specs.declared.lock.TheConstants.{PARTS};
ghost use Rattle.turn_lock.specs.Pass.{Belongs};

use disk_base::NoMemory;
use std::alloc::Global;
use std::marker::Brand;
use std::sync::Wait;
use std::sync::ledger::{Blank, Ledger};
use std::thread;
use std::thread::Threads;
use turn_lock::{PARTS, Pass, TurnLock, Turned};

// It answers the event, and has no turns.
#[derive(Drop)]
struct Echo;

impl Turned for Echo {
    type Event = u64;

    type Answer = u64;

    type Turn = u64;

    type Kept = u64;

    ghost turns = { λ _. [] };

    ghost kept = { λ _. 0 };

    ghost fits = { λ _ _. Unit {0} };

    ghost tells = { λ _ _ _ _ _. Unit {0} };

    fn step(&mut self, event: u64) -> Result<u64, NoMemory> {
        Ok(event)
    }

    fn count(&self) -> u64 {
        0
    }
}

/// The sum of all answers, where each of so many threads makes so many turns. One thread is the caller's own.
pub fn run<R: Threads + Wait + Sync>(
    rt: &R,
    alloc: Global,
    threads: u64,
    turns: u32,
) -> Result<u64, NoMemory> {
    make_all::<Brand, R>(rt, alloc, Blank::new(PARTS), threads.min(PARTS - 1), turns)
}

fn make_all<L: Ledger + Send + Sync, R: Threads + Wait + Sync>(
    rt: &R,
    alloc: Global,
    blank: Blank,
    threads: u64,
    turns: u32,
) -> Result<u64, NoMemory>
    requires name { blank.name ≡ L.name }
    requires parts { (blank.parts ≡ PARTS) × (L.parts ≡ PARTS) }
    requires few { threads < PARTS }
{
    let (lock, mut first) = TurnLock::<Echo, L>::new(alloc, Echo, blank)?;
    if threads == 1 {
        return make(rt, &lock, first, turns);
    }
    let passes = split_all(alloc, &lock, &mut first, threads)?;
    let shared = &lock;
    let answers = thread::map_vec(
        rt,
        passes,
        &|pass| -> Result<u64, NoMemory>
            requires { Belongs shared.now pass }
        { make(rt, shared, pass, turns) },
    )?;
    let mut sum = 0u64;
    for answer in answers {
        sum = sum.wrapping_add(answer?);
    }
    Ok(sum)
}

fn split_all<L: Ledger>(
    alloc: Global,
    lock: &TurnLock<Echo, L>,
    pass: &mut Pass<Echo, L>,
    passes: u64,
) -> Result<Vec<Pass<Echo, L>>, NoMemory>
    requires belongs { Belongs lock.now pass.old }
    requires parts { passes < pass.old.parts }
    ensures { IfOk result (λ ps. All (Belongs lock.now) ps.items) }
{
    let mut all = Vec::new(alloc);
    for _ in 0..passes {
        let one = lock.split(pass);
        all.push(one)?;
    }
    Ok(all)
}

fn make<L: Ledger, R: Wait>(
    rt: &R,
    lock: &TurnLock<Echo, L>,
    mut pass: Pass<Echo, L>,
    turns: u32,
) -> Result<u64, NoMemory>
    requires { Belongs lock.now pass }
{
    let mut sum = 0u64;
    for k in 0..turns {
        sum = sum.wrapping_add(lock.turn(rt, &mut pass, u64::from(k))?);
    }
    Ok(sum)
}
