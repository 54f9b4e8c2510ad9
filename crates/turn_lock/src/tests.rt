//! Two values behind the lock: a tape, whose list is its events, and one whose step waits for a flag.
ghost use Rattle.std.specs.Prelude.{◌≡◌, ◌+◌, ◌^◌, ◌<◌, ◌≤◌, All, [], ◌∷◌, ◌++◌, length, IfOk, OnOk};
ghost use Rattle.turn_lock.specs.declared.lock.TheConstants.{PARTS};
ghost use Rattle.turn_lock.specs.Pass.{Belongs};

use crate::{PARTS, Pass, TryTurn, TurnLock, Turned};
use disk_base::NoMemory;
use std::alloc::Global;
use std::marker::Brand;
use std::sync::atomic::{AtomicU64, Ordering};
use std::sync::ledger::{Blank, Ledger};
use std::sync::{Arc, Wait};
use std::test::Fail;
use std::thread;
use std::thread::Threads;

const LONGEST: usize = 1_000_000;

const LOOKS: u32 = 10_000_000;

// Event 0 stands for a step that wants memory.
#[derive(Drop)]
struct Tape {
    events: Vec<u64>,
    bound: u64,
    ghost short: { length events.items < 2 ^ 62 },
}

impl Turned for Tape {
    type Event = u64;

    // The turn's number.
    type Answer = u64;

    type Turn = u64;

    type Kept = u64;

    ghost turns = { λ t. t.events.items };

    ghost kept = { λ t. t.bound };

    ghost fits = { λ bound e. e < bound };

    ghost tells = { λ bound before e n after. (after ≡ before ++ e ∷ []) × (n ≡ length after) };

    fn step(&mut self, event: u64) -> Result<u64, NoMemory> {
        if event == 0 || self.events.len() >= LONGEST {
            return Err(NoMemory);
        }
        self.events.push(event)?;
        Ok(self.events.len() as u64)
    }

    fn count(&self) -> u64 {
        self.events.len() as u64
    }
}

fn blank_tape(alloc: Global) -> Tape
    ensures { (result.events.items ≡ []) × (result.bound ≡ 10) }
{
    Tape {
        events: Vec::new(alloc),
        bound: 10,
    }
}

// Two turns.
fn make_two<L: Ledger, R: Wait>(
    rt: &R,
    lock: &TurnLock<Tape, L>,
    mut pass: Pass<Tape, L>,
    one: u64,
    two: u64,
) -> Result<Pass<Tape, L>, NoMemory>
    requires belongs { Belongs lock.now pass }
    requires fits { (one < lock.now.kept) × (two < lock.now.kept) }
    ensures { IfOk result (λ p. Belongs lock.now p × (p.parts ≡ pass.parts)) }
{
    lock.turn(rt, &mut pass, one)?;
    lock.turn(rt, &mut pass, two)?;
    Ok(pass)
}

// Two threads make two turns each.
fn make_four<L: Ledger + Send + Sync, R: Threads + Wait + Sync>(
    rt: &R,
    alloc: Global,
    blank: Blank,
) -> Result<Tape, NoMemory>
    requires name { blank.name ≡ L.name }
    requires parts { (blank.parts ≡ PARTS) × (L.parts ≡ PARTS) }
{
    let (lock, mut first) = TurnLock::<Tape, L>::new(alloc, blank_tape(alloc), blank)?;
    let one = lock.split(&mut first);
    let two = lock.split(&mut first);
    let shared = &lock;
    let (one, two) = thread::join(
        rt,
        move || -> Result<Pass<Tape, L>, NoMemory>
            requires { Belongs shared.now one × (shared.now.kept ≡ 10) × (one.parts ≡ 1) }
            ensures { IfOk result (λ p. Belongs shared.entry.now p × (p.parts ≡ 1)) }
        { make_two(rt, shared, one, 1, 2) },
        move || -> Result<Pass<Tape, L>, NoMemory>
            requires { Belongs shared.now two × (shared.now.kept ≡ 10) × (two.parts ≡ 1) }
            ensures { IfOk result (λ p. Belongs shared.entry.now p × (p.parts ≡ 1)) }
        { make_two(rt, shared, two, 3, 4) },
    );
    lock.meet(&mut first, one?);
    lock.meet(&mut first, two?);
    Ok(lock.close(rt, first))
}

fn four_made<R: Threads + Wait + Sync>(rt: &R, alloc: Global) -> Result<Tape, NoMemory> {
    make_four::<Brand, R>(rt, alloc, Blank::new(PARTS))
}

#[test]
fn two_threads_make_two_turns_each(rt: HostRuntime) -> Result<(), Fail> {
    let tape = four_made(&rt, rt.alloc()).map_err(|_| Fail::from("no memory"))?;
    let mut events = tape.events;
    assert!(rt; events.iter().position(|&e| e == 1) < events.iter().position(|&e| e == 2));
    assert!(rt; events.iter().position(|&e| e == 3) < events.iter().position(|&e| e == 4));
    events.sort()?;
    assert!(rt; events.as_slice() == [1, 2, 3, 4].as_slice());
    Ok(())
}

// A turn, a step that wants memory, and another turn: the numbers of the two turns.
fn go_on<L: Ledger>(alloc: Global, blank: Blank) -> Result<(u64, u64), NoMemory>
    requires name { blank.name ≡ L.name }
    requires parts { (blank.parts ≡ PARTS) × (L.parts ≡ PARTS) }
{
    let (lock, mut pass) = TurnLock::<Tape, L>::new(alloc, blank_tape(alloc), blank)?;
    let first = lock.try_turn(&mut pass, 1)?;
    if lock.try_turn(&mut pass, 0).is_ok() {
        return Err(NoMemory);
    }
    let second = lock.try_turn(&mut pass, 2)?;
    match (first, second) {
        (TryTurn::Done(first), TryTurn::Done(second)) => Ok((first, second)),
        _ => Err(NoMemory),
    }
}

fn gone_on(alloc: Global) -> Result<(u64, u64), NoMemory> {
    go_on::<Brand>(alloc, Blank::new(PARTS))
}

#[test]
fn the_lock_goes_on_after_want_of_memory(rt: HostRuntime) -> Result<(), Fail> {
    let numbers = gone_on(rt.alloc()).map_err(|_| Fail::from("no memory"))?;
    assert!(rt; numbers == (1, 2));
    Ok(())
}

// Splits off so many passes, makes a turn with each, and meets them.
fn make_by<L: Ledger, R: Wait>(
    rt: &R,
    lock: &TurnLock<Tape, L>,
    pass: &mut Pass<Tape, L>,
    passes: u64,
) -> Result<(), NoMemory>
    requires belongs { Belongs lock.now pass.old × (lock.now.kept ≡ 10) }
    requires parts { passes < pass.old.parts }
    ensures belongs { Belongs lock.now pass.new }
    ensures parts { OnOk result (pass.new.parts ≡ pass.old.parts) }
{
    if passes == 0 {
        return Ok(());
    }
    let mut other = lock.split(pass);
    lock.turn(rt, &mut other, passes % 9 + 1)?;
    make_by(rt, lock, pass, passes - 1)?;
    lock.meet(pass, other);
    Ok(())
}

fn make_by_all<L: Ledger, R: Wait>(rt: &R, alloc: Global, blank: Blank) -> Result<Tape, NoMemory>
    requires name { blank.name ≡ L.name }
    requires parts { (blank.parts ≡ PARTS) × (L.parts ≡ PARTS) }
{
    let (lock, mut pass) = TurnLock::<Tape, L>::new(alloc, blank_tape(alloc), blank)?;
    make_by(rt, &lock, &mut pass, PARTS - 1)?;
    Ok(lock.close(rt, pass))
}

fn made_by_all<R: Wait>(rt: &R, alloc: Global) -> Result<Tape, NoMemory> {
    make_by_all::<Brand, R>(rt, alloc, Blank::new(PARTS))
}

#[test]
fn sixty_three_passes_are_split_off_and_meet(rt: HostRuntime) -> Result<(), Fail> {
    let tape = made_by_all(&rt, rt.alloc()).map_err(|_| Fail::from("no memory"))?;
    assert_eq!(rt; tape.events.len(), 63);
    Ok(())
}

// Makes so many turns, and gives their numbers.
fn make_many<L: Ledger, R: Wait>(
    rt: &R,
    alloc: Global,
    lock: &TurnLock<Tape, L>,
    mut pass: Pass<Tape, L>,
    turns: u32,
) -> Result<Vec<u64>, NoMemory>
    requires belongs { Belongs lock.now pass × (lock.now.kept ≡ 10) }
{
    let mut numbers = Vec::new(alloc);
    for _ in 0..turns {
        numbers.push(lock.turn(rt, &mut pass, 1)?)?;
    }
    Ok(numbers)
}

fn split_all<L: Ledger>(
    alloc: Global,
    lock: &TurnLock<Tape, L>,
    pass: &mut Pass<Tape, L>,
    passes: u64,
) -> Result<Vec<Pass<Tape, L>>, NoMemory>
    requires belongs { Belongs lock.now pass.old × (lock.now.kept ≡ 10) }
    requires parts { passes < pass.old.parts }
    ensures { IfOk result (λ ps. All (λ p. Belongs lock.now p × (lock.now.kept ≡ 10)) ps.items) }
{
    let mut all = Vec::new(alloc);
    for _ in 0..passes {
        let one = lock.split(pass);
        all.push(one)?;
    }
    Ok(all)
}

// Each of eight threads makes so many turns, and gives their numbers.
fn make_by_eight<L: Ledger + Send + Sync, R: Threads + Wait + Sync>(
    rt: &R,
    alloc: Global,
    blank: Blank,
    turns: u32,
) -> Result<Vec<Result<Vec<u64>, NoMemory>>, NoMemory>
    requires name { blank.name ≡ L.name }
    requires parts { (blank.parts ≡ PARTS) × (L.parts ≡ PARTS) }
{
    let (lock, mut first) = TurnLock::<Tape, L>::new(alloc, blank_tape(alloc), blank)?;
    let passes = split_all(alloc, &lock, &mut first, 8)?;
    let shared = &lock;
    Ok(thread::map_vec(
        rt,
        passes,
        &|pass| -> Result<Vec<u64>, NoMemory>
            requires { Belongs shared.now pass × (shared.now.kept ≡ 10) }
        { make_many(rt, alloc, shared, pass, turns) },
    )?)
}

fn made_by_eight<R: Threads + Wait + Sync>(
    rt: &R,
    alloc: Global,
    turns: u32,
) -> Result<Vec<Result<Vec<u64>, NoMemory>>, NoMemory> {
    make_by_eight::<Brand, R>(rt, alloc, Blank::new(PARTS), turns)
}

#[test]
fn turns_of_eight_threads_have_each_number_once(rt: HostRuntime) -> Result<(), Fail> {
    let made = made_by_eight(&rt, rt.alloc(), 12_500).map_err(|_| Fail::from("no memory"))?;
    let mut all = Vec::new(rt.alloc());
    for numbers in made {
        for number in numbers.map_err(|_| Fail::from("no memory"))? {
            all.push(number)?;
        }
    }
    all.sort()?;
    let mut last = 0u64;
    for &number in all.iter() {
        assert!(rt; number == last.wrapping_add(1));
        last = number;
    }
    assert_eq!(rt; last, 100_000);
    Ok(())
}

// Its step sets bit 0 of the flags and looks for bit 1. It has no turns.
#[derive(Drop)]
struct Slow {
    flags: Arc<AtomicU64>,
}

impl Turned for Slow {
    type Event = u64;

    // Whether the bit came.
    type Answer = bool;

    type Turn = u64;

    type Kept = u64;

    ghost turns = { λ _. [] };

    ghost kept = { λ _. 0 };

    ghost fits = { λ _ _. Unit {0} };

    ghost tells = { λ _ _ _ _ _. Unit {0} };

    fn step(&mut self, _event: u64) -> Result<bool, NoMemory> {
        self.flags.fetch_or(1, Ordering::SeqCst);
        Ok(is_set(&self.flags, 2))
    }

    fn count(&self) -> u64 {
        0
    }
}

// Whether the bit is set, or is soon.
fn is_set(flags: &AtomicU64, bit: u64) -> bool {
    for _ in 0..LOOKS {
        if flags.load(Ordering::SeqCst) & bit != 0 {
            return true;
        }
        thread::yield_now();
    }
    false
}

// Tries while the other thread's step looks for the flag, sets it, and tries again: what came of the first try, and whether one
// was done later.
fn try_twice<L: Ledger>(
    lock: &TurnLock<Slow, L>,
    mut pass: Pass<Slow, L>,
    flags: &AtomicU64,
) -> (Result<TryTurn<bool, u64>, NoMemory>, bool)
    requires { Belongs lock.now pass }
{
    is_set(flags, 1);
    let first = lock.try_turn(&mut pass, 7);
    flags.fetch_or(2, Ordering::SeqCst);
    for _ in 0..LOOKS {
        if let Ok(TryTurn::Done(_)) = lock.try_turn(&mut pass, 8) {
            return (first, true);
        }
        thread::yield_now();
    }
    (first, false)
}

fn make_one<L: Ledger, R: Wait>(rt: &R, lock: &TurnLock<Slow, L>, mut pass: Pass<Slow, L>) -> bool
    requires { Belongs lock.now pass }
{
    matches!(lock.turn(rt, &mut pass, 1), Ok(true))
}

fn contend<L: Ledger + Send + Sync, R: Threads + Wait + Sync>(
    rt: &R,
    alloc: Global,
    blank: Blank,
) -> Result<(bool, (Result<TryTurn<bool, u64>, NoMemory>, bool)), NoMemory>
    requires name { blank.name ≡ L.name }
    requires parts { (blank.parts ≡ PARTS) × (L.parts ≡ PARTS) }
{
    let mine = Arc::new(alloc, AtomicU64::new(0))?;
    let flags = Arc::try_clone(&mine)?;
    let (lock, mut first) = TurnLock::<Slow, L>::new(alloc, Slow { flags }, blank)?;
    let one = lock.split(&mut first);
    let two = lock.split(&mut first);
    let shared = &lock;
    let seen: &AtomicU64 = &mine;
    Ok(thread::join(
        rt,
        move || -> bool
            requires { Belongs shared.now one }
        { make_one(rt, shared, one) },
        move || -> (Result<TryTurn<bool, u64>, NoMemory>, bool)
            requires { Belongs shared.now two }
        { try_twice(shared, two, seen) },
    ))
}

fn contended<R: Threads + Wait + Sync>(
    rt: &R,
    alloc: Global,
) -> Result<(bool, (Result<TryTurn<bool, u64>, NoMemory>, bool)), NoMemory> {
    contend::<Brand, R>(rt, alloc, Blank::new(PARTS))
}

#[test]
fn a_try_is_busy_while_another_step_goes_on(rt: HostRuntime) -> Result<(), Fail> {
    let (made, (tried, done)) = contended(&rt, rt.alloc()).map_err(|_| Fail::from("no memory"))?;
    assert!(rt; made && done);
    assert!(rt; matches!(&tried, Ok(TryTurn::Busy(7))));
    Ok(())
}
