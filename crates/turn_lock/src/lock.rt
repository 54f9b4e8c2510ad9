//! The lock, its passes and their calls.
ghost use Rattle.std.specs.Prelude.{◌≡◌, ℕ, ◌+◌, ◌<◌, ◌≤◌, ◌++◌, length, Some, IfOk, OnErr};
ghost use Rattle.turn_lock.specs.declared.lock.TheConstants.{PARTS};
ghost use Rattle.turn_lock.specs.Lists.{once, times};
ghost use Rattle.turn_lock.specs.Pass.{Answered, Belongs, InSeen, IsPass, Known, Met, Origin, Refused, Rests, Turn};
ghost use Rattle.turn_lock.specs.Rule.{Path};
ghost use Rattle.turn_lock.specs.TryTurn.{MatchTry};
ghost use Rattle.turn_lock.specs.View.{newcomer};

use crate::rule::{Board, Compare, Counted, Home, Passing, Place};
use crate::steps::{claim, finish, take_turn};
use crate::try_turn::TryTurn;
use crate::turned::Turned;
use disk_base::NoMemory;
use std::alloc::Global;
use std::marker::Model;
use std::snapshot::Snapshot;
use std::sync::Wait;
use std::sync::ledger::{Blank, Ledger, Share};

/// The parts of a lock's ledger. Each pass has one at least, so there are at most so many passes at a time.
pub const PARTS: u64 = 64;

/// A lock over a value, whose turns make one list.
#[derive(Drop)]
pub struct TurnLock<T: Turned, L: Ledger> {
    board: Board<T, L>,
}

impl<T: Turned, L: Ledger> Model for TurnLock<T, L> {
    ghost Value = { Origin T.Turn T.Kept };

    ghost view = { λ l. record { table = l.board.shared.table_id; kept = T.kept l.board.shared.key.value.value; turns = T.turns l.board.shared.key.value.value } };

    ghost invariant = { λ l. (l.board.shared.table_id.words ≡ 1) × (l.board.shared.table_id.slots ≡ 1) };
}

/// What one thread knows of the list, and the turns that it made. It has no bytes.
#[derive(Drop)]
pub struct Pass<T: Turned, L: Ledger> {
    seat: Place<T, L>,
    share: Share<L>,
}

impl<T: Turned, L: Ledger> Model for Pass<T, L> {
    ghost Value = { Known T.Turn T.Kept };

    ghost view = { λ p. record { table = p.seat.table_id; parts = p.share.parts; view = p.seat.me.0 } };

    ghost invariant = { λ p. IsPass p.seat.me p.share.parts p.share.amount };
}

impl<T: Turned, L: Ledger> TurnLock<T, L> {
    /// A lock over the value, and its first pass, which has all parts of the blank's ledger.
    pub fn new(
        alloc: Global,
        value: T,
        blank: Blank,
    ) -> Result<(TurnLock<T, L>, Pass<T, L>), NoMemory>
    where
        T: Drop,
        requires name { blank.name ≡ L.name }
        requires parts { (blank.parts ≡ PARTS) × (L.parts ≡ PARTS) }
        ensures lock { IfOk result (λ r. (r.0.kept ≡ T.kept value) × (r.0.turns ≡ T.turns value)) }
        ensures belongs { IfOk result (λ r. Belongs r.0 r.1) }
        ensures seen { IfOk result (λ r. r.1.view ≡ newcomer (Some r.0.kept) (length r.0.turns) r.0.turns) }
        ensures parts { IfOk result (λ r. r.1.parts ≡ PARTS) }
    {
        let count = value.count();
        let (book, share) = blank.open::<L>();
        let home = Home { value, book };
        let about = Snapshot::of(&home);
        let mut slots = Vec::new(alloc);
        slots.push(Some(home))?;
        match Board::<T, L>::new(alloc, &[2 * count], slots, &about) {
            Ok((board, seat)) => Ok((TurnLock { board }, Pass { seat, share })),
            Err(_) => Err(NoMemory),
        }
    }

    /// Makes a turn, unless another call has claimed it just then.
    #[tactic(auto, using(crate::proofs::Kept::counted_is_harmless))]
    pub fn try_turn(
        &self,
        pass: &mut Pass<T, L>,
        event: T::Event,
    ) -> Result<TryTurn<T::Answer, T::Event>, NoMemory>
        requires belongs { Belongs self.now pass.old }
        requires fits { T.fits self.now.kept event }
        ensures answered { IfOk result (λ r. MatchTry r
            (λ a. Answered (λ xs ys. T.tells self.now.kept xs event a ys) pass.old.view pass.new.view)
            (λ e. (e ≡ event) × Refused pass.old.view pass.new.view)) }
        ensures none { OnErr result (Turn pass.new.view.seen pass.old.view pass.new.view) }
        ensures belongs { Belongs self.now pass.new }
        ensures parts { pass.new.parts ≡ pass.old.parts }
    {
        let top = &self.board.shared;
        match claim::<T, L, Counted>(top, &mut pass.seat) {
            Some(home) => {
                let answer = finish(top, &mut pass.seat, &mut pass.share, home, event)?;
                Ok(TryTurn::Done(answer))
            }
            None => Ok(TryTurn::Busy(event)),
        }
    }

    /// Makes a turn. It waits until no other call has claimed it.
    pub fn turn<R: Wait>(
        &self,
        rt: &R,
        pass: &mut Pass<T, L>,
        event: T::Event,
    ) -> Result<T::Answer, NoMemory>
        requires belongs { Belongs self.now pass.old }
        requires fits { T.fits self.now.kept event }
        ensures answered { IfOk result (λ a.
            Answered (λ xs ys. T.tells self.now.kept xs event a ys) pass.old.view pass.new.view) }
        ensures none { OnErr result (Turn pass.new.view.seen pass.old.view pass.new.view) }
        ensures belongs { Belongs self.now pass.new }
        ensures parts { pass.new.parts ≡ pass.old.parts }
    {
        let top = &self.board.shared;
        let home = take_turn(rt, top, &mut pass.seat);
        finish(top, &mut pass.seat, &mut pass.share, home, event)
    }

    /// A pass that has seen as much and made no turn. It gets one part of the ledger.
    pub fn split(&self, pass: &mut Pass<T, L>) -> Pass<T, L>
        requires belongs { Belongs self.now pass.old }
        requires parts { 2 ≤ pass.old.parts }
        ensures belongs { Belongs self.now pass.new × Belongs self.now result }
        ensures same { pass.new.view ≡ pass.old.view }
        ensures new { result.view ≡ newcomer pass.old.view.kept pass.old.view.first pass.old.view.seen }
        ensures parts { (result.parts ≡ 1) × (pass.new.parts + 1 ≡ pass.old.parts) }
    {
        let seat = self.board.shared.split_seat::<Passing>(&mut pass.seat);
        Pass {
            seat,
            share: pass.share.split_off(1, 0),
        }
    }

    /// Takes in what another pass has seen and made, and its parts.
    pub fn meet(&self, pass: &mut Pass<T, L>, other: Pass<T, L>)
        requires belongs { Belongs self.now pass.old × Belongs self.now other }
        ensures met { Met pass.old.view other.view pass.new.view }
        ensures belongs { Belongs self.now pass.new }
        ensures parts { pass.new.parts ≡ pass.old.parts + other.parts }
    {
        let Pass { seat, share } = other;
        let top = &self.board.shared;
        top.join_seat::<Passing>(&mut pass.seat, seat);
        top.load::<Compare>(&mut pass.seat, 0);
        pass.share.merge(share);
    }

    /// Takes the value out for good, once no other pass is left. It waits as `turn` does.
    pub fn close<R: Wait>(self, rt: &R, pass: Pass<T, L>) -> T
    where
        T: Drop,
        requires belongs { Belongs self pass }
        requires all { pass.parts ≡ L.parts }
        ensures list { T.turns result ≡ pass.view.seen }
        ensures kept { T.kept result ≡ self.kept }
        // Each turn since the lock was made is counted once.
        ensures numbers { (x : ℕ) → times x (pass.view.mine ++ pass.view.met)
            ≡ once (length self.turns) (length (T.turns result)) x }
        // Each is a step that told what its answer tells.
        ensures path { Path (λ xs ys. (e : T.Event) × (a : T.Answer) × T.tells self.kept xs e a ys)
            (length self.turns) (T.turns result) }
    {
        let Pass {
            mut seat,
            mut share,
        } = pass;
        let home = take_turn(rt, &self.board.shared, &mut seat);
        let Home { value, mut book } = home;
        book.audit(&mut share);
        value
    }
}

impl<T: Turned, L: Ledger> Pass<T, L> {
    /// What every pass keeps between calls: it hasn't claimed the turn, its own turns rise in number, and it has seen each turn that it
    /// counts.
    pub fn rests(&self)
        ensures rests { Rests self.now.view }
        ensures in_seen { InSeen self.now.view }
        ensures parts { 0 < self.now.parts }
    {
        let _ = &self.seat;
    }
}
