//! What a call does with the table: claim and take, and then give back and release.
ghost use Rattle.std.specs.Prelude.{◌≡◌, ◌⊎◌, ◌+◌, ◌<◌, [], ◌∷◌, length, Some, None, IfOk, IfSome, IfNone, OnErr};
ghost use Rattle.turn_lock.specs.Lists.{Follows, gained};
ghost use Rattle.turn_lock.specs.Rule.{Comes, IsOf, meaning_of};
ghost use Rattle.turn_lock.specs.View.{IsHarmless, settled, with_had};

use crate::rule::{Claim, Home, Place, Quiet, Refusal, Release, Top};
use crate::turned::Turned;
use crate::view::View;
use disk_base::NoMemory;
use std::sync::Wait;
use std::sync::ledger::{Book, Ledger, Share};
use std::thread;

// Claims the turn and takes the value. Where the turn is another's, only the refusal R happens to the view.
pub(crate) fn claim<T: Turned, L: Ledger, R: Refusal<View<T::Turn, T::Kept>>>(
    top: &Top<T, L>,
    seat: &mut Place<T, L>,
) -> Option<Home<T, L>>
    requires table { IsOf top.now.table_id seat.old.table_id }
    requires free { (seat.old.me.1 ≡ []) × (seat.old.me.0.had ≡ None) }
    requires harmless { IsHarmless R.refuse }
    ensures same { (seat.new.table_id ≡ seat.old.table_id) × (seat.new.id ≡ seat.old.id) }
    ensures some { IfSome result (λ h. (seat.new.me ≡ (with_had (T.turns h.value) seat.old.me.0, (0, None) ∷ [])) × Comes (meaning_of (λ h. h.value) (λ h. h.book.total) T.turns T.kept T.tells) seat.old.me.0 h) }
    ensures none { IfNone result (seat.new.me ≡ (R.refuse seat.old.me.0, seat.old.me.1)) }
{
    let found = top.fetch_or::<Claim<R>>(seat, 0, 1);
    if found % 2 == 0 {
        top.exchange(seat, 0, None)
    } else {
        None
    }
}

// Claims the turn until it is this caller's.
#[tactic(auto, using(crate::proofs::Kept::quiet_is_harmless))]
pub(crate) fn take_turn<T: Turned, L: Ledger, R: Wait>(
    rt: &R,
    top: &Top<T, L>,
    seat: &mut Place<T, L>,
) -> Home<T, L>
    requires table { IsOf top.now.table_id seat.old.table_id }
    requires free { (seat.old.me.1 ≡ []) × (seat.old.me.0.had ≡ None) }
    ensures same { (seat.new.table_id ≡ seat.old.table_id) × (seat.new.id ≡ seat.old.id) }
    ensures seat { seat.new.me ≡ (with_had (T.turns result.value) seat.old.me.0, (0, None) ∷ []) }
    ensures home { Comes (meaning_of (λ h. h.value) (λ h. h.book.total) T.turns T.kept T.tells) seat.old.me.0 result }
{
    for _ in rt.forever() {
        if let Some(home) = claim::<T, L, Quiet>(top, seat) {
            return home;
        }
        thread::yield_now();
    }
    unreachable!()
}

// One more for the book and the share, where the list became longer.
pub(crate) fn note<L: Ledger>(book: &mut Book<L>, share: &mut Share<L>, before: u64, after: u64)
    requires part { 0 < share.old.parts }
    requires one { (after ≡ before) ⊎ (after ≡ before + 1) }
    ensures total { book.new.total + before ≡ book.old.total + after }
    ensures amount { share.new.amount + before ≡ share.old.amount + after }
    ensures parts { share.new.parts ≡ share.old.parts }
{
    if before < after {
        book.add(share, 1);
    }
}

// Makes the step under the claim, gives the value back and releases the turn.
pub(crate) fn finish<T: Turned, L: Ledger>(
    top: &Top<T, L>,
    seat: &mut Place<T, L>,
    share: &mut Share<L>,
    home: Home<T, L>,
    event: T::Event,
) -> Result<T::Answer, NoMemory>
    requires table { IsOf top.now.table_id seat.old.table_id }
    requires seat { (seat.old.me.1 ≡ (0, None) ∷ []) × (seat.old.me.0.had ≡ Some (T.turns home.value)) }
    requires knows { (seat.old.me.0.kept ≡ Some (T.kept home.value)) × (home.book.total + seat.old.me.0.first ≡ length (T.turns home.value)) }
    requires part { 0 < share.old.parts }
    requires fits { T.fits (T.kept home.value) event }
    ensures same { (seat.new.table_id ≡ seat.old.table_id) × (seat.new.id ≡ seat.old.id) × (share.new.parts ≡ share.old.parts) }
    ensures seat { seat.new.me ≡ (settled seat.new.me.0.seen seat.old.me.0, []) }
    ensures list { Follows (T.turns home.value) seat.new.me.0.seen }
    ensures share { share.new.amount ≡ share.old.amount + length (gained (Some (T.turns home.value)) seat.new.me.0.seen) }
    ensures tells { IfOk result (λ a. T.tells (T.kept home.value) (T.turns home.value) event a seat.new.me.0.seen) }
    ensures none { OnErr result (seat.new.me.0.seen ≡ T.turns home.value) }
{
    let Home {
        mut value,
        mut book,
    } = home;
    let before = value.count();
    let answer = value.step(event);
    let after = value.count();
    note(&mut book, share, before, after);
    let empty = top.exchange(seat, 0, Some(Home { value, book }));
    let None = empty else { unreachable!() };
    top.swap::<Release>(seat, 0, 2 * after);
    answer
}
