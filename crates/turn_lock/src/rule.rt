//! The lock's table: its rule, and what each kind of step tells.
use crate::turned::Turned;
use crate::view::View;
use atomic_table::{Join, Play, Seat, Shared, Split, Table, TableRule};
use std::alloc::Global;
use std::marker::PhantomData;
use std::snapshot::Snapshot;
use std::sync::ledger::{Book, Ledger};

/// What lies in the slot: the value, with the book that counts the turns since the lock was made.
#[derive(Drop)]
pub struct Home<T: Turned, L: Ledger> {
    pub value: T,
    pub book: Book<L>,
}

pub struct InTurn;

impl<T: Turned, L: Ledger> TableRule<
    Option<Home<T, L>>,
    View<T::Turn, T::Kept>,
    Snapshot<Home<T, L>>,
> for InTurn {
    ghost use Rattle.turn_lock.specs.Rule.{IsInTurn, meaning_of, start};

    ghost holds = { λ _ s. IsInTurn (meaning_of (λ h. h.value) (λ h. h.book.total) T.turns T.kept T.tells) s };

    ghost first = { λ key. start (meaning_of (λ h. h.value) (λ h. h.book.total) T.turns T.kept T.tells) key.value };
}

// What a claim makes of the view V where the turn is another's.
pub(crate) trait Refusal<V> {
    ghost refuse: { V → V };
}

// Nothing.
pub(crate) struct Quiet;

impl<U, K> Refusal<View<U, K>> for Quiet {
    ghost refuse = { λ v. v };
}

// It counts the refusal.
pub(crate) struct Counted;

impl<U, K> Refusal<View<U, K>> for Counted {
    ghost use Rattle.turn_lock.specs.View.{refused_once};

    ghost refuse = { refused_once };
}

pub(crate) struct Claim<R> {
    marker: PhantomData<R>,
}

impl<T: Turned, L: Ledger, R: Refusal<View<T::Turn, T::Kept>>> Play<
    Option<Home<T, L>>,
    View<T::Turn, T::Kept>,
> for Claim<R> {
    ghost use Rattle.turn_lock.specs.Rule.{Claims, meaning_of};

    ghost then = { Claims (meaning_of (λ h. h.value) (λ h. h.book.total) T.turns T.kept T.tells) R.refuse };
}

pub(crate) struct Release;

impl<T: Turned, L: Ledger> Play<Option<Home<T, L>>, View<T::Turn, T::Kept>> for Release {
    ghost use Rattle.turn_lock.specs.Rule.{Releases, meaning_of};

    ghost then = { Releases (meaning_of (λ h. h.value) (λ h. h.book.total) T.turns T.kept T.tells) };
}

pub(crate) struct Compare;

impl<T: Turned, L: Ledger> Play<Option<Home<T, L>>, View<T::Turn, T::Kept>> for Compare {
    ghost use Rattle.turn_lock.specs.Rule.{Compares, meaning_of};

    ghost then = { Compares (meaning_of (λ h. h.value) (λ h. h.book.total) T.turns T.kept T.tells) };
}

// How passes are split and joined.
pub(crate) struct Passing;

impl<U, K> Split<View<U, K>> for Passing {
    ghost use Rattle.turn_lock.specs.View.{newcomer};

    ghost left = { λ v. v };

    ghost right = { λ v. newcomer v.kept v.first v.seen };
}

impl<U, K> Join<View<U, K>> for Passing {
    ghost use Rattle.turn_lock.specs.View.{nobody, joined};

    ghost both = { joined };

    ghost spent = { nobody };
}

pub(crate) type Board<T, L> = Table<
    Option<Home<T, L>>,
    View<<T as Turned>::Turn, <T as Turned>::Kept>,
    Snapshot<Home<T, L>>,
    InTurn,
    Global,
>;

pub(crate) type Top<T, L> = Shared<
    Option<Home<T, L>>,
    View<<T as Turned>::Turn, <T as Turned>::Kept>,
    Snapshot<Home<T, L>>,
    InTurn,
>;

pub(crate) type Place<T, L> = Seat<
    Option<Home<T, L>>,
    View<<T as Turned>::Turn, <T as Turned>::Kept>,
>;
