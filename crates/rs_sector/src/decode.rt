//! The one candidate: the only word that can be a codeword in reach.
ghost use Rattle.std.specs.Prelude.{◌≡◌, ◌≤◌, ◌<◌, ℕ, List, length, slice_index};
ghost use Rattle.rs_sector.specs.Code.{point, syndromes_of};
ghost use Rattle.rs_sector.specs.Decoding.{marked, IsNearErased};
ghost use Rattle.rs_sector.specs.Places.{AddsErrors, AddsValues, ArePlaces, ListsMarked};

use crate::lanes::point_powers;
use crate::locate::{locator, suspects, without_erased};
use crate::solve::solve;

// At most 16 places of a word, of which the first `count` count.
#[derive(Drop)]
struct Places {
    list: [usize; 16],
    count: usize,
}

// The word with the errors taken out that its sums and erased places show: each codeword in reach is the result.
pub(crate) fn corrected(word: &[u8; 148], erased: &[bool; 148], sums: &[u8; 16]) -> [u8; 148]
    requires few { marked erased.now ≤ 16 }
    requires sums { sums.now ≡ syndromes_of word.now }
    ensures long { length result ≡ 148 }
    ensures in_reach { (codeword : List ℕ) → IsNearErased word.now erased.now codeword → result ≡ codeword }
{
    let rest = without_erased(sums, erased);
    let rows = (16 - count(erased)) / 2;
    let suspects = suspects(&locator(&rest, rows), erased);
    if count(&suspects) > 16 {
        return *word;
    }
    repaired(word, &suspects, sums)
}

// How many of the places are marked.
pub(crate) fn count(marks: &[bool; 148]) -> usize
    ensures { result ≡ marked marks.now }
{
    let mut count = 0;
    for marked in marks {
        if *marked {
            count += 1;
        }
    }
    count
}

// The word with the values taken out of the marked places that have these sums.
fn repaired(word: &[u8; 148], marks: &[bool; 148], sums: &[u8; 16]) -> [u8; 148]
    requires { marked marks.now ≤ 16 }
    ensures long { length result ≡ 148 }
    ensures errors { AddsErrors marks.now sums.now word.now result }
{
    let places = gathered(marks);
    let points = points_at(&places);
    let mut values = *sums;
    solve(&points[..places.count], &mut values[..places.count]);
    with_values(word, &places, &values)
}

// The marked places.
fn gathered(marks: &[bool; 148]) -> Places
    requires { marked marks.now ≤ 16 }
    ensures { ListsMarked marks.now 148 result.list result.count }
{
    let mut list = [0; 16];
    let mut count = 0;
    for (k, marked) in marks.iter().enumerate() {
        if *marked {
            list[count] = k;
            count += 1;
        }
    }
    Places { list, count }
}

// The points of the places.
fn points_at(places: &Places) -> [u8; 16]
    requires { ArePlaces 148 places.now.list places.now.count }
    ensures long { length result ≡ 16 }
    ensures points { (i : ℕ) → i < places.now.count → slice_index result i ≡ point (slice_index places.now.list i) }
{
    let mut points = [0; 16];
    for i in 0..places.count {
        points[i] = point_powers()[places.list[i]][1];
    }
    points
}

// The word with the values added at the places.
fn with_values(word: &[u8; 148], places: &Places, values: &[u8; 16]) -> [u8; 148]
    requires { ArePlaces 148 places.now.list places.now.count }
    ensures { AddsValues places.now.list values.now places.now.count word.now result }
{
    let mut sum = *word;
    for i in 0..places.count {
        sum[places.list[i]] ^= values[i];
    }
    sum
}
