ghost use Rattle.std.specs.Prelude.{◌≡◌, ◌+◌, ◌≤◌, ◌++◌, length, take};
ghost use Rattle.arrayvec.specs.ArrayVec.{array_vec_len};
ghost use Rattle.reservations.specs.Judged.{judged_in};
ghost use Rattle.reservations.specs.Pages.{keys_page, registered_keys, reservation_page};

use crate::request::{allocation, has_naca, service_action};
use crate::state::{State, place_of};
use crate::verdict::{PAGE_LENGTH_MAX, Rule, Verdict};
use arrayvec::ArrayVec;
use sense_data::codes::INVALID_FIELD_IN_CDB;
use sense_data::{INITIATORS, Reply};

type Page = ArrayVec<u8, PAGE_LENGTH_MAX>;

/// What a PERSISTENT RESERVE IN is answered.
pub fn show(state: &State, cdb: &[u8]) -> Verdict
    ensures { result ≡ judged_in state.now cdb.now }
{
    let action = service_action(cdb);
    if has_naca(cdb) || action > 1 {
        return Verdict::refused(INVALID_FIELD_IN_CDB);
    }
    let (rule, mut page) = if action == 0 {
        (Rule::Keys, keys_page(state))
    } else {
        (Rule::Reservation, reservation_page(state))
    };
    page.truncate(allocation(cdb) as usize);
    Verdict::Answered {
        rule,
        reply: Reply::good(),
        page,
    }
}

// The generation, how many bytes of keys follow, and the keys.
fn keys_page(state: &State) -> Page
    ensures { result.items ≡ keys_page state.now }
{
    let keys = registered_keys(&state.keys);
    let mut page = ArrayVec::new();
    put(&mut page, &state.generation.to_be_bytes());
    put(&mut page, &(8 * keys.len() as u32).to_be_bytes());
    for key in keys.as_slice() {
        put(&mut page, &key.to_be_bytes());
    }
    page
}

// The generation, and the reservation where there is one.
fn reservation_page(state: &State) -> Page
    ensures { result.items ≡ reservation_page state.now }
{
    let mut page = ArrayVec::new();
    put(&mut page, &state.generation.to_be_bytes());
    if let Some(holder) = state.holder {
        let key = state.keys[place_of(holder.initiator)];
        put(&mut page, &[0, 0, 0, 16]);
        put(&mut page, &key.to_be_bytes());
        put(&mut page, &[0, 0, 0, 0, 0, holder.kind, 0, 0]);
    } else {
        put(&mut page, &[0; 4]);
    }
    page
}

// The keys of those that are registered, by initiator.
fn registered_keys(keys: &[u64; INITIATORS]) -> ArrayVec<u64, INITIATORS>
    ensures { result.items ≡ registered_keys keys.now }
{
    let mut registered = ArrayVec::new();
    for key in keys {
        if *key != 0 {
            registered.push(*key);
        }
    }
    registered
}

// Adds bytes at the end.
fn put(page: &mut Page, bytes: &[u8])
    requires { array_vec_len page.old + length bytes.now ≤ PAGE_LENGTH_MAX }
    ensures { page.new.items ≡ page.old.items ++ bytes.now }
{
    let _ = page.try_extend_from_slice(bytes);
}
