//! Writes of the store that are carried out.
ghost use Rattle.std.specs.Prelude.{◌≡◌};

use sector_store::StoreAnswer;

/// A write was carried out. The power is on, no cut is armed, and no sector has a write fault.
pub fn carried_out(answer: StoreAnswer)
    requires { answer ≡ StoreAnswer.Done }
{
    match answer {
        StoreAnswer::Done => {}
        StoreAnswer::Fault | StoreAnswer::Off => unreachable!(),
    }
}
