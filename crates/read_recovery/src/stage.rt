ghost use Rattle.std.specs.Prelude.{◌≡◌, ◌+◌, ◌<◌, ◌≤◌, ◌↔◌, ℕ, IsTrue, Some, slice_get};
ghost use Rattle.read_recovery.specs.Stages.{stage, stages_of};
ghost use Rattle.read_recovery.specs.Stages as spec;

use arrayvec::ArrayVec;
use disk_base::{How, Stage};

/// The highest retry count.
pub const RETRY_MAX: u8 = 20;

/// The stages of the highest retry count.
pub const STAGES_MAX: usize = 25;

/// The stages of a retry count, in order.
pub fn stages(retry: u8) -> ArrayVec<Stage, STAGES_MAX>
    requires { retry ≤ RETRY_MAX }
    ensures { result.items ≡ stages_of retry }
{
    let mut stages = ArrayVec::new();
    for number in 0..retry + 5 {
        stages.push(stage_of(retry, number));
    }
    stages
}

/// Whether a stage is one of the two that correct more than the others.
pub fn is_heavy(stage: &Stage) -> bool
    ensures { result ≡ spec.is_heavy stage.now }
{
    stage.how != How::Light
}

// The stage of a number.
pub(crate) fn stage_of(retry: u8, number: u8) -> Stage
    requires known { retry ≤ RETRY_MAX }
    requires within { number < retry + 5 }
    ensures { slice_get (stages_of retry) number ≡ Some result }
{
    if number <= retry {
        return reread_at(number, number, 0, How::Light);
    }
    match number - retry {
        1 => reread_at(number, retry, 1, How::Light),
        2 => reread_at(number, retry, -1, How::Light),
        3 => reread_at(number, retry, 0, How::Full),
        _ => reread_at(number, retry, 0, How::Erased),
    }
}

fn reread_at(number: u8, reread: u8, offset: i8, how: How) -> Stage
    ensures { result ≡ stage number reread offset how }
{
    Stage {
        number,
        reread,
        offset,
        how,
    }
}

/// Law: of the stages of a retry count exactly the last two are heavy.
pub fn heavy_stages_are_the_last_two()
    ensures { (retry : ℕ) (number : ℕ) (s : Stage) → slice_get (stages_of retry) number ≡ Some s
        → (IsTrue (spec.is_heavy s)) ↔ (retry + 3 ≤ number) }
{}
