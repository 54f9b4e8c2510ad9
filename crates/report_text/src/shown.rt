use disk_base::Psn;
use platter_model::{Attempt, Left, Op};

/// What a report shows of an operation: its sector, and of a read how and whether something was found.
#[derive(Clone, Copy, Debug, PartialEq, Eq)]
pub enum Shown {
    Wrote(Psn),
    Torn { p: Psn, left: Left },
    WriteFailed(Psn),
    Damaged(Psn),
    Faulty(Psn),
    Fetched { p: Psn, attempt: Attempt },
    Tried { p: Psn, stage: u8, found: bool },
    Cut,
    Power,
}

impl Shown {
    ghost use Rattle.std.specs.Prelude.{◌≡◌};
    ghost use Rattle.report_text.specs.Operations.{shown_of};

    pub fn of(op: &Op) -> Self
        ensures { result ≡ shown_of op.now }
    {
        match op {
            Op::Wrote { payload } => Shown::Wrote(payload.psn),
            Op::Torn { payload, tear } => Shown::Torn {
                p: payload.psn,
                left: tear.left,
            },
            Op::WriteFailed { p } => Shown::WriteFailed(*p),
            Op::Damaged { damage } => Shown::Damaged(damage.p),
            Op::Faulty { p } => Shown::Faulty(*p),
            Op::Fetched { p, attempt } => Shown::Fetched {
                p: *p,
                attempt: *attempt,
            },
            Op::Tried {
                p,
                stage,
                found,
                ..
            } => Shown::Tried {
                p: *p,
                stage: stage.number,
                found: found.is_some(),
            },
            Op::Cut => Shown::Cut,
            Op::Power => Shown::Power,
        }
    }
}
