use arrayvec::ArrayVec;
use disk_base::Initiator;
use sense_data::{Reply, Sense};

/// The most bytes of data that the desk gives: a header, and eight keys.
pub const PAGE_LENGTH_MAX: usize = 72;

/// By which rule a command is answered at the desk.
#[derive(Clone, Copy, Debug, PartialEq, Eq)]
pub enum Rule {
    /// A unit attention condition waits for the initiator.
    Attention,
    /// A field of the command or of its parameter list is refused.
    Field,
    /// READ KEYS.
    Keys,
    /// READ RESERVATION.
    Reservation,
    /// REGISTER, or REGISTER AND IGNORE EXISTING KEY.
    Register,
    Reserve,
    Release,
    Clear,
    Preempt,
    /// The reservation key isn't the one that the action needs.
    DenyKey,
    /// The unit is held, with a type of this number.
    DenyHolder { holder: Initiator, kind: u8 },
}

/// What the desk says of a command that arrives.
#[derive(Debug, Drop)]
pub enum Verdict {
    /// The drive is to serve it.
    Admit,
    /// The desk answers it, with data where the page has bytes.
    Answered {
        rule: Rule,
        reply: Reply,
        page: ArrayVec<u8, PAGE_LENGTH_MAX>,
    },
}

impl Verdict {
    ghost use Rattle.std.specs.Prelude.{◌≡◌};
    ghost use Rattle.reservations.specs.Verdicts.{denied, done, refused, told};

    /// It ends GOOD, without data.
    pub fn done(rule: Rule) -> Self
        ensures { result ≡ done rule }
    {
        Verdict::Answered {
            rule,
            reply: Reply::good(),
            page: ArrayVec::new(),
        }
    }

    /// A field is refused.
    pub fn refused(sense: Sense) -> Self
        ensures { result ≡ refused sense }
    {
        Verdict::Answered {
            rule: Rule::Field,
            reply: Reply::check_condition(sense),
            page: ArrayVec::new(),
        }
    }

    /// A waiting attention is told.
    pub fn told(sense: Sense) -> Self
        ensures { result ≡ told sense }
    {
        Verdict::Answered {
            rule: Rule::Attention,
            reply: Reply::check_condition(sense),
            page: ArrayVec::new(),
        }
    }

    /// The reservation keeps it out.
    pub fn denied(rule: Rule) -> Self
        ensures { result ≡ denied rule }
    {
        Verdict::Answered {
            rule,
            reply: Reply::reservation_conflict(),
            page: ArrayVec::new(),
        }
    }
}
