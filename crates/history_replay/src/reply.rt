//! Replies and when two of them are one.
ghost use Rattle.std.specs.Prelude.{◌≡◌, ◌==◌, nat_eq, Some};
ghost use Rattle.std.specs.Option.{option_eq};
ghost use Rattle.cdb_reader.specs.Replies.{good, check_condition, medium_error, unrecovered_read, no_spare, same_sense, same_reply, is_write_error, is_recovered};

use sense_data::codes::{
    NO_DEFECT_SPARE, RECOVERED_ERROR, UNRECOVERED_READ_ERROR, WRITE_ERROR,
    WRITE_ERROR_REALLOCATION_FAILED,
};
use sense_data::{CHECK_CONDITION, Reply, Sense};

pub fn same_reply(r: &Reply, s: &Reply) -> bool
    ensures { result ≡ same_reply r.now s.now }
{
    r.status == s.status
        && match (r.sense, s.sense) {
            (Some(a), Some(b)) => same_sense(&a, &b),
            (None, None) => true,
            (Some(_), None) | (None, Some(_)) => false,
        }
}

/// GOOD.
pub fn is_good(reply: &Reply) -> bool
    ensures { result ≡ same_reply reply.now good }
{
    reply.status == 0 && reply.sense.is_none()
}

/// UNRECOVERED READ ERROR at a block.
pub fn is_unrecovered_read(b: u64, reply: &Reply) -> bool
    ensures { result ≡ same_reply reply.now (unrecovered_read b) }
{
    is_at(b, &UNRECOVERED_READ_ERROR, reply)
}

/// WRITE ERROR at a block, without or with AUTO REALLOCATION FAILED.
pub fn is_write_error(b: u64, reply: &Reply) -> bool
    ensures { result ≡ is_write_error b reply.now }
{
    is_at(b, &WRITE_ERROR, reply) || is_at(b, &WRITE_ERROR_REALLOCATION_FAILED, reply)
}

/// NO DEFECT SPARE LOCATION AVAILABLE, which names this block.
pub fn is_no_spare(b: u64, reply: &Reply) -> bool
    ensures { result ≡ same_reply reply.now (no_spare b) }
{
    reply.status == CHECK_CONDITION
        && match reply.sense {
            Some(sense) => {
                sense.key == NO_DEFECT_SPARE.key
                    && sense.information.is_none()
                    && specifies(&sense, b)
                    && sense.asc == NO_DEFECT_SPARE.asc
                    && sense.ascq == NO_DEFECT_SPARE.ascq
            }
            None => false,
        }
}

/// RECOVERED ERROR.
pub fn is_recovered(reply: &Reply) -> bool
    ensures { result ≡ is_recovered reply.now }
{
    reply.status == CHECK_CONDITION
        && match reply.sense {
            Some(sense) => sense.key == RECOVERED_ERROR,
            None => false,
        }
}

// CHECK CONDITION with these sense data at a block.
fn is_at(b: u64, codes: &Sense, reply: &Reply) -> bool
    ensures { result ≡ same_reply reply.now (check_condition (record codes.now { information = Some b })) }
{
    reply.status == CHECK_CONDITION
        && match reply.sense {
            Some(sense) => {
                sense.key == codes.key
                    && names(&sense, b)
                    && sense.specific == codes.specific
                    && sense.asc == codes.asc
                    && sense.ascq == codes.ascq
            }
            None => false,
        }
}

// Whether sense data name this block.
fn names(sense: &Sense, b: u64) -> bool
    ensures { result ≡ option_eq nat_eq sense.now.information (Some b) }
{
    match sense.information {
        Some(named) => named as u64 == b,
        None => false,
    }
}

// Whether sense data have this number as command-specific information.
fn specifies(sense: &Sense, b: u64) -> bool
    ensures { result ≡ (sense.now.specific == b) }
{
    sense.specific as u64 == b
}

fn same_sense(s: &Sense, t: &Sense) -> bool
    ensures { result ≡ same_sense s.now t.now }
{
    s.key == t.key
        && s.information == t.information
        && s.specific == t.specific
        && s.asc == t.asc
        && s.ascq == t.ascq
}
