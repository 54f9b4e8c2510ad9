//! Laws of the samples that sectors give, each the contract of a function that only calls the laws that it rests on.
ghost use Rattle.platter_model.specs.Laws.{GivesOneThing, NothingIsRead};

use channel_path::{payloads_have_one_encoding, zero_samples_read_as_nothing};

/// A sector on which nothing is meant, as one that was never written, reads as nothing at every attempt to which no damage that
/// adds to samples applies. Damage that drops samples may apply, and scars.
pub fn nothing_is_read_where_nothing_is_meant()
    ensures { NothingIsRead }
{
    zero_samples_read_as_nothing();
}

/// What operations say of a sector and an attempt are one list of samples.
pub fn sectors_give_one_thing()
    ensures { GivesOneThing }
{
    payloads_have_one_encoding();
}
