ghost use Rattle.mode_pages.specs.Laws.{WhatIsShownIsTaken};

/// A law: what MODE SENSE shows of the present values, MODE SELECT takes back without a change, where the allocation length
/// didn't cut it and the retry count is one that can be set.
pub fn what_is_shown_is_taken_without_a_change()
    ensures { WhatIsShownIsTaken }
{}
