//! Laws of the code and of tolerant reading, each the contract of a function that does nothing.

ghost use Rattle.std.specs.Prelude.{◌≡◌, ℕ, ◌+◌, ◌*◌, ◌<◌, Bool, List, All, length};
ghost use Rattle.rll_code.specs.Code.{left_side, right_side, IsCode};
ghost use Rattle.rll_code.specs.Laws.{HasAllowedLevels, HasOneCode, IsHalfAsLong, IsPrefixFree, LeftSidesAreComplete, OnesAreFollowed, ReadsBack};

/// No side of a row begins another row's, and bits that are long enough begin with a left side.
pub fn sides_are_prefix_codes()
    ensures left { IsPrefixFree left_side }
    ensures left_complete { LeftSidesAreComplete }
    ensures right { IsPrefixFree right_side }
{}

/// Each message has a code, and one alone, of two channel bits for each bit of the message and of its tail.
pub fn each_message_has_one_code()
    ensures some { (bytes : List ℕ) → (channel : List Bool) × IsCode bytes channel }
    ensures one { (bytes : List ℕ) → HasOneCode bytes }
    ensures long { (bytes : List ℕ) (channel : List Bool) → IsCode bytes channel
        → length channel ≡ 2 * (8 * length bytes + 3) }
{}

/// Reading the code of a message gives the message, and flags no byte.
pub fn reading_inverts_the_code()
    ensures { (bytes : List ℕ) (channel : List Bool) → All (λ b. b < 256) bytes
        → IsCode bytes channel → ReadsBack bytes channel }
{}

/// Two 0s follow each 1 of a code. A 1 flips the level, so each level but the last stands for three places or more.
pub fn ones_of_a_code_stand_apart()
    ensures followed { (bytes : List ℕ) (channel : List Bool) → IsCode bytes channel
        → OnesAreFollowed channel }
    ensures levels { (bytes : List ℕ) (channel : List Bool) → IsCode bytes channel
        → HasAllowedLevels channel }
{}

/// Tolerant reading uses two channel bits up for each bit, whatever they are.
pub fn reading_is_half_as_long()
    ensures { (channel : List Bool) → IsHalfAsLong channel }
{}
