ghost use Rattle.std.specs.Prelude.{◌≡◌, ◌^◌, ◌<◌, nat_le, if◌then◌else◌, length};
ghost use Rattle.std.specs.List.{list_all};
ghost use Rattle.std.specs.Char.{is_ascii_digit};
ghost use Rattle.text_words.specs.Number.{is_numeral, worth, number, signed_number, IsFrom};

/// What a word gives where a number from one bound to another is wanted.
#[derive(Clone, Copy, Debug, PartialEq, Eq)]
pub enum Numeral {
    /// No decimal numeral: another character than a digit, a sign, a leading zero, or no digit at all.
    Malformed,
    /// A numeral of a number out of the bounds, however long it is.
    Outside,
    Within(u64),
}

impl Numeral {
    ghost use Rattle.std.specs.Prelude.{◌≡◌};
    ghost use Rattle.text_words.specs.Number.{number_in};

    /// The number, where there is one.
    pub fn number(self) -> Option<u64>
        ensures { result ≡ number_in self }
    {
        match self {
            Numeral::Within(number) => Some(number),
            Numeral::Malformed | Numeral::Outside => None,
        }
    }
}

/// The number from `low` to `high` that a word gives.
#[tactic(auto, unfolding(crate::specs::Number::number))]
pub fn read_number(low: u64, high: u64, word: &[u8]) -> Numeral
    ensures value { result ≡ number low high word.now }
    ensures within { IsFrom low high result }
{
    if !is_numeral(word) {
        return Numeral::Malformed;
    }
    match worth_up_to(high, word) {
        Some(worth) if low <= worth => Numeral::Within(worth),
        _ => Numeral::Outside,
    }
}

/// The number that a word gives whose magnitude is at most `most`, with a minus sign where it is below 0.
#[tactic(auto, unfolding(crate::specs::Number::signed_number))]
pub fn read_signed(most: u64, word: &[u8]) -> Option<i64>
    requires { most < 2 ^ 63 }
    ensures { result ≡ signed_number most word.now }
{
    match word {
        [b'-', digits @ ..] => match read_number(1, most, digits) {
            Numeral::Within(number) => Some(-(number as i64)),
            _ => None,
        },
        _ => match read_number(0, most, word) {
            Numeral::Within(number) => Some(number as i64),
            _ => None,
        },
    }
}

fn is_numeral(word: &[u8]) -> bool
    ensures { result ≡ is_numeral word.now }
{
    are_digits(word) && (word.len() == 1 || (1 < word.len() && word[0] != b'0'))
}

fn are_digits(word: &[u8]) -> bool
    ensures { result ≡ list_all is_ascii_digit word.now }
{
    word.iter().all(|b| b.is_ascii_digit())
}

// What digits are worth, where it is at most this.
fn worth_up_to(most: u64, digits: &[u8]) -> Option<u64>
    ensures { result ≡ if nat_le (worth digits.now) most then Some (worth digits.now) else None }
{
    let mut worth = 0u64;
    for digit in digits {
        let more = 10 * u128::from(worth) + u128::from(digit.saturating_sub(b'0'));
        if more > u128::from(most) {
            return None;
        }
        worth = more as u64;
    }
    Some(worth)
}
