//! The words that the program is called with.

ghost use Rattle.std.specs.Prelude.{◌≡◌};
ghost use Rattle.script_runner.specs.Words.{texts_of, order_asked, behind_run, behind_order, order_in};

use text_words::read_number;

// The greatest number that an order is drawn from.
const ORDER_MAX: u64 = 2_147_483_647;

/// The order that the words ask for, or the number of the first word, from 1, that breaks their rule: `run` alone, or
/// `run --order` and a number.
pub(crate) fn order_asked(words: &[&str]) -> Result<Option<u32>, u32>
    ensures { result ≡ order_asked (texts_of words.now) }
{
    match words {
        [word, rest @ ..] if *word == "run" => behind_run(rest),
        _ => Err(1),
    }
}

fn behind_run(words: &[&str]) -> Result<Option<u32>, u32>
    ensures { result ≡ behind_run (texts_of words.now) }
{
    match words {
        [] => Ok(None),
        [word, rest @ ..] if *word == "--order" => behind_order(rest),
        _ => Err(2),
    }
}

fn behind_order(words: &[&str]) -> Result<Option<u32>, u32>
    ensures { result ≡ behind_order (texts_of words.now) }
{
    match words {
        [] => Err(3),
        [word, rest @ ..] => match order_in(word) {
            None => Err(3),
            Some(x) if rest.is_empty() => Ok(Some(x)),
            Some(_) => Err(4),
        },
    }
}

fn order_in(word: &str) -> Option<u32>
    ensures { result ≡ order_in word.now }
{
    match read_number(0, ORDER_MAX, word.as_bytes()).number() {
        Some(number) => Some(number as u32),
        None => None,
    }
}
