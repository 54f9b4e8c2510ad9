ghost use Rattle.std.specs.Prelude.{◌≡◌, ◌==◌, [], ◌∷◌, ◌++◌, codes, decimal};
ghost use Rattle.std.specs.Fmt.{signed_decimal};
ghost use Rattle.std.specs.List.{list_all};
ghost use Rattle.text_words.specs.Line.{spaced};
ghost use Rattle.text_words.specs.Digits.{hex_of, byte_word};
ghost use Rattle.text_words.specs.Data.{sent_word, value_word, block_word};
ghost use Rattle.text_words.specs.Written.{Writes};

use crate::digits::pair_of;
use crate::{Out, put_digits};
use disk_base::{BLOCK_LENGTH, Block, DataOut, Value};
use itoa::Buffer;

/// A blank and a word.
pub fn put_word<O: Out>(out: &mut O, word: &[u8])
    ensures { Writes O.written out.old out.new (λ text. spaced text (word.now ∷ [])) }
{
    out.put(b" ");
    out.put(word);
}

/// A blank and the digits of a number.
pub fn put_number<O: Out>(out: &mut O, number: u64)
    ensures { Writes O.written out.old out.new (λ text. spaced text (decimal number ∷ [])) }
{
    put_word(out, Buffer::new().format(number).as_bytes());
}

/// A blank, and a number with a minus sign where it is below 0.
pub fn put_signed<O: Out>(out: &mut O, number: i64)
    ensures { Writes O.written out.old out.new (λ text. spaced text (signed_decimal number ∷ [])) }
{
    put_word(out, Buffer::new().format(number).as_bytes());
}

/// A blank and the digits of bytes.
pub fn put_hex<O: Out>(out: &mut O, bytes: &[u8])
    ensures { Writes O.written out.old out.new (λ text. spaced text (hex_of bytes.now ∷ [])) }
{
    out.put(b" ");
    put_digits(out, bytes);
}

/// A blank and the two digits of a byte.
pub fn put_byte<O: Out>(out: &mut O, byte: u8)
    ensures { Writes O.written out.old out.new (λ text. spaced text (byte_word byte ∷ [])) }
{
    put_word(out, &pair_of(byte));
}

/// A blank and the word of data sent with a command: `-` for none, `*` and a byte for a fill, `=` and all bytes.
pub fn put_sent<O: Out>(out: &mut O, sent: &DataOut)
    ensures { Writes O.written out.old out.new (λ text. spaced text (sent_word sent.now ∷ [])) }
{
    match sent {
        DataOut::Nothing => put_word(out, b"-"),
        DataOut::Fill(byte) => put_fill(out, *byte),
        DataOut::Given(bytes) => put_given(out, bytes.as_slice()),
    }
}

/// A blank and the word of a block's value: `*` and a byte where all are that byte, all bytes, or `bad`.
pub fn put_value<O: Out>(out: &mut O, value: &Value)
    ensures { Writes O.written out.old out.new (λ text. spaced text (value_word value.now ∷ [])) }
{
    match value {
        Value::Data(block) => put_block(out, block),
        Value::Lost => put_word(out, b"bad"),
    }
}

/// A blank and the word of a block's data: `*` and a byte where all are that byte, else all bytes.
pub fn put_block<O: Out>(out: &mut O, block: &Block)
    ensures { Writes O.written out.old out.new (λ text. spaced text (block_word block.now ∷ [])) }
{
    let first = block[0];
    if *block == [first; BLOCK_LENGTH] {
        put_fill(out, first);
    } else {
        put_hex(out, block);
    }
}

fn put_fill<O: Out>(out: &mut O, byte: u8)
    ensures { Writes O.written out.old out.new (λ text. spaced text ((codes "*" ++ byte_word byte) ∷ [])) }
{
    out.put(b" *");
    out.put(&pair_of(byte));
}

fn put_given<O: Out>(out: &mut O, bytes: &[u8])
    ensures { Writes O.written out.old out.new (λ text. spaced text ((codes "=" ++ hex_of bytes.now) ∷ [])) }
{
    out.put(b" =");
    put_digits(out, bytes);
}
