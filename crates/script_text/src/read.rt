//! Reading a script: one pass over its lines.
ghost use Rattle.std.specs.Prelude.{◌≡◌, ◌==◌, ◌≢◌, ◌<◌, ◌≤◌, [], ◌∷◌, length, position};
ghost use Rattle.std.specs.List.{position_or_len};
ghost use Rattle.script_text.specs.Meaning.{lines_of, script_of, fault_at, Reads};

use crate::fault::LineFault;
use crate::script::Script;
use crate::standing::Standing;
use crate::why::ScriptFault;
use std::alloc::Global;

/// What a script asks for, or the first of its lines, counted from 1, that is refused.
pub fn read_script(alloc: Global, bytes: &[u8]) -> Result<Script, ScriptFault>
    ensures { Reads result (script_of bytes.now) }
{
    let mut standing = Standing::new(alloc);
    let mut number = 1u32;
    let mut rest = bytes;
    while !rest.is_empty() {
        let (line, behind) = first_line(rest);
        match standing.take(number, line) {
            Ok(()) => {}
            Err(fault) => return Err(refused(number, fault)),
        }
        number += 1;
        rest = behind;
    }
    match standing.finish() {
        Ok(script) => Ok(script),
        Err(_) => Err(ScriptFault::NoMemory),
    }
}

fn refused(line: u32, fault: LineFault) -> ScriptFault
    ensures { result ≡ fault_at line fault }
{
    match fault {
        LineFault::NoMemory => ScriptFault::NoMemory,
        LineFault::Refused(why) => ScriptFault::Refused { line, why },
    }
}

// The first line of a text that isn't empty, and what stands behind its end.
fn first_line(text: &[u8]) -> (&[u8], &[u8])
    ensures lines { text.now ≢ [] → lines_of text.now ≡ result.0.now ∷ lines_of result.1.now }
    ensures shorter { text.now ≢ [] → length result.1.now < length text.now }
{
    match place_of(b'\n', text) {
        Some(at) => (&text[..at], &text[at + 1..]),
        None => (text, &[]),
    }
}

fn place_of(byte: u8, text: &[u8]) -> Option<usize>
    ensures { result ≡ position (λ b. b == byte) text.now }
{
    text.iter().position(|b| *b == byte)
}
