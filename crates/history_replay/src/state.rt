//! What one block may have, and what entries make of it.
ghost use Rattle.std.specs.Prelude.{◌≡◌, IfOk, OnOk};
ghost use Rattle.std.specs.List.{list_any};
ghost use Rattle.block_machine.specs.Blocks.{same_value, is_dirty, may_get, after_get, after_put, after_harden, after_cut, hardened_with};

use block_machine::{BlockState, Values};
use disk_base::{NoMemory, Value};
use std::alloc::Global;

/// A block that has this value on the medium, and no newer one.
pub fn hardened(alloc: Global, value: &Value) -> Result<BlockState, NoMemory>
    ensures { IfOk result (λ s. s ≡ hardened_with value.now) }
{
    let base = Vec::from_slice(alloc, &[*value])?;
    Ok(BlockState {
        base: Values::from_vec(base),
        newer: Values::new(alloc),
    })
}

/// Whether a value was put since the block was last hardened.
pub fn is_dirty(s: &BlockState) -> bool
    ensures { result ≡ is_dirty s.now }
{
    !s.newer.as_slice().is_empty()
}

/// Whether a command may get this value of the block.
pub fn may_get(s: &BlockState, value: &Value) -> bool
    ensures { result ≡ may_get s.now value.now }
{
    match value {
        Value::Lost => !is_dirty(s),
        Value::Data(_) => match s.newer.as_slice().last() {
            Some(newest) => same_value(value, newest),
            None => has_value(s.base.as_slice(), value),
        },
    }
}

/// What was got from the medium is what the block has there.
pub fn after_get(alloc: Global, s: &mut BlockState, value: &Value) -> Result<(), NoMemory>
    ensures { OnOk result (s.new ≡ after_get s.old value.now) }
{
    match value {
        Value::Lost => {}
        Value::Data(_) => {
            if !is_dirty(s) {
                *s = hardened(alloc, value)?;
            }
        }
    }
    Ok(())
}

/// A value is put.
pub fn after_put(s: &mut BlockState, value: Value) -> Result<(), NoMemory>
    ensures { OnOk result (s.new ≡ after_put s.old value) }
{
    s.newer.push(value)
}

/// The newest value comes to the medium.
pub fn after_harden(alloc: Global, s: &mut BlockState) -> Result<(), NoMemory>
    ensures { OnOk result (s.new ≡ after_harden s.old) }
{
    if let Some(newest) = s.newer.as_slice().last().copied() {
        *s = hardened(alloc, &newest)?;
    }
    Ok(())
}

/// The power goes off: a dirty block has any of its values, or is lost.
pub fn after_cut(alloc: Global, s: &mut BlockState) -> Result<(), NoMemory>
    ensures { OnOk result (s.new ≡ after_cut s.old) }
{
    if is_dirty(s) {
        s.newer.push(Value::Lost)?;
        s.base.extend(s.newer.as_slice())?;
        s.newer = Values::new(alloc);
    }
    Ok(())
}

// Whether a value is among others.
fn has_value(values: &[Value], value: &Value) -> bool
    ensures { result ≡ list_any (same_value value.now) values.now }
{
    values.iter().any(|v| same_value(value, v))
}

fn same_value(a: &Value, b: &Value) -> bool
    ensures { result ≡ same_value a.now b.now }
{
    match (a, b) {
        (Value::Data(a), Value::Data(b)) => a == b,
        (Value::Lost, Value::Lost) => true,
        (Value::Data(_), Value::Lost) | (Value::Lost, Value::Data(_)) => false,
    }
}
