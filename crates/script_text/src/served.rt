//! Which lines are served.
ghost use Rattle.std.specs.Prelude.{◌≡◌};
ghost use Rattle.script_text.specs.Served.{is_served_code, is_served_event, is_served};

use crate::Line;
use crate::weight::byte;
use platter_model::World;

/// Whether a line of the body is served.
pub fn is_served(line: &Line) -> bool
    ensures { result ≡ is_served line.now }
{
    match line {
        Line::Command { cdb, .. } => is_served_code(byte(cdb.bytes(), 0)),
        Line::Function { .. } | Line::Destage { .. } | Line::Go => true,
        Line::World { world } => is_served_event(world),
        Line::Scan { .. } => false,
    }
}

fn is_served_event(world: &World) -> bool
    ensures { result ≡ is_served_event world.now }
{
    match world {
        World::Damage(_) | World::Minutes(_) => true,
        World::Fault(_) | World::Cut | World::Arm { .. } | World::Power => false,
    }
}

fn is_served_code(code: u8) -> bool
    ensures { result ≡ is_served_code code }
{
    code != 0x07
}
