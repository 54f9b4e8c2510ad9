ghost use Rattle.std.specs.Prelude.{◌≡◌, ◌≤◌, ◌↔◌, length, IsSome, IfSome};

use crate::PRIMARY_MAX;
use disk_base::Psn;
use std::marker::Model;

/// A list of sectors, in room of its own.
#[derive(Debug, Drop)]
pub struct Sectors {
    room: [Psn; PRIMARY_MAX],
    count: usize,
}

impl Model for Sectors {
    ghost use Rattle.std.specs.Prelude.{List, ◌≤◌, take};
    ghost use Rattle.disk_base.specs.declared.address.Psn.{Psn};
    ghost use Rattle.geometry_map.specs.declared.limits.TheConstants.{PRIMARY_MAX};

    ghost Value = { List Psn };

    ghost view = { λ s. take s.count s.room };

    ghost invariant = { λ s. s.count ≤ PRIMARY_MAX };
}

impl Sectors {
    /// These sectors, where there is room for them.
    pub fn from_slice(list: &[Psn]) -> Option<Self>
        ensures room { IsSome result ↔ (length list.now ≤ PRIMARY_MAX) }
        ensures value { IfSome result (λ sectors. sectors ≡ list.now) }
    {
        let count = list.len();
        if count > PRIMARY_MAX {
            return None;
        }
        let mut room = [Psn(0); PRIMARY_MAX];
        room[..count].copy_from_slice(list);
        Some(Sectors { room, count })
    }

    /// An equal list.
    pub fn copy(&self) -> Self
        ensures { result ≡ self.now }
    {
        Sectors {
            room: self.room,
            count: self.count,
        }
    }

    pub fn as_slice(&self) -> &[Psn]
        ensures { result.now ≡ self.now }
    {
        &self.room[..self.count]
    }
}
