ghost use Rattle.std.specs.Prelude.{◌≡◌, ◌≤◌, ◌^◌, take};
ghost use Rattle.inquiry_data.specs.Capacity.{short_capacity, long_capacity};

use crate::cut::cut;
use arrayvec::ArrayVec;
use disk_base::BLOCK_LENGTH;

/// Bytes of READ CAPACITY (10) data.
pub const CAPACITY_10_LENGTH: usize = 8;

/// Bytes of READ CAPACITY (16) data.
pub const CAPACITY_16_LENGTH: usize = 32;

/// READ CAPACITY (10) data of a unit of so many blocks.
pub fn capacity_10(capacity: u64) -> [u8; CAPACITY_10_LENGTH]
    requires some { 1 ≤ capacity }
    // The last address has four bytes.
    requires fits { capacity ≤ 2 ^ 32 }
    ensures { result ≡ short_capacity capacity }
{
    let [a0, a1, a2, a3] = ((capacity - 1) as u32).to_be_bytes();
    let [l0, l1, l2, l3] = (BLOCK_LENGTH as u32).to_be_bytes();
    [a0, a1, a2, a3, l0, l1, l2, l3]
}

/// READ CAPACITY (16) data of a unit of so many blocks.
pub fn capacity_16(capacity: u64, allocation: u32) -> ArrayVec<u8, CAPACITY_16_LENGTH>
    requires { 1 ≤ capacity }
    ensures { result.items ≡ take allocation (long_capacity capacity) }
{
    let [a0, a1, a2, a3, a4, a5, a6, a7] = (capacity - 1).to_be_bytes();
    let [l0, l1, l2, l3] = (BLOCK_LENGTH as u32).to_be_bytes();
    let data = [
        a0, a1, a2, a3, a4, a5, a6, a7, l0, l1, l2, l3, 0, 0, 0, 0, 0, 0, 0, 0, 0, 0, 0, 0, 0, 0,
        0, 0, 0, 0, 0, 0,
    ];
    cut(&data, allocation as usize)
}
