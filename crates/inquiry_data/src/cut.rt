ghost use Rattle.std.specs.Prelude.{◌≡◌, ◌≤◌, length, take};

use arrayvec::ArrayVec;

// A command's data, cut by its allocation length (SPC-4, allocation length).
pub fn cut<const CAP: usize>(bytes: &[u8], allocation: usize) -> ArrayVec<u8, CAP>
    requires { length bytes.now ≤ CAP }
    ensures { result.items ≡ take allocation bytes.now }
{
    let mut reply = ArrayVec::new();
    reply
        .try_extend_from_slice(&bytes[..bytes.len().min(allocation)])
        .unwrap();
    reply
}
