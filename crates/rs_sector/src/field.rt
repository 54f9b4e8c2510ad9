//! The field of 256 elements.
ghost use Rattle.std.specs.Prelude.{◌≡◌, ◌≢◌, ◌↔◌, bit_xor, IsNone, IfSome};
ghost use Rattle.rs_sector.specs.Field.{field_product, multiples};

use crate::tables::INVERSES;
use crate::tables::high::HIGH_PRODUCTS;
use crate::tables::low::LOW_PRODUCTS;

/// The sum of two field elements, which is also their difference.
pub fn add(a: u8, b: u8) -> u8
    ensures { result ≡ bit_xor a b }
{
    a ^ b
}

/// The product of two field elements.
pub fn mul(a: u8, b: u8) -> u8
    ensures { result ≡ field_product a b }
{
    low_products(a)[(b & 15) as usize] ^ high_products(a)[(b >> 4) as usize]
}

/// The inverse of a field element; 0 has none.
pub fn inv(a: u8) -> Option<u8>
    ensures none { IsNone result ↔ (a ≡ 0) }
    ensures inverse { IfSome result (λ b. field_product a b ≡ 1) }
{
    if a == 0 { None } else { Some(inverse(a)) }
}

// The products by the low half of a byte.
#[inline(always)]
pub(crate) fn low_products(a: u8) -> [u8; 16]
    ensures { result ≡ multiples a 1 }
{
    LOW_PRODUCTS[a as usize]
}

// The products by the high half of a byte.
#[inline(always)]
pub(crate) fn high_products(a: u8) -> [u8; 16]
    ensures { result ≡ multiples a 16 }
{
    HIGH_PRODUCTS[a as usize]
}

// The inverse of a field element that is not 0.
#[inline(always)]
pub(crate) fn inverse(a: u8) -> u8
    requires { a ≢ 0 }
    ensures { field_product a result ≡ 1 }
{
    INVERSES[a as usize]
}
