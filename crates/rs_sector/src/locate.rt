//! The places that may be wrong: the erased ones, and the roots of a locator.
ghost use Rattle.std.specs.Prelude.{◌≡◌, ◌≤◌, ℕ, ◌+◌, ◌<◌, slice_index};
ghost use Rattle.rs_sector.specs.Decoding.{is_marked, marked};
ghost use Rattle.rs_sector.specs.Locating.{
  eliminated_values,
  is_suspect,
  power_sum,
  AreSums,
  HoldValues,
  IsLocator,
};
ghost use Rattle.rs_sector.specs.Pivots.{ArePivots, IsReduced};
ghost use Rattle.rs_sector.specs.Code.{point};

use crate::field::{inverse, mul};
use crate::lanes::{add_scaled, block_powers, combined, eliminate, point_powers};

// For each row at most one polynomial whose first row sum that is not 0 is in that row.
#[derive(Drop)]
struct Pivots {
    polynomials: [[u8; 16]; 8],
    row_sums: [[u8; 16]; 8],
    inverses: [u8; 8],
}

// A polynomial, its row sums, and the first row whose sum no pivot clears.
#[derive(Drop)]
struct Reduced {
    polynomial: [u8; 16],
    row_sums: [u8; 16],
    row: usize,
}

// The sums without the erased places: each place is eliminated.
pub(crate) fn without_erased(sums: &[u8; 16], erased: &[bool; 148]) -> [u8; 16]
    ensures { (values : ℕ → ℕ) → AreSums sums.now 16 values → (j : ℕ) → j + marked erased.now < 16
        → slice_index result j ≡ power_sum (eliminated_values erased.now values 148) point 148 j }
{
    let mut rest = *sums;
    for (k, is_erased) in erased.iter().enumerate() {
        if *is_erased {
            eliminate(&mut rest, point_powers()[k][1]);
        }
    }
    rest
}

// A polynomial of least degree whose row sums are all 0.
pub(crate) fn locator(sums: &[u8; 16], rows: usize) -> [u8; 16]
    requires { rows ≤ 8 }
    ensures { IsLocator sums.now rows result }
{
    let mut pivots = Pivots {
        polynomials: [[0; 16]; 8],
        row_sums: [[0; 16]; 8],
        inverses: [0; 8],
    };
    for degree in 0..rows + 1 {
        let reduced = cleared(sums, &pivots, degree, rows);
        let row = reduced.row;
        if row == rows {
            return reduced.polynomial;
        }
        pivots.inverses[row] = inverse(reduced.row_sums[row]);
        pivots.polynomials[row] = reduced.polynomial;
        pivots.row_sums[row] = reduced.row_sums;
    }
    unreachable!()
}

// The power of this degree, whose row sums the pivots clear as far as they go.
fn cleared(sums: &[u8; 16], pivots: &Pivots, degree: usize, rows: usize) -> Reduced
    requires low { degree ≤ rows }
    requires few { rows ≤ 8 }
    requires pivots { ArePivots sums.now degree rows pivots.now }
    ensures { IsReduced sums.now degree rows pivots.now result }
{
    let mut polynomial = [0; 16];
    polynomial[degree] = 1;
    let mut row_sums = [0; 16];
    row_sums[..8].copy_from_slice(&sums[degree..degree + 8]);
    for row in 0..rows {
        let lead = row_sums[row];
        if lead != 0 {
            let inverse = pivots.inverses[row];
            if inverse == 0 {
                return Reduced {
                    polynomial,
                    row_sums,
                    row,
                };
            }
            let factor = mul(lead, inverse);
            add_scaled(&mut polynomial, factor, &pivots.polynomials[row]);
            add_scaled(&mut row_sums, factor, &pivots.row_sums[row]);
        }
    }
    Reduced {
        polynomial,
        row_sums,
        row: rows,
    }
}

// The places that are erased or a root of the locator.
pub(crate) fn suspects(locator: &[u8; 16], erased: &[bool; 148]) -> [bool; 148]
    ensures { (k : ℕ) → k < 148 → is_marked result k ≡ is_suspect erased.now locator.now k }
{
    let values = values_at_points(locator);
    let mut suspects = *erased;
    for (k, suspect) in suspects.iter_mut().enumerate() {
        if values[k / 16][k % 16] == 0 {
            *suspect = true;
        }
    }
    suspects
}

// The values of the polynomial at the points of all places, by blocks of 16 places.
fn values_at_points(polynomial: &[u8; 16]) -> [[u8; 16]; 10]
    ensures { HoldValues polynomial.now result }
{
    let low = &polynomial[..9];
    let blocks = block_powers();
    [
        combined(low, &blocks[0]),
        combined(low, &blocks[1]),
        combined(low, &blocks[2]),
        combined(low, &blocks[3]),
        combined(low, &blocks[4]),
        combined(low, &blocks[5]),
        combined(low, &blocks[6]),
        combined(low, &blocks[7]),
        combined(low, &blocks[8]),
        combined(low, &blocks[9]),
    ]
}
