//! A plain decoder for the tests alone: sums by Horner's rule, Berlekamp and Massey's locator, Forney's values, and products by shifts.

// A product by shifts.
pub(crate) fn shifted_product(a: u8, b: u8) -> u8 {
    let mut product = 0;
    let mut shifted = a;
    for i in 0..8u32 {
        if (b >> i) & 1 == 1 {
            product ^= shifted;
        }
        shifted = if shifted >= 128 {
            ((shifted - 128) * 2) ^ 0x1D
        } else {
            shifted * 2
        };
    }
    product
}

// The byte whose product with a is 1, by trying all.
fn tried_inverse(a: u8) -> u8 {
    let mut inverse = 0;
    for b in 1..=255 {
        if shifted_product(a, b) == 1 {
            inverse = b;
        }
    }
    inverse
}

// The value at x, the first byte being the highest coefficient.
fn horner(bytes: &[u8], x: u8) -> u8 {
    let mut value = 0;
    for byte in bytes {
        value = shifted_product(value, x) ^ *byte;
    }
    value
}

pub(crate) fn sums_by_horner(word: &[u8; 148]) -> [u8; 16] {
    let mut sums = [0; 16];
    let mut x = 1;
    for sum in sums.iter_mut() {
        *sum = horner(word, x);
        x = shifted_product(x, 2);
    }
    sums
}

// A polynomial of degree at most 16, the lowest coefficient first.
type Polynomial = [u8; 17];

fn discrepancy(locator: &Polynomial, sums: &[u8; 16], n: usize) -> u8 {
    let mut sum = 0;
    for i in 0..17usize {
        if i <= n && n - i < 16 {
            sum ^= shifted_product(locator[i], sums[n - i]);
        }
    }
    sum
}

fn add_shifted(to: &mut Polynomial, from: &Polynomial, gap: usize, factor: u8) {
    for i in 0..17usize {
        if gap <= i {
            to[i] ^= shifted_product(factor, from[i - gap]);
        }
    }
}

// The shortest register that makes the sums, as a polynomial with 1 as its lowest coefficient.
fn shortest_register(sums: &[u8; 16]) -> Polynomial {
    let mut locator = [0; 17];
    locator[0] = 1;
    let mut before = locator;
    let mut length = 0usize;
    let mut gap = 1usize;
    let mut scale = 1u8;
    for n in 0..16usize {
        let difference = discrepancy(&locator, sums, n);
        if difference == 0 {
            gap = gap.saturating_add(1);
        } else {
            let kept = locator;
            let factor = shifted_product(difference, tried_inverse(scale));
            add_shifted(&mut locator, &before, gap, factor);
            if length <= n / 2 {
                length = n + 1 - length;
                before = kept;
                scale = difference;
                gap = 1;
            } else {
                gap = gap.saturating_add(1);
            }
        }
    }
    locator
}

fn evaluated(polynomial: &Polynomial, x: u8) -> u8 {
    let mut value = 0;
    for coefficient in polynomial.iter().rev() {
        value = shifted_product(value, x) ^ *coefficient;
    }
    value
}

// The low 16 coefficients of the locator times the sums.
fn evaluator(locator: &Polynomial, sums: &[u8; 16]) -> Polynomial {
    let mut product = [0; 17];
    for n in 0..16usize {
        product[n] = discrepancy(locator, sums, n);
    }
    product
}

fn derivative(polynomial: &Polynomial) -> Polynomial {
    let mut result = [0; 17];
    for i in 0..16usize {
        if i % 2 == 0 {
            result[i] = polynomial[i + 1];
        }
    }
    result
}

fn differing_places(a: &[u8; 148], b: &[u8; 148]) -> usize {
    a.iter().zip(b).filter(|(x, y)| **x != **y).count()
}

/// The codeword within the radius, if the register finds it.
pub(crate) fn mended(word: &[u8; 148], radius: usize) -> Option<[u8; 148]> {
    let sums = sums_by_horner(word);
    let locator = shortest_register(&sums);
    let evaluator = evaluator(&locator, &sums);
    let derivative = derivative(&locator);
    let mut result = *word;
    let mut point = 1;
    let mut inverse = 1;
    for byte in result.iter_mut().rev() {
        if evaluated(&locator, inverse) == 0 {
            let quotient = shifted_product(
                evaluated(&evaluator, inverse),
                tried_inverse(evaluated(&derivative, inverse)),
            );
            *byte ^= shifted_product(point, quotient);
        }
        point = shifted_product(point, 2);
        inverse = shifted_product(inverse, 0x8E);
    }
    if sums_by_horner(&result) == [0; 16] && differing_places(word, &result) <= radius {
        Some(result)
    } else {
        None
    }
}
