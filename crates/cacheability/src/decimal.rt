//! The order of numbers by their texts in decimal, and the sums of these texts' bytes: no text is
//! written for either.
ghost use Rattle.std.specs.Prelude.{◌≡◌, ◌<◌, ◌≤◌, ◌*◌, ◌^◌, length, take};
ghost use Rattle.std.specs.List.{sum};
ghost use Rattle.std.specs.Ordering.{nat_cmp};
ghost use Rattle.std.specs.Cmp.Lexicographic.{slice_cmp};
ghost use Rattle.cacheability.specs.Decimal.{decimal};

use std::cmp::Ordering;

/// The order of the texts of two numbers in decimal.
pub fn order_of_decimals(one: u32, other: u32) -> Ordering
    ensures { result ≡ slice_cmp nat_cmp (decimal one) (decimal other) }
{
    match one.cmp(&other) {
        Ordering::Equal => Ordering::Equal,
        Ordering::Less => order_to_greater(one, other),
        Ordering::Greater => order_to_greater(other, one).reverse(),
    }
}

/// The order of the texts of a number and of a greater one. Cut to as many digits, the greater one
/// stands to the other as the numbers do; and comes later where both are the same then.
fn order_to_greater(number: u32, greater: u32) -> Ordering
    requires { number < greater }
    ensures { result ≡ slice_cmp nat_cmp (decimal number) (decimal greater) }
{
    order_to_cut(number, greater, power_above(number)).then(Ordering::Less)
}

/// The order of the texts of a number and of one that has no fewer digits and is cut to as many.
/// The limit is the least number with more digits than the first.
fn order_to_cut(number: u32, longer: u32, limit: u64) -> Ordering
    requires limit { limit ≡ 10 ^ length (decimal number) }
    requires longer { length (decimal number) ≤ length (decimal longer) }
    ensures { result ≡ slice_cmp nat_cmp (decimal number) (take (length (decimal number)) (decimal longer)) }
{
    if u64::from(longer) < limit {
        number.cmp(&longer)
    } else {
        order_to_cut(number, longer / 10, limit)
    }
}

/// The least number with more digits than this one.
fn power_above(number: u32) -> u64
    ensures { result ≡ 10 ^ length (decimal number) }
{
    if number < 10 {
        10
    } else if number < 100 {
        100
    } else if number < 1_000 {
        1_000
    } else if number < 10_000 {
        10_000
    } else if number < 100_000 {
        100_000
    } else if number < 1_000_000 {
        1_000_000
    } else if number < 10_000_000 {
        10_000_000
    } else if number < 100_000_000 {
        100_000_000
    } else if number < 1_000_000_000 {
        1_000_000_000
    } else {
        10_000_000_000
    }
}

/// The sum of the bytes of a number's text in decimal.
pub fn digit_sum(number: u32) -> u32
    ensures exact { result ≡ sum (decimal number) }
    ensures small { result ≤ 10 * 57 }
{
    let mut total = 0;
    let mut rest = number;
    'digits: while rest >= 10 {
        total += 48 + rest % 10;
        rest /= 10;
    }
    total + 48 + rest
}
