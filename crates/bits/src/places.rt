//! How many of some rising numbers are x or less, found four ways at a step: the comparisons of a step don't wait for one
//! another, and none of them is a branch.

ghost use Rattle.std.specs.Prelude.{ℕ, ◌<◌, ◌≤◌, ◌+◌, ◌*◌, length, slice_index};
ghost use Rattle.std.specs.List.Sorted.{IsNonDecreasingBy};
ghost use Rattle.bits.specs.steps.Blocks.{AreAround};

/// Where such a count is: at `low`, or up to so many more.
struct Around {
    low: usize,
    width: usize,
}

// 1 where the number at a place is x or less, and else 0.
fn reaches(numbers: &[u32], place: usize, x: u32) -> usize
    requires { place < length numbers.now }
    ensures few { result ≤ 1 }
    ensures yes { 0 < result → slice_index numbers.now place ≤ x }
    ensures no { result < 1 → x < slice_index numbers.now place }
{
    usize::from(numbers[place] <= x)
}

// How many of three numbers, a quarter apart, are x or less.
fn quarters(numbers: &[u32], low: usize, quarter: usize, x: u32) -> usize
    requires sorted { IsNonDecreasingBy (λ (s : ℕ). s) numbers.now }
    requires within { low + 3 * quarter < length numbers.now }
    ensures few { result ≤ 3 }
    ensures yes { 0 < result → slice_index numbers.now (low + quarter * result) ≤ x }
    ensures no { result < 3 → x < slice_index numbers.now (low + quarter * result + quarter) }
{
    reaches(numbers, low + quarter, x)
        + reaches(numbers, low + 2 * quarter, x)
        + reaches(numbers, low + 3 * quarter, x)
}

// All but three places or fewer passed over.
fn narrowed(numbers: &[u32], x: u32) -> Around
    requires { IsNonDecreasingBy (λ (s : ℕ). s) numbers.now }
    ensures around { AreAround x result.low (result.low + result.width) numbers.now }
    ensures few { result.width ≤ 3 }
{
    let mut low = 0;
    let mut width = numbers.len();
    while width > 3 {
        let quarter = width / 4;
        low += quarter * quarters(numbers, low, quarter, x);
        width -= 3 * quarter;
    }
    Around { low, width }
}

// How many of the numbers are x or less.
pub(crate) fn count(numbers: &[u32], x: u32) -> usize
    requires { IsNonDecreasingBy (λ (s : ℕ). s) numbers.now }
    ensures { AreAround x result result numbers.now }
{
    let Around { low, width } = narrowed(numbers, x);
    let mut count = low;
    for place in low..low + width {
        count += reaches(numbers, place, x);
    }
    count
}

// How many of the numbers are x or less, which may be greater than any of them.
pub(crate) fn count_to(numbers: &[u32], x: u128) -> usize
    requires { IsNonDecreasingBy (λ (s : ℕ). s) numbers.now }
    ensures { AreAround x result result numbers.now }
{
    match u32::try_from(x) {
        Ok(x) => count(numbers, x),
        Err(_) => numbers.len(),
    }
}
