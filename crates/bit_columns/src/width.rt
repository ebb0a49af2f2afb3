// The least width of codes.
ghost use Rattle.std.specs.Prelude.{ℕ, ◌≤◌, ◌<◌, ◌^◌};
ghost use Rattle.std.specs.List.{All};

/// The least width in bits that holds each value, 0 to 64. It is 0 if there is no value, and if all are 0.
pub fn width_of(values: &[u64]) -> u8
    ensures fits { All (λ value. value < 2 ^ result) values.now }
    ensures least { (width : ℕ) → All (λ value. value < 2 ^ width) values.now → result ≤ width }
    ensures few { result ≤ 64 }
{
    let mut ones = 0u64;
    for value in values {
        ones |= *value;
    }
    (64 - ones.leading_zeros()) as u8
}
