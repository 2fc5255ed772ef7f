//! Arithmetic on words under the project's names: a product that wraps, and the next power of two.
ghost use Rattle.std.specs.Prelude.{◌≡◌, ◌*◌, ◌%◌, ◌^◌, ◌≤◌};
ghost use Rattle.base.specs.Arith.{next_power};

/// a * b, keeping 64 bits.
pub fn wrapping_mul(a: u64, b: u64) -> u64
    ensures { result ≡ (a * b) % 2 ^ 64 }
{
    a.wrapping_mul(b)
}

/// The least power of two at or above n: one bit more than n - 1 has.
pub fn next_power_of_two(n: u64) -> u64
    requires { n ≤ 2 ^ 63 }
    ensures { result ≡ next_power n }
{
    if n == 0 {
        return 1;
    }
    1 << (64 - u64::leading_zeros(n - 1))
}
