// Fixed-point steps that exp and exp2 share.
ghost use Rattle.std.specs.Prelude.{◌≡◌, ◌+◌, ◌^◌, ◌≤◌, ◌<◌, pos, ◌+ℤ◌, ◌-ℤ◌};
ghost use Rattle.posit.specs.Number.{with_sign};

// base - x where negative is true, and base + x where it is not: a number of either sign, moved up.
pub fn moved(base: u64, negative: bool, x: u64) -> u64
    requires { (x < base) × (base < 2 ^ 62) }
    ensures base_value { with_sign negative x +ℤ pos base ≡ pos result }
    ensures upper_bound { result < base + base }
{
    if negative { base - x } else { base + x }
}

// a - b, which may be below zero.
pub fn less(a: u64, b: u64) -> i32
    requires { (a < 2 ^ 31) × (b < 2 ^ 31) }
    ensures { result ≡ pos a -ℤ pos b }
{
    a as i32 - b as i32
}
