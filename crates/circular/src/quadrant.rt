// An angle by quarter turns, which sin_pi and cos_pi share, and the argument that the kernels take; tan_pi reflects by it too.
ghost use Rattle.std.specs.Prelude.{◌≡◌, ◌^◌, ◌<◌};

// The quadrant of an angle, modulo 4, and the rest of it in units of 2^-28 half-turns.
#[derive(Clone, Copy)]
pub struct Reduced {
    pub quadrant: u64,
    pub rest: u64,
    ghost in_quarter: { rest < 2 ^ 27 },
}

// What a kernel takes: an angle within a quarter turn, and not zero, in units of 2^-28 half-turns.
#[derive(Clone, Copy)]
pub struct Argument {
    pub units: u64,
    ghost some: { 0 < units },
    ghost in_quarter: { units < 2 ^ 27 },
}

impl Reduced {
    ghost use Rattle.circular.specs.Quadrants.{quadrant, rest, reflected};

    // The angle of x / 2^28 half-turns.
    pub fn of(x: u64) -> Reduced
        ensures { (result.quadrant ≡ quadrant x) × (result.rest ≡ rest x) }
    {
        Reduced {
            quadrant: (x >> 27) % 4,
            rest: x % 0x0800_0000,
        }
    }

    // The rest, reflected where the quadrant is odd.
    pub fn reflected(self) -> Argument
        requires { 0 < self.rest }
        ensures { result.units ≡ reflected self.quadrant self.rest }
    {
        Argument {
            units: if self.quadrant % 2 == 1 {
                0x0800_0000 - self.rest
            } else {
                self.rest
            },
        }
    }
}
