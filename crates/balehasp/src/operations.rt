// The operations on patterns, and the turn over them. None is ever refused.
ghost use Rattle.std.specs.Prelude.{◌≡◌};
ghost use Rattle.posit.specs.Number.{opposite};
ghost use Rattle.rows.specs.Rows.{Meets};
ghost use Rattle.arithmetic.specs.Operations.{negation, sum, difference, product};
ghost use Rattle.turning.specs.Turn as Turn;

#[unsafe(no_mangle)]
pub extern "C" fn balehasp_negate(p: u16) -> u16
    ensures value { result ≡ opposite 16 p }
    ensures meets { Meets (negation p) result }
{
    arithmetic::negate(p)
}

#[unsafe(no_mangle)]
pub extern "C" fn balehasp_add(a: u16, b: u16) -> u16
    ensures { Meets (sum a b) result }
{
    arithmetic::add(a, b)
}

#[unsafe(no_mangle)]
pub extern "C" fn balehasp_subtract(a: u16, b: u16) -> u16
    ensures { Meets (difference a b) result }
{
    arithmetic::subtract(a, b)
}

#[unsafe(no_mangle)]
pub extern "C" fn balehasp_multiply(a: u16, b: u16) -> u16
    ensures { Meets (product a b) result }
{
    arithmetic::multiply(a, b)
}

// The arm, turned, is written in any case.
#[unsafe(no_mangle)]
pub extern "C" fn balehasp_turn(
    heading: u16,
    pitch: u16,
    roll: u16,
    arm: &[u16; 3],
    turned: &mut [u16; 3],
)
    ensures { turned.new ≡ Turn.turned heading pitch roll arm.now }
{
    *turned = turning::turn(heading, pitch, roll, *arm);
}
