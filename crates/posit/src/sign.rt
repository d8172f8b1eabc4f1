// The sign rule: minus a number is the two's complement of its pattern, formed by wrapping subtraction from zero.
ghost use Rattle.std.specs.Prelude.{◌≡◌, if◌then◌else◌};
ghost use Rattle.posit.specs.Number.{opposite};

// The pattern of minus p's number. 0 and NaR are their own.
#[tactic(auto, unfolding(crate::specs::Number::opposite))]
pub fn opposite(p: u16) -> u16
    ensures { result ≡ opposite 16 p }
{
    0u16.wrapping_sub(p)
}

// The opposite of p where negative is true, and p itself where it is not.
pub fn signed(negative: bool, p: u16) -> u16
    ensures { result ≡ (if negative then opposite 16 p else p) }
{
    if negative { opposite(p) } else { p }
}
