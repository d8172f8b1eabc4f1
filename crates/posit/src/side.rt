// Where an answer lies: below the number that was rounded, on it, or above it.
ghost use Rattle.std.specs.Prelude.{◌≡◌, if◌then◌else◌};
ghost use Rattle.posit.specs.Sides.{mirrored, outright, negated_sided, side_number_of};

#[derive(Clone, Copy, Debug, PartialEq, Eq)]
pub enum Side {
    Below,
    On,
    Above,
}

// An answer, and where it lies.
#[derive(Clone, Copy, Debug, PartialEq, Eq)]
pub struct Sided {
    pub pattern: u16,
    pub side: Side,
}

// A pattern that is named outright, or is its own answer: it lies on itself.
pub fn outright(p: u16) -> Sided
    ensures { result ≡ outright p }
{
    Sided {
        pattern: p,
        side: Side::On,
    }
}

// The side of minus the answer, seen from minus the number.
fn mirror(side: Side) -> Side
    ensures { result ≡ mirrored side }
{
    match side {
        Side::Below => Side::Above,
        Side::On => Side::On,
        Side::Above => Side::Below,
    }
}

// Minus the answer where negative is true, and the answer itself where it is not.
pub fn signed_sided(negative: bool, a: Sided) -> Sided
    ensures { result ≡ (if negative then negated_sided a else a) }
{
    if negative {
        Sided {
            pattern: crate::sign::opposite(a.pattern),
            side: mirror(a.side),
        }
    } else {
        a
    }
}

// -1 below, 0 on, 1 above.
impl From<Side> for i8 {
    ghost from_gives = { λ side n. n ≡ side_number_of side };

    fn from(side: Side) -> i8 {
        match side {
            Side::Below => -1,
            Side::On => 0,
            Side::Above => 1,
        }
    }
}
