// The ten functions, and their numbers, for whoever is told by a number which one to take.
ghost use Rattle.std.specs.Prelude.{◌≡◌, cond, Some};
ghost use Rattle.p16e1.specs.Functions.{known, row_of, Answers, AnswersSided, answer_of, function_number, function_numbered, name_of};
ghost use Rattle.rows.specs.Rows.{MeetsSided};

use posit::Sided;
use refusals::Refusal;
use std::fmt;

#[derive(Clone, Copy, Debug, PartialEq, Eq)]
pub enum Function {
    Exp,
    Exp2,
    Ln,
    Log2,
    SinPi,
    CosPi,
    TanPi,
    AtanPi,
    AsinPi,
    AcosPi,
}

// No function has a number outside 1 to 10.
impl TryFrom<u16> for Function {
    type Error = Refusal;

    ghost try_from_gives = { λ n r. r ≡ function_numbered n };

    fn try_from(number: u16) -> Result<Function, Refusal> {
        match number {
            1 => Ok(Function::Exp),
            2 => Ok(Function::Exp2),
            3 => Ok(Function::Ln),
            4 => Ok(Function::Log2),
            5 => Ok(Function::SinPi),
            6 => Ok(Function::CosPi),
            7 => Ok(Function::TanPi),
            8 => Ok(Function::AtanPi),
            9 => Ok(Function::AsinPi),
            10 => Ok(Function::AcosPi),
            _ => Err(Refusal::Function),
        }
    }
}

// The function's name.
impl fmt::Display for Function {
    ghost output = { λ f. Some (name_of f) };

    fn fmt<W: fmt::Write>(&self, f: &mut fmt::Formatter<W>) -> fmt::Result {
        f.write_str(match self {
            Function::Exp => "exp",
            Function::Exp2 => "exp2",
            Function::Ln => "ln",
            Function::Log2 => "log2",
            Function::SinPi => "sin_pi",
            Function::CosPi => "cos_pi",
            Function::TanPi => "tan_pi",
            Function::AtanPi => "atan_pi",
            Function::AsinPi => "asin_pi",
            Function::AcosPi => "acos_pi",
        })
    }
}

impl Function {
    // The function's answer to the pattern p.
    pub fn answer(self, p: u16) -> u16
        ensures { result ≡ answer_of (function_number self) p }
    {
        match self {
            Function::Exp => exponential::exp(p),
            Function::Exp2 => exponential::exp2(p),
            Function::Ln => logarithm::ln(p),
            Function::Log2 => logarithm::log2(p),
            Function::SinPi => circular::sin_pi(p),
            Function::CosPi => circular::cos_pi(p),
            Function::TanPi => circular::tan_pi(p),
            Function::AtanPi => arc::atan_pi(p),
            Function::AsinPi => arc::asin_pi(p),
            Function::AcosPi => arc::acos_pi(p),
        }
    }

    // The answer, and the side on which it lies of the number that was rounded.
    #[tactic(auto, unfolding(crate::specs::Functions::row_of))]
    pub fn answer_sided(self, p: u16) -> Sided
        ensures { MeetsSided (row_of (function_number self) p) result }
    {
        match self {
            Function::Exp => exponential::exp_sided(p),
            Function::Exp2 => exponential::exp2_sided(p),
            Function::Ln => logarithm::ln_sided(p),
            Function::Log2 => logarithm::log2_sided(p),
            Function::SinPi => circular::sin_pi_sided(p),
            Function::CosPi => circular::cos_pi_sided(p),
            Function::TanPi => circular::tan_pi_sided(p),
            Function::AtanPi => arc::atan_pi_sided(p),
            Function::AsinPi => arc::asin_pi_sided(p),
            Function::AcosPi => arc::acos_pi_sided(p),
        }
    }
}

// The answer of the function with that number.
pub fn answer(function: u16, p: u16) -> Result<u16, Refusal>
    ensures { Answers function p result }
{
    Ok(Function::try_from(function)?.answer(p))
}

// The same with the side.
pub fn answer_sided(function: u16, p: u16) -> Result<Sided, Refusal>
    ensures { AnswersSided function p result }
{
    Ok(Function::try_from(function)?.answer_sided(p))
}

// Whether a function has that number.
pub fn is_known(function: u16) -> bool
    ensures { result ≡ known function }
{
    matches!(function, 1..=10)
}

// The answer of the function with that number, and NaR where there is none.
#[tactic(auto, using(crate::proofs::ByNumber::answer_is))]
pub fn answer_or_nar(function: u16, p: u16) -> u16
    ensures { result ≡ cond (known function) (answer_of function p) 0x8000 }
{
    answer(function, p).unwrap_or(0x8000)
}
