// Why a call was refused.
#![tactic(auto)]

ghost use Rattle.std.specs.Prelude.{◌≡◌};
ghost use Rattle.refusals.specs.Refusals.{number_of, number_or_zero, refusal_numbered};

#[derive(Clone, Copy, Debug, PartialEq, Eq)]
pub enum Refusal {
    Function,
    Output,
    Start,
    Cut,
    Limits,
    After,
    Count,
    Different,
    State,
}

// The refusal's number in documents 01 and 02.
impl From<Refusal> for u16 {
    ghost from_gives = { λ refusal n. n ≡ number_of refusal };

    fn from(refusal: Refusal) -> u16 {
        match refusal {
            Refusal::Function => 1,
            Refusal::Output => 2,
            Refusal::Start => 3,
            Refusal::Cut => 4,
            Refusal::Limits => 5,
            Refusal::After => 6,
            Refusal::Count => 7,
            Refusal::Different => 8,
            Refusal::State => 12,
        }
    }
}

// The refusal's number, and 0 where there is none.
pub fn number(refusal: Option<Refusal>) -> u16
    ensures { result ≡ number_or_zero refusal }
{
    refusal.map_or(0, u16::from)
}

// The refusal with that number, none for 0. One that is no refusal's, which only a state that was tampered with can hold, gives
// State's.
pub fn numbered(number: u16) -> Option<Refusal>
    ensures { result ≡ refusal_numbered number }
{
    match number {
        0 => None,
        1 => Some(Refusal::Function),
        2 => Some(Refusal::Output),
        3 => Some(Refusal::Start),
        4 => Some(Refusal::Cut),
        5 => Some(Refusal::Limits),
        6 => Some(Refusal::After),
        7 => Some(Refusal::Count),
        8 => Some(Refusal::Different),
        _ => Some(Refusal::State),
    }
}
