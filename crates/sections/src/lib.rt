// The first two sections of a listing, functions and patterns.
#![tactic(auto)]

ghost use Rattle.std.specs.Prelude.{◌≡◌, ◌+◌, ◌*◌, ◌≤◌, length};
ghost use Rattle.refusals.specs.Refusals.{unless_refused};
ghost use Rattle.words.specs.Numbers.{number_at_of, numbers_at};
ghost use Rattle.sections.specs.Order.{section_refusal_of, all_known_of, sections_of};

use refusals::Refusal;
use words::number_at;

const MOST_FUNCTIONS: u16 = 10;

const MOST_PATTERNS: u16 = 1024;

// How many functions and patterns there are.
#[derive(Clone, Copy, Debug, PartialEq, Eq)]
pub struct Sections {
    pub functions: usize,
    pub patterns: usize,
}

// The two sections, or the first refusal in them. Bytes after them are not looked at.
#[tactic(auto, using(crate::proofs::Reading::reads))]
pub fn read_sections(bytes: &[u8]) -> Result<Sections, Refusal>
    ensures { result ≡ sections_of bytes.now }
{
    let functions = read_count(bytes, 0, 1, MOST_FUNCTIONS)?;
    if !all_known(bytes, functions) {
        return Err(Refusal::Function);
    }
    let patterns = read_count(bytes, 2 + 2 * functions, 0, MOST_PATTERNS)?;
    Ok(Sections {
        functions,
        patterns,
    })
}

// How many numbers the section has whose count stands at the place `at`.
#[tactic(auto, unfolding(crate::specs::Order::section_refusal_of))]
fn read_count(bytes: &[u8], at: usize, least: u16, most: u16) -> Result<usize, Refusal>
    requires { at ≤ length bytes.now }
    ensures { result ≡ unless_refused (section_refusal_of bytes.now at least most) (number_at_of bytes.now at) }
{
    if bytes.len() - at < 2 {
        return Err(Refusal::Cut);
    }
    let count = number_at(bytes, at);
    if !(least..=most).contains(&count) {
        return Err(Refusal::Limits);
    }
    let count = usize::from(count);
    let start = at + 2;
    if bytes.len() - start < 2 * count {
        return Err(Refusal::Cut);
    }
    Ok(count)
}

// Whether the first `count` functions are all known.
fn all_known(bytes: &[u8], count: usize) -> bool
    requires { 2 + 2 * count ≤ length bytes.now }
    ensures { result ≡ all_known_of (numbers_at bytes.now 2 count) }
{
    (0..count).all(|i| p16e1::is_known(number_at(bytes, 2 + 2 * i)))
}
