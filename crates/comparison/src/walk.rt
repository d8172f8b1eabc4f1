// Two answered listings that ask the same, and the walk over their places: functions outside, patterns inside.
ghost use Rattle.std.specs.Prelude.{◌≡◌, ◌+◌, ◌*◌, ◌≤◌, ◌<◌, length, MatchResult};
ghost use Rattle.std.proofs.lemmas.List.Edits.{sets};
ghost use Rattle.answered.specs.Answered.{pair_of};
ghost use Rattle.line.specs.Line.{room_for};
ghost use Rattle.comparison.specs.Differences.{differing, next_differing};
ghost use Rattle.comparison.specs.Comparison.{shown, most_lines_of};

use refusals::Refusal;
use sections::Sections;
use words::number_at;

// Two answered listings that ask the same, and how many functions and patterns they have.
#[derive(Clone, Copy)]
pub struct Pair<'a> {
    first: &'a [u8],
    second: &'a [u8],
    functions: usize,
    patterns: usize,
    ghost few_functions: { functions ≤ 10 },
    ghost few_patterns: { patterns ≤ 1024 },
}

impl<'a> Pair<'a> {
    ghost use Rattle.comparison.specs.Walk.{first_answers, second_answers, places_in, line_in, Reads};

    // The two, or the first refusal of them.
    #[tactic(auto, using(crate::proofs::Pairs::pairs))]
    pub fn read(first: &'a [u8], second: &'a [u8]) -> Result<Pair<'a>, Refusal>
        ensures { MatchResult result (Reads first.now second.now) (λ e. Err e ≡ pair_of first.now second.now) }
    {
        let Sections {
            functions,
            patterns,
        } = answered::read_pair(first, second)?;
        Ok(Pair {
            first,
            second,
            functions,
            patterns,
        })
    }

    // How many answers each has.
    pub fn count(&self) -> usize
        ensures { result ≡ self.now.functions * self.now.patterns }
    {
        self.functions * self.patterns
    }

    // The least place at or after `from` that differs, or the number of answers.
    #[tactic(auto, using(crate::proofs::Walking::walking))]
    pub fn next_difference(&self, from: usize) -> usize
        ensures { result ≡ next_differing (first_answers self.now) (second_answers self.now) from }
    {
        let Pair {
            first,
            second,
            functions,
            patterns,
        } = *self;
        let count = functions * patterns;
        if count <= from {
            return count;
        }
        let answers = 6 + 2 * functions + 2 * patterns;
        let mut place = from;
        let mut start = from % patterns;
        'rows: for row in from / patterns..functions {
            for column in start..patterns {
                let at = answers + 2 * place;
                if number_at(first, at) != number_at(second, at) {
                    break 'rows;
                }
                place += 1;
            }
            start = 0;
        }
        place
    }

    // Writes the lines of the places that differ, or of the first alone, and answers how many bytes they have.
    pub fn write_lines(&self, short: bool, output: &mut [u8]) -> usize
        requires { room_for * most_lines_of short (self.now.functions * self.now.patterns) ≤ length output.old }
        ensures value { result ≡ length (shown short (differing (places_in self.now))) }
        ensures output_after { output.new ≡ sets output.old 0 (shown short (differing (places_in self.now))) }
    {
        let count = self.count();
        let mut at = 0;
        let mut place = self.next_difference(0);
        while place < count {
            at += self.write_line(place, output, at);
            if short {
                return at;
            }
            place = self.next_difference(place + 1);
        }
        at
    }

    // Writes the line of a place from `at` on, and answers how many bytes it has.
    fn write_line(&self, place: usize, output: &mut [u8], at: usize) -> usize
        requires { (place < self.now.functions * self.now.patterns) × (at + room_for ≤ length output.old) }
        ensures value { result ≡ length (line_in self.now place) }
        ensures output_after { output.new ≡ sets output.old at (line_in self.now place) }
    {
        let Pair {
            first,
            second,
            functions,
            patterns,
        } = *self;
        let function = number_at(first, 2 + 2 * (place / patterns));
        let pattern = number_at(first, 4 + 2 * functions + 2 * (place % patterns));
        let answer = 6 + 2 * functions + 2 * patterns + 2 * place;
        line::put_line(
            output,
            at,
            function,
            pattern,
            number_at(first, answer),
            number_at(second, answer),
        )
    }
}
