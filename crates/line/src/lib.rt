// Lines of decimal numbers.
#![tactic(auto)]

ghost use Rattle.std.specs.Prelude.{◌≡◌, ◌+◌, ◌-◌, ◌≤◌, length};
ghost use Rattle.std.proofs.lemmas.List.Edits.{sets};
ghost use Rattle.line.specs.Line.{digits, width, decimal, field, integer, apart, line_of, fitted};

// Writes the line of a place that differs from the place `at` on: function, pattern, both answers and how far apart they are.
// Answers how many bytes it has. Where fewer than 31 bytes are left it writes nothing.
#[tactic(auto, using(crate::proofs::Digits::field_most, crate::proofs::Digits::integer_most))]
pub fn put_line(
    output: &mut [u8],
    at: usize,
    function: u16,
    pattern: u16,
    first: u16,
    second: u16,
) -> usize
    ensures value { result ≡ length (fitted (length output.old - at) (line_of function pattern first second)) }
    ensures output_after { output.new ≡ sets output.old at (fitted (length output.old - at) (line_of function pattern first second)) }
{
    if output.len() < 31 || output.len() - 31 < at {
        return 0;
    }
    let after_function = put_field(output, at, function, b' ');
    let after_pattern = put_field(output, after_function, pattern, b' ');
    let after_first = put_field(output, after_pattern, first, b' ');
    let after_second = put_field(output, after_first, second, b' ');
    let end = put_apart(output, after_second, first, second);
    output[end] = b'\n';
    end + 1 - at
}

// Writes a number alone in a line into the first bytes of `output`, under the same rule.
pub fn put_number_line(output: &mut [u8], n: u16) -> usize
    ensures value { result ≡ length (fitted (length output.old) (field n 10)) }
    ensures output_after { output.new ≡ sets output.old 0 (fitted (length output.old) (field n 10)) }
{
    if output.len() < 31 {
        return 0;
    }
    put_field(output, 0, n, b'\n')
}

// Writes the second less the first, both read as signed numbers, and answers the place after it.
fn put_apart(output: &mut [u8], at: usize, first: u16, second: u16) -> usize
    requires { at + 6 ≤ length output.old }
    ensures value { result ≡ at + length (integer (apart first second)) }
    ensures output_after { output.new ≡ sets output.old at (integer (apart first second)) }
{
    let low = first.cast_signed();
    let high = second.cast_signed();
    if high < low {
        output[at] = b'-';
        return put_decimal(output, at + 1, high.abs_diff(low));
    }
    put_decimal(output, at, high.abs_diff(low))
}

// Writes a number and the byte after it, and answers the place after both.
#[tactic(auto, using(crate::proofs::Digits::decimal_most, words::proofs::Writing::sets_append))]
fn put_field(output: &mut [u8], at: usize, n: u16, after: u8) -> usize
    requires { at + 6 ≤ length output.old }
    ensures value { result ≡ at + length (field n after) }
    ensures output_after { output.new ≡ sets output.old at (field n after) }
{
    let end = put_decimal(output, at, n);
    output[end] = after;
    end + 1
}

// Writes a number in decimal, and answers the place after it.
#[tactic(auto, using(crate::proofs::Digits::length_digits), unfolding(crate::specs::Line::decimal))]
fn put_decimal(output: &mut [u8], at: usize, n: u16) -> usize
    requires { at + 5 ≤ length output.old }
    ensures value { result ≡ at + length (decimal n) }
    ensures output_after { output.new ≡ sets output.old at (decimal n) }
{
    let count = width_of(n);
    put_digits(output, at, count, n);
    at + count
}

fn width_of(n: u16) -> usize
    ensures { (result ≡ width n) × (result ≤ 5) }
{
    match n {
        0..=9 => 1,
        10..=99 => 2,
        100..=999 => 3,
        1000..=9999 => 4,
        _ => 5,
    }
}

// Writes the last `count` digits of a number, the last one first.
#[tactic(auto, using(crate::proofs::Digits::digits_last))]
fn put_digits(output: &mut [u8], at: usize, count: usize, n: u16)
    requires { at + count ≤ length output.old }
    ensures { output.new ≡ sets output.old at (digits count n) }
{
    let mut rest = n;
    for left in (0..count).rev() {
        output[at + left] = b'0' + (rest % 10) as u8;
        rest /= 10;
    }
}
