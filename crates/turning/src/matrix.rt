// Three by three arrangements of patterns, rows first, and arms of three. Every product is rounded before it is added, and
// every sum is taken left to right.
ghost use Rattle.std.specs.Prelude.{◌≡◌};
ghost use Rattle.turning.specs.Turn.{row, entry, entries, matrix_times_of, arm_times_of};

// (a0 * b0 + a1 * b1) + a2 * b2
#[tactic(auto, using(crate::proofs::Steps::sum_is, crate::proofs::Steps::product_is), unfolding(crate::specs::Turn::entry))]
fn entry_of(a: [u16; 3], b: [u16; 3]) -> u16
    ensures { result ≡ entry a b }
{
    let first = arithmetic::multiply(a[0], b[0]);
    let second = arithmetic::multiply(a[1], b[1]);
    let third = arithmetic::multiply(a[2], b[2]);
    arithmetic::add(arithmetic::add(first, second), third)
}

// The row a with each of the columns.
fn row_times(a: [u16; 3], columns: [[u16; 3]; 3]) -> [u16; 3]
    ensures { result ≡ entries a (row 0 columns) (row 1 columns) (row 2 columns) }
{
    [
        entry_of(a, columns[0]),
        entry_of(a, columns[1]),
        entry_of(a, columns[2]),
    ]
}

#[tactic(auto, unfolding(crate::specs::Turn::matrix_times_of))]
pub fn matrix_times(m: [[u16; 3]; 3], n: [[u16; 3]; 3]) -> [[u16; 3]; 3]
    ensures { result ≡ matrix_times_of m n }
{
    let columns = [
        [n[0][0], n[1][0], n[2][0]],
        [n[0][1], n[1][1], n[2][1]],
        [n[0][2], n[1][2], n[2][2]],
    ];
    [
        row_times(m[0], columns),
        row_times(m[1], columns),
        row_times(m[2], columns),
    ]
}

pub fn arm_times(m: [[u16; 3]; 3], arm: [u16; 3]) -> [u16; 3]
    ensures { result ≡ arm_times_of m arm }
{
    [
        entry_of(m[0], arm),
        entry_of(m[1], arm),
        entry_of(m[2], arm),
    ]
}
