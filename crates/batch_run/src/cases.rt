// The calls that are made, by number: each length with each output, function, start and limit.
pub const COUNT: usize = 7 * 3 * 6 * 9 * 7;

const LENGTHS: [usize; 7] = [0, 1, 2, 1023, 1024, 1025, 4096];

const FUNCTIONS: [u16; 6] = [0, 1, 2, 10, 11, 65535];

const LIMITS: [usize; 7] = [0, 1, 2, 3, 7, 1000, usize::MAX];

#[derive(Clone, Copy)]
pub struct Case {
    pub length: usize,
    pub room: usize,
    pub function: u16,
    pub start: usize,
    pub limit: usize,
}

// There is nothing to call where the output or the start would lie below zero.
pub fn numbered(k: usize) -> Option<Case> {
    let length = LENGTHS[k / 1134 % 7];
    Some(Case {
        length,
        room: room(k / 378 % 3, length)?,
        function: FUNCTIONS[k / 63 % 6],
        start: start(k / 7 % 9, length)?,
        limit: LIMITS[k % 7],
    })
}

// The output: longer than the input, equal, shorter.
fn room(i: usize, length: usize) -> Option<usize> {
    match i {
        0 => length.checked_add(3),
        1 => Some(length),
        _ => length.checked_sub(1),
    }
}

// The starts around both ends, and the largest.
fn start(i: usize, length: usize) -> Option<usize> {
    match i {
        0..=2 => Some(i),
        3 => length.checked_sub(2),
        4 => length.checked_sub(1),
        5 => Some(length),
        6 => length.checked_add(1),
        7 => length.checked_add(2),
        _ => Some(usize::MAX),
    }
}
