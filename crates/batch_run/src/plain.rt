// What a call must do, by a plain loop. It has the refusals' numbers of document 01 and asks the library for none.
ghost use Rattle.std.specs.Prelude.{◌≤◌, length};

use super::cases::Case;
use batch::Batched;

pub const POISONED: [u16; 4099] = [0xABCD; 4099];

pub fn called(c: Case, input: &[u16], want: &mut [u16; 4099]) -> Result<Batched, u16>
    requires { length input.now ≤ 4096 }
{
    if c.function == 0 || c.function > 10 {
        return Err(1);
    }
    if c.room < c.length {
        return Err(2);
    }
    if c.start > c.length {
        return Err(3);
    }
    Ok(answered(c, input, want))
}

// Place after place, until the limit is used up or the input ends.
fn answered(c: Case, input: &[u16], want: &mut [u16; 4099]) -> Batched
    requires { length input.now ≤ 4096 }
{
    let mut nars: usize = 0;
    let mut left = c.limit;
    let mut next = c.start;
    for at in c.start..input.len() {
        if left == 0 {
            break;
        }
        left -= 1;
        want[at] = p16e1::answer(c.function, input[at]).unwrap_or(0);
        if want[at] == 0x8000 {
            nars = nars.wrapping_add(1);
        }
        next = at + 1;
    }
    Batched { next, nars }
}
