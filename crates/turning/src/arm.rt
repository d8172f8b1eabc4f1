// The turn. Heading is about the third axis, pitch about the second and roll about the first, each counter-clockwise as seen
// from the axis's positive end; angles are half-turns.
ghost use Rattle.std.specs.Prelude.{◌≡◌};
ghost use Rattle.posit.specs.Number.{opposite};
ghost use Rattle.turning.specs.Turn.{sine, cosine, heading_matrix_of, pitch_matrix_of, roll_matrix_of, any_nar_of, turned};

use crate::matrix::{arm_times, matrix_times};

const ONE: u16 = 0x4000;

const NAR: u16 = 0x8000;

// What a matrix has of its angle: the sine, minus the sine, and the cosine.
#[derive(Clone, Copy)]
struct Wave {
    sine: u16,
    minus: u16,
    cosine: u16,
}

impl Wave {
    #[tactic(auto, using(crate::proofs::Steps::sine_is, crate::proofs::Steps::cosine_is))]
    fn of(angle: u16) -> Wave
        ensures { (result.sine ≡ sine angle) × (result.minus ≡ opposite 16 (sine angle)) × (result.cosine ≡ cosine angle) }
    {
        let sine = circular::sin_pi(angle);
        Wave {
            sine,
            minus: arithmetic::negate(sine),
            cosine: circular::cos_pi(angle),
        }
    }
}

fn heading_matrix(heading: u16) -> [[u16; 3]; 3]
    ensures { result ≡ heading_matrix_of heading }
{
    let w = Wave::of(heading);
    [[w.cosine, w.minus, 0], [w.sine, w.cosine, 0], [0, 0, ONE]]
}

fn pitch_matrix(pitch: u16) -> [[u16; 3]; 3]
    ensures { result ≡ pitch_matrix_of pitch }
{
    let w = Wave::of(pitch);
    [[w.cosine, 0, w.sine], [0, ONE, 0], [w.minus, 0, w.cosine]]
}

fn roll_matrix(roll: u16) -> [[u16; 3]; 3]
    ensures { result ≡ roll_matrix_of roll }
{
    let w = Wave::of(roll);
    [[ONE, 0, 0], [0, w.cosine, w.minus], [0, w.sine, w.cosine]]
}

fn any_nar(a: [u16; 3]) -> bool
    ensures { result ≡ any_nar_of a }
{
    a.contains(&NAR)
}

// The arm, turned by roll, then by pitch, then by heading. A NaR in any angle or any part of the arm is asked for outright:
// that of a heading would not reach the third part, whose row of the heading's matrix is 0, 0, 1.
#[tactic(auto, unfolding(crate::specs::Turn::turned))]
pub fn turn(heading: u16, pitch: u16, roll: u16, arm: [u16; 3]) -> [u16; 3]
    ensures { result ≡ turned heading pitch roll arm }
{
    if any_nar([heading, pitch, roll]) || any_nar(arm) {
        return [NAR; 3];
    }
    let m = matrix_times(
        matrix_times(heading_matrix(heading), pitch_matrix(pitch)),
        roll_matrix(roll),
    );
    arm_times(m, arm)
}
