// The literals of a part, alone, with their count, and as an alternative.

ghost use Rattle.std.specs.Prelude.{◌≡◌, ◌+◌, ◌-◌, ◌*◌, ◌≤◌, length};
ghost use Rattle.writer.specs.Fields.{number_in, literal_factor, sign_after, names_from, lits_of, counted, way_of};
ghost use Rattle.writer.specs.Wrote.{Wrote};
ghost use Rattle.writer.specs.Due.{Known};

use image::write::put_field;
use spelling::{NAF, NAMES};

// What a head's number is taken times, and a literal's.
pub const HEAD: usize = 1;

pub const LITERAL: usize = 2;

const NEGATED: usize = 1;

// What a name behind this code adds to its field.
#[tactic(auto, unfolding(crate::specs::Fields::sign_after))]
fn sign_after(sign: usize, code: u16) -> usize
    ensures { result ≡ sign_after sign code }
{
    if code == NAF { NEGATED } else { sign }
}

// The fields of the names, the first by this factor; the place behind them.
pub fn write_names(
    part: &[u16],
    numbers: &[u16],
    factor: usize,
    image: &mut [u8],
    at: usize,
) -> usize
    requires { Known part.now numbers.now × (factor ≤ literal_factor) × (2 * length (names_from (number_in numbers.now) factor 0 part.now) ≤ length image.old - at) }
    ensures { Wrote (names_from (number_in numbers.now) factor 0 part.now) image.old at image.new result }
{
    let mut end = at;
    let mut times = factor;
    let mut sign = 0;
    for code in part {
        if *code < NAMES {
            sign = sign_after(sign, *code);
            continue;
        }
        let number = usize::from(numbers[usize::from(*code - NAMES)]);
        put_field(image, end, times * number + sign);
        end += 2;
        times = LITERAL;
        sign = 0;
    }
    end
}

// The literals with their count.
pub fn write_counted(part: &[u16], numbers: &[u16], image: &mut [u8], at: usize) -> usize
    requires { Known part.now numbers.now × (at + 2 * length (counted (lits_of (number_in numbers.now) part.now)) ≤ length image.old) }
    ensures { Wrote (counted (lits_of (number_in numbers.now) part.now)) image.old at image.new result }
{
    let first = at + 2;
    let end = write_names(part, numbers, LITERAL, image, first);
    put_field(image, at, (end - first) / 2);
    end
}

// An alternative: the literals with their count, if there are any.
pub fn write_way(part: &[u16], numbers: &[u16], image: &mut [u8], at: usize) -> usize
    requires { Known part.now numbers.now × (at + 2 * length (way_of (lits_of (number_in numbers.now) part.now)) ≤ length image.old) }
    ensures { Wrote (way_of (lits_of (number_in numbers.now) part.now)) image.old at image.new result }
{
    let first = at + 2;
    let end = write_names(part, numbers, LITERAL, image, first);
    if end == first {
        return at;
    }
    put_field(image, at, (end - first) / 2);
    end
}
