// The atoms' numbers: abducibles first, then the others, each in the order of the table.
ghost use Rattle.std.specs.Prelude.{◌≡◌, ◌≤◌, length};
ghost use Rattle.spelling.specs.paper.Answer.{longest_text};
ghost use Rattle.text.specs.Given.{Numbered};

use spelling::LONGEST_TEXT;

// Gives each of the `count` entries of the table its number, with `marked` abducibles in all.
pub fn give_numbers(
    entries: &[u16; LONGEST_TEXT],
    count: usize,
    marked: usize,
    numbers: &mut [u16; LONGEST_TEXT],
)
    requires { (count ≤ longest_text) × (marked ≤ longest_text) × (length entries.now ≡ longest_text) × (length numbers.old ≡ longest_text) }
    ensures { Numbered entries.now marked numbers.new count }
{
    let mut before = 0;
    for i in 0..count {
        if entries[i] % 2 == 1 {
            numbers[i] = before as u16;
            before += 1;
        } else {
            numbers[i] = (marked + (i - before)) as u16;
        }
    }
}
