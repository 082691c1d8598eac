// The rule book's reader: paper 01, 3 and 4. It keeps nothing: the floors above
// work on the image as lent, and crate image says where in it each part of an accepted book stands.
#![tactic(auto)]

ghost use Rattle.book.specs.paper.Reading.{reading, Reads};

use image::refusals::{Fault, Refusal};

// Whether the image is a rule book, or its fault.
pub fn read(image: &[u8]) -> Result<(), Fault>
    ensures { Reads image.now (reading result) }
{
    walk::whole::take_front(image)?;
    walk::whole::take_whole(image)?;
    if !loops::is_loop_free(image) {
        return Err(Fault {
            refusal: Refusal::Loop,
            place: depends::place(image),
        });
    }
    Ok(())
}
