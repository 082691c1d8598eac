// Whether the constraints of an accepted image hold.

ghost use Rattle.std.specs.Prelude.{◌≡◌, List};
ghost use Rattle.base.specs.paper.Lists.{◌∈◌, any};
ghost use Rattle.image.specs.paper.Book.{Lit, Constraint};
ghost use Rattle.image.specs.Spell.{Stands, of_constraint};
ghost use Rattle.meaning.specs.paper.Meaning as meaning;
ghost use Rattle.judging.specs.FailingLaws.{failing_at};
ghost use Rattle.judging.specs.Notes.{Ways};
ghost use Rattle.image.specs.Accepted.{book_in};

use super::values::Judge;
use image::{fields, front};

impl Judge<'_> {
    // Whether some alternative of those that stand from `start` to `end` has all literals true.
    fn some_way(&mut self, start: usize, end: usize) -> bool
        requires { (ways : List (List Lit)) × Ways self.old.image start end ways }
        ensures met { (ways : List (List Lit)) → Ways self.old.image start end ways → result ≡ any (meaning.all_true (meaning.value (book_in self.old.image) self.old.set)) ways }
        ensures same { self.new ≡ self.old }
    {
        let image = self.image;
        let mut at = start;
        while at < end {
            let literals = at + 2;
            let next = literals + 2 * fields::field_at(image, at) as usize;
            if self.first_false(&image[literals..next]).is_none() {
                return true;
            }
            at = next;
        }
        false
    }

    // Whether the constraint whose record starts at this place holds: one of its conditions is false, or all literals of one of its
    // alternatives are true.
    fn holds(&mut self, place: usize) -> bool
        requires { (k : Constraint) × k ∈ (book_in self.old.image).constraints × Stands self.old.image place (of_constraint k) }
        ensures held { (k : Constraint) → k ∈ (book_in self.old.image).constraints → Stands self.old.image place (of_constraint k) → result ≡ meaning.holds (meaning.value (book_in self.old.image) self.old.set) k }
        ensures same { self.new ≡ self.old }
    {
        let image = self.image;
        let counted = place + 2;
        let end = counted + fields::field_at(image, place) as usize;
        let conditions = counted + 2;
        let ways = conditions + 2 * fields::field_at(image, counted) as usize;
        self.first_false(&image[conditions..ways]).is_some() || self.some_way(ways, end)
    }

    // The place of the first constraint that is broken, where one is.
    pub fn first_broken(&mut self) -> Option<usize>
        ensures place { result ≡ failing_at (meaning.holds (meaning.value (book_in self.old.image) self.old.set)) (book_in self.old.image).constraints }
        ensures same { self.new ≡ self.old }
    {
        let image = self.image;
        let counted = front::constraints(image);
        let mut place = counted + 2;
        for i in 0..fields::field_at(image, counted) as usize {
            if !self.holds(place) {
                return Some(i);
            }
            place = place + 2 + fields::field_at(image, place) as usize;
        }
        None
    }
}
