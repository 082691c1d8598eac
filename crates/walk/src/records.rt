// The records of the image, and what stands one behind another behind A and B, by the walk of image/specs/paper/Decode. What is found is
// not kept: the answer is how many literals there were, or the new total of them, with the next place, or that place alone.

ghost use Rattle.std.specs.Prelude.{◌≡◌, ℕ, ◌+◌, ◌*◌, ◌≤◌, length};
ghost use Rattle.base.specs.paper.Lists.{sum};
ghost use Rattle.image.specs.paper.Book.{body_count, literal_count};
ghost use Rattle.image.specs.paper.Walk.{Walk, running, times};
ghost use Rattle.image.specs.paper.Faults.{limits};
ghost use Rattle.image.specs.paper.Decode.{literal, clause, alternative, inside, constraint, counted, clauses_and_constraints};
ghost use Rattle.faults.specs.Taking.{taken, passed, seen, poured};
ghost use Rattle.walk.specs.Each.{Steps, each};
ghost use Rattle.walk.specs.Seen.{ways_seen};

use faults::fields;
use faults::totals::{Bodies, Literals};
use image::limits::{MOST_CLAUSES, MOST_CONSTRAINTS, MOST_GOAL};
use image::refusals::Fault;

// An image that is read as a book of so many atoms, of which so many are abducibles.
#[derive(Clone, Copy, Debug)]
pub struct Records<'a> {
    pub image: &'a [u8],
    pub atoms: u32,
    pub abducibles: u32,
}

// `count` records one behind another. Each is taken at its place, and told what those before it came to; it answers what they come to with it.
fn take_each<T: Copy, F: Fn(usize, T) -> Result<(T, usize), Fault>>(
    start: usize,
    count: u32,
    before: T,
    take: F,
) -> Result<(T, usize), Fault>
    requires { F.IsAlwaysCallable take }
    ensures { (step : T → Walk T) → Steps (F.post take) step → taken result ≡ each step count before start }
{
    let mut at = start;
    let mut sum = before;
    for _ in 0..count {
        let (total, next) = take(at, sum)?;
        sum = total;
        at = next;
    }
    Ok((sum, at))
}

impl<'a> Records<'a> {
    // `count` literals.
    pub fn take_literals(&self, start: usize, count: u32) -> Result<(u32, usize), Fault>
        ensures { taken result ≡ poured (λ _. literal self.now.image.now self.now.atoms) (λ _. 1) count 0 start }
    {
        let mut at = start;
        for _ in 0..count {
            let (_, next) = fields::take_literal(self.image, at, self.atoms)?;
            at = next;
        }
        Ok((count, at))
    }

    // A clause. The answer is the new total, with the next place.
    pub fn take_clause(&self, at: usize, sum: Bodies) -> Result<(Bodies, usize), Fault>
        ensures { taken result ≡ seen (λ c. sum + body_count c) (clause self.now.image.now limits self.now.atoms self.now.abducibles sum at) }
    {
        let (size, head) = fields::take_clause_size(self.image, at, sum)?;
        let (_, body) = fields::take_head(self.image, head, self.atoms, self.abducibles)?;
        let (count, next) = self.take_literals(body, size / 2 - 1)?;
        Ok((sum.with(count), next))
    }

    // `count` clauses.
    pub fn take_clauses(&self, start: usize, count: u32) -> Result<(Bodies, usize), Fault>
        ensures { taken result ≡ poured (clause self.now.image.now limits self.now.atoms self.now.abducibles) body_count count 0 start }
    {
        take_each(
            start,
            count,
            Bodies::start(),
            |at, sum| self.take_clause(at, sum),
        )
    }

    // One alternative of a record that ends at `end`.
    pub fn take_way(&self, at: usize, end: usize, sum: Literals) -> Result<(u32, usize), Fault>
        ensures { taken result ≡ seen length (alternative self.now.image.now limits self.now.atoms end sum at) }
    {
        let (count, next) = fields::take_alternative(self.image, at, end, sum)?;
        self.take_literals(next, count)
    }

    // All alternatives up to `end`, behind `before` literals. Any n that is at least the number of fields up to `end` will do.
    pub fn take_ways(
        &self,
        start: usize,
        end: usize,
        before: Literals,
    ) -> Result<(Literals, usize), Fault>
        ensures { (n : ℕ) → end ≤ start + 2 * n → taken result ≡ ways_seen self.now.image.now limits self.now.atoms end n before start }
    {
        let mut at = start;
        let mut sum = before;
        while at < end {
            let (literals, next) = self.take_way(at, end, sum)?;
            sum = sum.with(literals);
            at = next;
        }
        Ok((sum, at))
    }

    // The inside of a constraint's record that ends at `end`, likewise.
    pub fn take_inside(
        &self,
        at: usize,
        end: usize,
        sum: Literals,
    ) -> Result<(Literals, usize), Fault>
        ensures { (n : ℕ) → end ≤ at + 2 * n → taken result ≡ seen (λ k. sum + literal_count k) (inside self.now.image.now limits self.now.atoms end n sum at) }
    {
        let (count, next) = fields::take_conditions(self.image, at, end, sum)?;
        let (_, ways) = self.take_literals(next, count)?;
        self.take_ways(ways, end, sum.with(count))
    }

    // A constraint, likewise.
    pub fn take_constraint(&self, at: usize, sum: Literals) -> Result<(Literals, usize), Fault>
        ensures { taken result ≡ seen (λ k. sum + literal_count k) (constraint self.now.image.now limits self.now.atoms sum at) }
    {
        let (size, next) = fields::take_size(self.image, at)?;
        self.take_inside(next, next + size as usize, sum)
    }

    // `count` constraints.
    pub fn take_constraints(&self, start: usize, count: u32) -> Result<(Literals, usize), Fault>
        ensures { taken result ≡ poured (constraint self.now.image.now limits self.now.atoms) literal_count count 0 start }
    {
        take_each(
            start,
            count,
            Literals::start(),
            |at, sum| self.take_constraint(at, sum),
        )
    }

    pub fn take_goal(&self, at: usize) -> Result<(u32, usize), Fault>
        ensures { taken result ≡ seen (λ ls. 0 + sum (λ _. 1) ls) (counted self.now.image.now limits.goal (times (literal self.now.image.now self.now.atoms)) at) }
    {
        let (count, next) = fields::take_count(self.image, at, MOST_GOAL)?;
        self.take_literals(next, count)
    }

    pub fn take_all_clauses(&self, at: usize) -> Result<(Bodies, usize), Fault>
        ensures { taken result ≡ seen (λ cs. 0 + sum body_count cs) (counted self.now.image.now limits.clauses (λ n. running (clause self.now.image.now limits self.now.atoms self.now.abducibles) body_count n 0) at) }
    {
        let (count, next) = fields::take_count(self.image, at, MOST_CLAUSES)?;
        self.take_clauses(next, count)
    }

    pub fn take_all_constraints(&self, at: usize) -> Result<(Literals, usize), Fault>
        ensures { taken result ≡ seen (λ ks. 0 + sum literal_count ks) (counted self.now.image.now limits.constraints (λ n. running (constraint self.now.image.now limits self.now.atoms) literal_count n 0) at) }
    {
        let (count, next) = fields::take_count(self.image, at, MOST_CONSTRAINTS)?;
        self.take_constraints(next, count)
    }

    pub fn take_clauses_and_constraints(&self, at: usize) -> Result<usize, Fault>
        ensures { passed result ≡ seen (λ _. 0) (clauses_and_constraints self.now.image.now limits self.now.atoms self.now.abducibles at) }
    {
        let (_, next) = self.take_all_clauses(at)?;
        let (_, end) = self.take_all_constraints(next)?;
        Ok(end)
    }
}
