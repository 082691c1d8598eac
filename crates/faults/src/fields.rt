// The image's fields, each tested whole: that it is there (4), then the faults of its value. The answer is the field's value
// with the next place, or the fault with its place.

ghost use Rattle.std.specs.Prelude.{◌≡◌, ℕ, ◌+◌, ◌-◌, length};
ghost use Rattle.image.specs.paper.Walk.{Finding, field};
ghost use Rattle.image.specs.paper.Faults.{limits, wrong_atoms, wrong_abducibles, wrong_count, wrong_lit, wrong_head, wrong_size, wrong_clause, wrong_conditions, wrong_alternative};
ghost use Rattle.faults.specs.Taking.{taken, Finds};

use super::totals::{Bodies, Literals};
use super::values;
use image::fields::{field_at, is_there};
use image::refusals::{Fault, Refusal};

// The field whose value is put to this test, where it is there.
fn take<F: FnOnce(u32) -> Result<(), Refusal>>(
    image: &[u8],
    at: usize,
    test: F,
) -> Result<(u32, usize), Fault>
    requires { F.IsAlwaysCallable test }
    ensures { (faults : ℕ → Finding) → Finds (F.post test) faults → taken result ≡ field image.now faults at }
{
    if !is_there(image, at) {
        return Err(Fault {
            refusal: Refusal::Misfit,
            place: at,
        });
    }
    let x = field_at(image, at);
    match test(x) {
        Ok(()) => Ok((x, at + 2)),
        Err(refusal) => Err(Fault { refusal, place: at }),
    }
}

// How many bytes there are up to `end`, behind the field at this place.
pub fn left_behind(end: usize, at: usize) -> usize
    ensures { result ≡ end - (at + 2) }
{
    end.saturating_sub(at).saturating_sub(2)
}

pub fn take_atoms(image: &[u8], at: usize) -> Result<(u32, usize), Fault>
    ensures { taken result ≡ field image.now (wrong_atoms limits.atoms) at }
{
    take(image, at, |x| values::wrong_atoms(x))
}

pub fn take_abducibles(image: &[u8], at: usize, atoms: u32) -> Result<(u32, usize), Fault>
    ensures { taken result ≡ field image.now (wrong_abducibles limits.abducibles atoms) at }
{
    take(image, at, |x| values::wrong_abducibles(atoms, x))
}

pub fn take_count(image: &[u8], at: usize, most: u32) -> Result<(u32, usize), Fault>
    ensures { taken result ≡ field image.now (wrong_count most) at }
{
    take(image, at, |x| values::wrong_count(most, x))
}

pub fn take_literal(image: &[u8], at: usize, atoms: u32) -> Result<(u32, usize), Fault>
    ensures { taken result ≡ field image.now (wrong_lit atoms) at }
{
    take(image, at, |x| values::wrong_literal(atoms, x))
}

pub fn take_head(
    image: &[u8],
    at: usize,
    atoms: u32,
    abducibles: u32,
) -> Result<(u32, usize), Fault>
    ensures { taken result ≡ field image.now (wrong_head atoms abducibles) at }
{
    take(image, at, |x| values::wrong_head(atoms, abducibles, x))
}

// A constraint's record length.
pub fn take_size(image: &[u8], at: usize) -> Result<(u32, usize), Fault>
    ensures { taken result ≡ field image.now (wrong_size (length image.now - (at + 2))) at }
{
    let left = left_behind(image.len(), at);
    take(image, at, |x| values::wrong_size(left, x))
}

// A clause's record length; the bodies before it have `sum` literals.
pub fn take_clause_size(image: &[u8], at: usize, sum: Bodies) -> Result<(u32, usize), Fault>
    ensures { taken result ≡ field image.now (wrong_clause (length image.now - (at + 2)) limits.bodies sum) at }
{
    let left = left_behind(image.len(), at);
    take(image, at, |x| values::wrong_clause(left, sum, x))
}

// A condition count of a record that ends at `end`; the constraints before it have `sum` literals.
pub fn take_conditions(
    image: &[u8],
    at: usize,
    end: usize,
    sum: Literals,
) -> Result<(u32, usize), Fault>
    ensures { taken result ≡ field image.now (wrong_conditions (end - (at + 2)) limits.literals sum) at }
{
    let left = left_behind(end, at);
    take(image, at, |x| values::wrong_conditions(left, sum, x))
}

// An alternative's literal count, likewise.
pub fn take_alternative(
    image: &[u8],
    at: usize,
    end: usize,
    sum: Literals,
) -> Result<(u32, usize), Fault>
    ensures { taken result ≡ field image.now (wrong_alternative (end - (at + 2)) limits.literals sum) at }
{
    let left = left_behind(end, at);
    take(image, at, |x| values::wrong_alternative(left, sum, x))
}
