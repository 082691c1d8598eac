// The faults of each field's value, as image/specs/paper/Faults has them: the first refusal that the value earns.
#![tactic(auto, using(std::proofs::lemmas::Bool::Decides::nat_tests), unfolding(image::specs::paper::Faults::wrong_atoms, image::specs::paper::Faults::wrong_abducibles, image::specs::paper::Faults::wrong_count, image::specs::paper::Faults::wrong_lit, image::specs::paper::Faults::wrong_head, image::specs::paper::Faults::wrong_size, image::specs::paper::Faults::wrong_clause, image::specs::paper::Faults::wrong_conditions, image::specs::paper::Faults::wrong_alternative))]

ghost use Rattle.std.specs.Prelude.{◌≡◌};
ghost use Rattle.image.specs.paper.Faults.{limits, wrong_atoms, wrong_abducibles, wrong_count, wrong_lit, wrong_head, wrong_size, wrong_clause, wrong_conditions, wrong_alternative};
ghost use Rattle.faults.specs.Taking.{finding};

use super::totals::{Bodies, Literals};
use image::limits::{MOST_ABDUCIBLES, MOST_ATOMS};
use image::refusals::Refusal;

pub fn wrong_atoms(x: u32) -> Result<(), Refusal>
    ensures { finding result ≡ wrong_atoms limits.atoms x }
{
    if x < 1 || MOST_ATOMS < x {
        return Err(Refusal::Limit);
    }
    Ok(())
}

pub fn wrong_abducibles(atoms: u32, x: u32) -> Result<(), Refusal>
    ensures { finding result ≡ wrong_abducibles limits.abducibles atoms x }
{
    wrong_count(MOST_ABDUCIBLES, x)?;
    wrong_count(atoms, x)
}

pub fn wrong_count(most: u32, x: u32) -> Result<(), Refusal>
    ensures { finding result ≡ wrong_count most x }
{
    if most < x {
        return Err(Refusal::Limit);
    }
    Ok(())
}

pub fn wrong_literal(atoms: u32, x: u32) -> Result<(), Refusal>
    ensures { finding result ≡ wrong_lit atoms x }
{
    if atoms <= x / 2 {
        return Err(Refusal::NoAtom);
    }
    Ok(())
}

pub fn wrong_head(atoms: u32, abducibles: u32, x: u32) -> Result<(), Refusal>
    ensures { finding result ≡ wrong_head atoms abducibles x }
{
    if atoms <= x {
        return Err(Refusal::NoAtom);
    }
    if x < abducibles {
        return Err(Refusal::AbducibleHead);
    }
    Ok(())
}

pub fn wrong_size(left: usize, x: u32) -> Result<(), Refusal>
    ensures { finding result ≡ wrong_size left x }
{
    if x % 2 != 0 || x < 2 || left < x as usize {
        return Err(Refusal::Misfit);
    }
    Ok(())
}

pub fn wrong_clause(left: usize, sum: Bodies, x: u32) -> Result<(), Refusal>
    ensures { finding result ≡ wrong_clause left limits.bodies sum x }
{
    wrong_size(left, x)?;
    sum.wrong_with(x / 2 - 1)
}

pub fn wrong_conditions(left: usize, sum: Literals, x: u32) -> Result<(), Refusal>
    ensures { finding result ≡ wrong_conditions left limits.literals sum x }
{
    if left < 2 * x as usize {
        return Err(Refusal::Misfit);
    }
    sum.wrong_with(x)
}

pub fn wrong_alternative(left: usize, sum: Literals, x: u32) -> Result<(), Refusal>
    ensures { finding result ≡ wrong_alternative left limits.literals sum x }
{
    if x < 1 {
        return Err(Refusal::EmptyAlternative);
    }
    wrong_conditions(left, sum, x)
}
