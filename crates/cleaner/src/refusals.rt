// The refusals before any verdict, in the order of paper 02, A4.6.
ghost use Rattle.std.specs.Prelude.{◌≡◌, IfOk};
ghost use Rattle.image.specs.paper.Decode.{decode};
ghost use Rattle.image.specs.Accepted.{IsBook, book_in};
ghost use Rattle.cleaner.specs.Refusals.{of_numbers, of_group, finding, first_of};

use area::END;
use groups::Group;
use image::front;
use image::refusals::Refusal;
use lister::MOST_BUDGET;
use sets::LONGEST;
use sets::members::names_above;

// What the call's own numbers earn: 20, 21, 22, 23.
fn of_numbers(
    book: &[u8],
    hypotheses: u64,
    budget: u32,
    room: usize,
    space: usize,
) -> Result<(), Refusal>
    requires { IsBook book.now }
    ensures { finding result ≡ of_numbers (book_in book.now) hypotheses budget room space }
{
    if room > LONGEST {
        return Err(Refusal::LongList);
    }
    if space < END {
        return Err(Refusal::ShortArea);
    }
    if budget > MOST_BUDGET {
        return Err(Refusal::LargeBudget);
    }
    if names_above(hypotheses, front::abducibles(book)) {
        return Err(Refusal::NoAbducible);
    }
    Ok(())
}

// The group, or what its record earns: 41, 42, and 5.
fn of_group<'a>(book: &[u8], bytes: &'a [u8]) -> Result<Group<'a>, Refusal>
    requires { IsBook book.now }
    ensures found { finding result ≡ of_group (book_in book.now) bytes.now }
    ensures same { IfOk result (λ group. group.bytes.now ≡ bytes.now) }
{
    let group = Group::read(bytes).ok_or(Refusal::MalformedGroup)?;
    if !group.all_defined(book) {
        return Err(Refusal::Undefined);
    }
    if !group.fits(book) {
        return Err(Refusal::Limit);
    }
    Ok(group)
}

// The group, or the first refusal that applies.
pub fn admit<'a>(
    book: &[u8],
    bytes: &'a [u8],
    hypotheses: u64,
    budget: u32,
    room: usize,
    space: usize,
) -> Result<Group<'a>, Refusal>
    ensures found { finding result ≡ first_of (decode book.now) bytes.now hypotheses budget room space }
    ensures same { IfOk result (λ group. group.bytes.now ≡ bytes.now) }
{
    book::read(book).map_err(|fault| fault.refusal)?;
    if hypotheses == 0 {
        return Err(Refusal::NoHypothesis);
    }
    let group = of_group(book, bytes)?;
    of_numbers(book, hypotheses, budget, room, space)?;
    Ok(group)
}
