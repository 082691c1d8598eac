// The numbers of literals, lists of literals, and chains of ways.
ghost use Rattle.std.specs.Prelude.{◌≡◌, ◌≤◌};
ghost use Rattle.image.specs.paper.Faults.{limits};
ghost use Rattle.image.specs.Shown.{lits_at};
ghost use Rattle.area.specs.Area.{trail, Long};
ghost use Rattle.area.specs.Ground.{Listed};
ghost use Rattle.area.specs.Lay.{Literals, LiteralsLaid, OppositesDue, OppositesLaid, AlternativesDue, AlternativesLaid, link_to};

use super::{JOINS, LITERALS, NO_LINK, NO_LIST, PLACES, WAY_WIDTH};
use image::fields::field_at;

// What wanting the literals of the atoms from..to does: `even` for the atom, and its opposite joins.
pub fn lay_literals(work: &mut [u32], from: usize, to: usize, even: u32)
    requires { (from ≤ to) × (to ≤ limits.atoms) × Long work.old }
    ensures { LiteralsLaid work.old from to even work.new }
{
    for p in from..to {
        let y = LITERALS + 2 * p;
        work[y] = even;
        work[y + 1] = JOINS;
    }
}

// The list of `count` literals from `from` on.
pub fn list_of(image: &[u8], from: usize, count: usize) -> u32
    requires { Literals image.now from count }
    ensures { Listed image.now (λ j. 0) result (lits_at image.now from count) }
{
    match count {
        0 => NO_LIST as u32,
        1 => field_at(image, from),
        _ => (from + PLACES * count) as u32,
    }
}

// The opposites of `count` literals from `first` on, as ways from `start` on, before the ways from `next` on; the first way of all.
pub fn lay_opposites(
    image: &[u8],
    work: &mut [u32],
    start: usize,
    first: usize,
    count: usize,
    next: u32,
) -> u32
    requires { OppositesDue image.now work.old start first count }
    ensures { OppositesLaid image.now work.old start first count next work.new result }
{
    let mut link = next;
    for i in (0..count).rev() {
        let way = start + WAY_WIDTH * i;
        work[way] = field_at(image, first + 2 * i) ^ 1;
        work[way + 1] = link;
        link = way as u32;
    }
    link
}

// The way, where there are alternatives from `from` to `end`; else none.
pub fn link_to(way: usize, from: usize, end: usize) -> u32
    requires { way ≤ trail }
    ensures { result ≡ link_to way from end }
{
    if from < end { way as u32 } else { NO_LINK }
}

// The alternatives from `first` to `end`, as ways from `start` on; the place behind them.
pub fn lay_alternatives(
    image: &[u8],
    work: &mut [u32],
    start: usize,
    first: usize,
    end: usize,
) -> usize
    requires { AlternativesDue image.now work.old start first end }
    ensures { AlternativesLaid image.now work.old start first end work.new result }
{
    let mut way = start;
    let mut from = first;
    while from < end {
        let size = field_at(image, from) as usize;
        work[way] = list_of(image, from + 2, size);
        from = from + 2 + 2 * size;
        work[way + 1] = link_to(way + WAY_WIDTH, from, end);
        way += WAY_WIDTH;
    }
    way
}
