// Where the groups inside a group stand in a table. `place` and `at` take the four counts apart, a line for each: a chain is no plainer, since for `place` it has
// to run backwards, and for `at` it has to carry along what is left of the place.
ghost use Rattle.std.specs.Prelude.{◌≡◌, ℕ, ◌+◌, ◌/◌, ◌%◌, ◌<◌, ◌≤◌, true, List, length};
ghost use Rattle.composition.specs.Counts.{Inside, fits, most, size, total, place, at_place, step, raised};
ghost use Rattle.composition.specs.Types.{position};

use super::Composition;
use crate::demand_type::DemandType;

impl Composition {
    // How many groups lie inside this one, itself and the empty one among them.
    pub fn size(&self) -> usize
        ensures { result ≡ size self.now.counts }
    {
        choices(&self.counts)
    }

    // Whether this group lies inside another. That it does is a clause here and in what follows: `place` and `at` answer for any group and any place, and a type
    // would ask more.
    pub fn fits(&self, inside: &Composition) -> bool
        ensures value { result ≡ fits self.now.counts inside.now.counts }
        ensures only { result ≡ true → Inside self.now.counts inside.now.counts }
        ensures always { Inside self.now.counts inside.now.counts → result ≡ true }
    {
        self.counts
            .iter()
            .zip(&inside.counts)
            .all(|(count, most)| count <= most)
    }

    // The place of a group inside this one.
    pub fn place(&self, of: &Composition) -> usize
        ensures value { result ≡ place self.now.counts of.now.counts }
        ensures within { Inside of.now.counts self.now.counts → result < size self.now.counts }
        ensures back { Inside of.now.counts self.now.counts → at_place self.now.counts result ≡ of.now.counts }
    {
        let [a, b, c, _] = self.counts;
        let [w, x, y, z] = of.counts;
        let rest = usize::from(y) + (usize::from(c) + 1) * usize::from(z);
        let rest = usize::from(x) + (usize::from(b) + 1) * rest;
        usize::from(w) + (usize::from(a) + 1) * rest
    }

    // The group at a place inside this one; each place below the size has its own.
    pub fn at(&self, index: usize) -> Composition
        ensures value { result.counts ≡ at_place self.now.counts index }
        ensures inside { Inside result.counts self.now.counts }
        ensures stands { index < size self.now.counts → place self.now.counts result.counts ≡ index }
    {
        let [a, b, c, d] = self.counts;
        let (w, left) = digit(index, a);
        let (x, left) = digit(left, b);
        let (y, left) = digit(left, c);
        let (z, _) = digit(left, d);
        Composition {
            counts: [w, x, y, z],
        }
    }

    // How many places further on a group with one home more of a type stands.
    pub fn step(&self, of: DemandType) -> usize
        ensures value { result ≡ step (position of) self.now.counts }
        ensures further { (n : List ℕ) → length n ≡ 4 → place self.now.counts (raised (position of) n) ≡ place self.now.counts n + result }
    {
        choices(&self.counts[..of.position()])
    }
}

// How many choices there are, where each count may be anything from 0 up to its own.
fn choices(counts: &[u8]) -> usize
    requires { total counts.now ≤ most }
    ensures { result ≡ size counts.now }
{
    counts.iter().map(|count| usize::from(*count) + 1).product()
}

// The count that what is left of a place gives to a type with at most `most` homes, and the rest for the types after it.
fn digit(left: usize, most: u8) -> (u8, usize)
    ensures count { result.0 ≡ left % (most + 1) }
    ensures rest { result.1 ≡ left / (most + 1) }
{
    let radix = usize::from(most) + 1;
    ((left % radix) as u8, left / radix)
}
