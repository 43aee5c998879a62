// Sets of numbers below 64, as the bits of a word.
#![tactic(auto)]

ghost use Rattle.std.specs.Prelude.{◌≡◌, Bool, false, ◌||◌, ◌&&◌, not, ℕ, ◌<◌, eqb, ltb};
ghost use Rattle.sets.specs.Sets.{member, FirstIn, LastIn, RestOf};

pub mod wide;

// What sets of every size have in common. Whether a number is in one is `holds`.
pub trait Set: Copy {
    ghost holds: { Self → ℕ → Bool };

    // The empty set.
    fn none() -> Self
        ensures { (j : ℕ) → holds result j ≡ false };

    // The members of both sets together.
    fn union(self, other: Self) -> Self
        ensures { (j : ℕ) → holds result j ≡ (holds self j || holds other j) };

    // The members that both sets have.
    fn both(self, other: Self) -> Self
        ensures { (j : ℕ) → holds result j ≡ (holds self j && holds other j) };

    // The members that the other set does not have.
    fn without(self, other: Self) -> Self
        ensures { (j : ℕ) → holds result j ≡ (holds self j && not (holds other j)) };
}

impl Set for u64 {
    ghost holds = { member };

    fn none() -> Self {
        0
    }

    fn union(self, other: Self) -> Self {
        self | other
    }

    fn both(self, other: Self) -> Self {
        self & other
    }

    fn without(self, other: Self) -> Self {
        self & !other
    }
}

// Whether k is in the set.
pub fn has(set: u64, k: usize) -> bool
    requires { k < 64 }
    ensures { result ≡ member set k }
{
    (set >> k) % 2 == 1
}

// The set with k besides.
pub fn with(set: u64, k: usize) -> u64
    requires { k < 64 }
    ensures { (j : ℕ) → member result j ≡ (member set j || eqb j k) }
{
    set | (1 << k)
}

// The set of k alone.
pub fn one(k: usize) -> u64
    requires { k < 64 }
    ensures { (j : ℕ) → member result j ≡ eqb j k }
{
    1 << k
}

// The members below k.
pub fn below(set: u64, k: usize) -> u64
    requires { k < 64 }
    ensures { (j : ℕ) → member result j ≡ (member set j && ltb j k) }
{
    set & ((1 << k) - 1)
}

// The least member of a set that has one.
pub fn first(set: u64) -> usize
    requires { 0 < set }
    ensures { FirstIn set result }
{
    set.trailing_zeros() as usize
}

// The members but the least, of a set that has one.
pub fn rest(set: u64) -> u64
    requires { 0 < set }
    ensures { RestOf set result }
{
    set & (set - 1)
}

// The greatest member of a set that has one.
pub fn last(set: u64) -> usize
    requires { 0 < set }
    ensures { LastIn set result }
{
    63 - set.leading_zeros() as usize
}
