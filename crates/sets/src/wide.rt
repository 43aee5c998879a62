// Sets of numbers below 256, as the bits of four words.

ghost use Rattle.std.specs.Prelude.{◌≡◌, ◌||◌, ℕ, ◌<◌, eqb};
ghost use Rattle.sets.specs.Wide.{inside};

use crate::Set;

#[derive(Clone, Copy)]
pub struct Wide {
    pub words: [u64; 4],
}

impl Wide {
    // Whether l is in the set.
    pub fn has(self, l: usize) -> bool
        requires { l < 256 }
        ensures { result ≡ inside self l }
    {
        crate::has(self.words[l / 64], l % 64)
    }

    // The set with l besides.
    pub fn with(mut self, l: usize) -> Wide
        requires { l < 256 }
        ensures { (j : ℕ) → inside result j ≡ (inside self j || eqb j l) }
    {
        self.words[l / 64] = crate::with(self.words[l / 64], l % 64);
        self
    }
}

impl Set for Wide {
    ghost holds = { inside };

    fn none() -> Self {
        Wide { words: [0; 4] }
    }

    fn union(self, other: Self) -> Self {
        let [a, b, c, d] = self.words;
        let [e, f, g, h] = other.words;
        Wide {
            words: [a.union(e), b.union(f), c.union(g), d.union(h)],
        }
    }

    fn both(self, other: Self) -> Self {
        let [a, b, c, d] = self.words;
        let [e, f, g, h] = other.words;
        Wide {
            words: [a.both(e), b.both(f), c.both(g), d.both(h)],
        }
    }

    fn without(self, other: Self) -> Self {
        let [a, b, c, d] = self.words;
        let [e, f, g, h] = other.words;
        Wide {
            words: [a.without(e), b.without(f), c.without(g), d.without(h)],
        }
    }
}
