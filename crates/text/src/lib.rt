// Text on a page: bytes, words and decimal numbers written one after the other, and a whole page copied out.
#![tactic(auto)]

ghost use Rattle.std.specs.Prelude.{◌∷◌, [], ◌++◌, ◌≡◌, ◌≤◌, length, take};
ghost use Rattle.model.specs.File.{fill_with, filled_by};
ghost use Rattle.model.specs.Report.{decimal};
ghost use Rattle.text.specs.Page.{HasRoom, Gains, IsInPlace};

use model::{Refusal, Rejection};

// A page that is written from its front on: its bytes, and where the next one goes.
#[derive(Drop)]
pub struct Page<'a> {
    pub bytes: &'a mut [u8],
    pub end: usize,
}

impl Page<'_> {
    // One byte more.
    pub fn byte(&mut self, b: u8)
        requires { HasRoom self.old (b ∷ []) }
        ensures in_place { IsInPlace self.old self.new }
        ensures text { Gains self.old (b ∷ []) self.new }
    {
        self.bytes[self.end] = b;
        self.end += 1;
    }

    // A word.
    pub fn word(&mut self, word: &[u8])
        requires { HasRoom self.old word.now }
        ensures in_place { IsInPlace self.old self.new }
        ensures text { Gains self.old word.now self.new }
    {
        let end = self.end + word.len();
        self.bytes[self.end..end].copy_from_slice(word);
        self.end = end;
    }

    // The decimal digits of n.
    pub fn decimal(&mut self, n: usize)
        requires { HasRoom self.old (decimal n) }
        ensures in_place { IsInPlace self.old self.new }
        ensures text { Gains self.old (decimal n) self.new }
    {
        if 10 <= n {
            self.decimal(n / 10);
        }
        self.byte(b'0' + (n % 10) as u8);
    }

    // A word and a number behind it.
    pub fn numbered(&mut self, word: &[u8], n: usize)
        requires { HasRoom self.old (word.now ++ decimal n) }
        ensures in_place { IsInPlace self.old self.new }
        ensures text { Gains self.old (word.now ++ decimal n) self.new }
    {
        self.word(word);
        self.decimal(n);
    }
}

// The first n bytes of a page into a lent buffer: all of them, or not one byte where the buffer is shorter.
pub fn copy_out(page: &[u8], n: usize, out: &mut [u8]) -> Result<usize, Rejection>
    requires { n ≤ length page.now }
    ensures { (result ≡ fill_with (take n page.now) out.old) × (out.new ≡ filled_by (take n page.now) out.old) }
{
    if out.len() < n {
        return Err(Refusal::ShortPage.at(0));
    }
    out[..n].copy_from_slice(&page[..n]);
    Ok(n)
}
