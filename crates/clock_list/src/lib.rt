// The list of the MIDI clock's spacings that players look up: a line for each tempo.
#![tactic(auto)]

ghost use Rattle.std.specs.Prelude.{◌≡◌, ◌≤◌, length};
ghost use Rattle.model.specs.Clock.{clock_line, clock_list, clock_length};
ghost use Rattle.text.specs.Page.{HasRoom, Gains, IsInPlace};

use clock_table::clock_spacing;
use lines::put_tempo;
use text::Page;

// The length of the list in bytes.
pub const LENGTH: usize = 32363;

// `120.0 20833`.
#[tactic(auto, using(crate::proofs::ListLaws::line_length))]
fn clock_line(page: &mut Page, t: u32)
    requires { (200 ≤ t) × (t ≤ 3000) × HasRoom page.old (clock_line t) }
    ensures in_place { IsInPlace page.old page.new }
    ensures text { Gains page.old (clock_line t) page.new }
{
    put_tempo(page, t);
    page.numbered(b" ", clock_spacing(t) as usize);
    page.byte(b'\n');
}

// The list fills a page of its length.
pub fn put_list(page: &mut [u8])
    requires { length page.old ≡ clock_length }
    ensures { page.new ≡ clock_list }
{
    let mut page = Page {
        bytes: page,
        end: 0,
    };
    for t in 200..3001 {
        clock_line(&mut page, t);
    }
}
