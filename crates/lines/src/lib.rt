// The lines of a report: the model, the tempo, the verdict on a link, a refusal.
#![tactic(auto)]

ghost use Rattle.std.specs.Prelude.{◌<◌};
ghost use Rattle.model.specs.Report.{policy_line, tempo_text, tempo_line, verdict_text, link_line, refused_line};
ghost use Rattle.text.specs.Page.{HasRoom, Gains, IsInPlace};

use model::{Link, Policy, Rejection, Verdict};
use refusals::number_of;
use text::Page;

// `hold`, or no line.
pub fn policy_line(page: &mut Page, p: Policy)
    requires { HasRoom page.old (policy_line p) }
    ensures in_place { IsInPlace page.old page.new }
    ensures text { Gains page.old (policy_line p) page.new }
{
    match p {
        Policy::Preemptive => {}
        Policy::HoldOn => page.word(b"hold\n"),
    }
}

// `178.3`: tenths of a beat per minute.
#[tactic(auto, using(crate::proofs::LineLaws::tempo_text_length))]
pub fn put_tempo(page: &mut Page, t: u32)
    requires { HasRoom page.old (tempo_text t) }
    ensures in_place { IsInPlace page.old page.new }
    ensures text { Gains page.old (tempo_text t) page.new }
{
    page.decimal((t / 10) as usize);
    page.numbered(b".", (t % 10) as usize);
}

// `tempo 178.3`, or `tempo none`.
#[tactic(auto, using(crate::proofs::LineLaws::tempo_line_length), unfolding(model::specs::Report::tempo_line))]
pub fn tempo_line(page: &mut Page, q: Result<u32, Rejection>)
    requires { HasRoom page.old (tempo_line q) }
    ensures in_place { IsInPlace page.old page.new }
    ensures text { Gains page.old (tempo_line q) page.new }
{
    match q {
        Ok(t) => {
            page.word(b"tempo ");
            put_tempo(page, t);
            page.byte(b'\n');
        }
        Err(_) => page.word(b"tempo none\n"),
    }
}

// `free`, `held order`, `doubt order`, `held 700 of 701`, `doubt of 700`.
#[tactic(auto, using(crate::proofs::LineLaws::held_length), unfolding(model::specs::Report::verdict_text))]
fn put_verdict(page: &mut Page, v: Verdict)
    requires { HasRoom page.old (verdict_text v) }
    ensures in_place { IsInPlace page.old page.new }
    ensures text { Gains page.old (verdict_text v) page.new }
{
    match v {
        Verdict::Free => page.word(b" free"),
        Verdict::HeldOrder => page.word(b" held order"),
        Verdict::DoubtOrder => page.word(b" doubt order"),
        Verdict::Held(delay, spacing) => {
            page.numbered(b" held ", delay as usize);
            page.numbered(b" of ", spacing as usize);
        }
        Verdict::Doubt(spacing) => page.numbered(b" doubt of ", spacing as usize),
    }
}

// `link 3 33>2 held 700 of 701`, for the link at place l, counted from 0.
#[tactic(auto, using(crate::proofs::LineLaws::link_length))]
pub fn link_line(page: &mut Page, l: usize, e: Link, v: Verdict)
    requires { (l < 256) × HasRoom page.old (link_line l e v) }
    ensures in_place { IsInPlace page.old page.new }
    ensures text { Gains page.old (link_line l e v) page.new }
{
    page.numbered(b"link ", l + 1);
    page.numbered(b" ", usize::from(e.from));
    page.numbered(b">", usize::from(e.to));
    put_verdict(page, v);
    page.byte(b'\n');
}

// `refused 4 at 26`.
#[tactic(auto, using(crate::proofs::LineLaws::refused_length))]
pub fn refused_line(page: &mut Page, rejection: Rejection)
    requires { HasRoom page.old (refused_line rejection.why rejection.place) }
    ensures in_place { IsInPlace page.old page.new }
    ensures text { Gains page.old (refused_line rejection.why rejection.place) page.new }
{
    page.numbered(b"refused ", number_of(rejection.why));
    page.numbered(b" at ", rejection.place);
    page.byte(b'\n');
}
