// The report of a description file.
#![tactic(auto)]

ghost use Rattle.std.specs.Prelude.{◌≡◌, ◌+◌, ◌≤◌, length, take};
ghost use Rattle.model.specs.Report.{shown_tempo, plain_report, report_of, reported, page_reported};
ghost use Rattle.report.specs.Listing.{listing};
ghost use Rattle.report.specs.Longest.{longest_plain, longest_report};
ghost use Rattle.text.specs.Page.{Put, HasRoom, Gains, IsInPlace};

use lines::{link_line, policy_line, refused_line, tempo_line};
use model::{Description, Policy, Rejection, VerdictSlot};
use quotes::quote_by;
use spacings::gaps_by;
use text::{Page, copy_out};
use verdicts::slots::slots_at;
use verdicts::tables_of;

// The bytes of the longest report, its line `hold` included.
pub const LONGEST: usize = 11173;

// A line for each link, with its verdict.
fn link_lines(page: &mut Page, d: Description, slots: [VerdictSlot; 256])
    requires { (d.link_count ≤ 256) × HasRoom page.old (listing d slots d.link_count) }
    ensures in_place { IsInPlace page.old page.new }
    ensures text { Gains page.old (listing d slots d.link_count) page.new }
{
    for (l, link) in d.links[..d.link_count].iter().enumerate() {
        link_line(page, l, *link, slots[l].verdict);
    }
}

// The tempo that verdicts are shown at: the quoted one, or 20.0 where there is none.
fn shown_tempo(q: Result<u32, Rejection>) -> u32
    ensures { result ≡ shown_tempo q }
{
    q.unwrap_or(200)
}

// The lines of a file's report but that of the model.
fn put_plain(p: Policy, file: &[u8], page: &mut Page)
    requires { page.old.end + longest_plain ≤ length page.old.bytes.now }
    ensures in_place { IsInPlace page.old page.new }
    ensures text { Gains page.old (plain_report p file.now) page.new }
{
    let judged = match files::examine(file) {
        Ok(judged) => judged,
        Err(rejection) => return refused_line(page, rejection),
    };
    let d = judged.description;
    let t = tables_of(p, d, &judged.worked.brings, &judged.worked.works);
    let quote = quote_by(&t);
    let gaps = gaps_by(&t.sources, shown_tempo(quote));
    let slots = slots_at(d, &t, &gaps);
    tempo_line(page, quote);
    link_lines(page, d, slots);
}

// The report of a file on a page that takes the longest one.
fn put_report(p: Policy, file: &[u8], page: &mut [u8]) -> usize
    requires { longest_report ≤ length page.old }
    ensures { Put page.old 0 (report_of p file.now) page.new result }
{
    let mut page = Page {
        bytes: page,
        end: 0,
    };
    policy_line(&mut page, p);
    put_plain(p, file, &mut page);
    page.end
}

// The report of a file into a lent buffer: all of it, or not one byte where the buffer is shorter.
pub fn report(p: Policy, file: &[u8], out: &mut [u8]) -> Result<usize, Rejection>
    ensures { (result ≡ reported p file.now out.old) × (out.new ≡ page_reported p file.now out.old) }
{
    let mut page = [0u8; LONGEST];
    let n = put_report(p, file, &mut page);
    copy_out(&page, n, out)
}

// The report of a file at the front of a page that takes the longest one, and its length.
pub fn put_whole(p: Policy, file: &[u8], page: &mut [u8]) -> usize
    requires { longest_report ≤ length page.old }
    ensures { (result ≤ length page.new) × (take result page.new ≡ report_of p file.now) }
{
    put_report(p, file, page)
}
