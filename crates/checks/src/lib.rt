// Whether a field may stand where it does, in a file or in a record, and what is known behind it: the refusals 4 to 7.
#![tactic(auto)]

ghost use Rattle.std.specs.Prelude.{◌≡◌, true, ◌||◌};
ghost use Rattle.model.specs.Field.{in_turn, has_room, on_scale, has_ends, is_task, is_source, check_field, passed};

use model::{Field, Progress, Refusal, Source};

// Whether a field comes in its turn.
fn in_turn(p: Progress, f: Field) -> bool
    ensures { result ≡ in_turn p f }
{
    match f {
        Field::OfTask(_) => p.sources == 0 && p.links == 0,
        Field::OfSource(_) => p.links == 0,
        Field::OfLink(l) => p.links == 0 || (p.from < l.from || (p.from == l.from && p.to < l.to)),
    }
}

// Whether there is room for one field more of its kind.
fn has_room(p: Progress, f: Field) -> bool
    ensures { result ≡ has_room p f }
{
    match f {
        Field::OfTask(_) => p.tasks < 32,
        Field::OfSource(_) => p.sources < 16,
        Field::OfLink(_) => p.links < 256,
    }
}

// Whether the numbers of a field are in their ranges. Critical is a number and no flag, since a record that is judged may hold any.
fn on_scale(f: Field) -> bool
    ensures { result ≡ on_scale f }
{
    match f {
        Field::OfTask(e) => (1..=10000000).contains(&e),
        Field::OfSource(Source::Fixed(m)) => (1..=1000000000).contains(&m),
        Field::OfSource(Source::Paced(n)) => (1..=960).contains(&n),
        Field::OfSource(Source::Swung(n, swing)) => {
            (1..=960).contains(&n) && (51..=75).contains(&swing)
        }
        Field::OfLink(l) => l.critical <= 1,
    }
}

// Whether a number is a task's, and whether it is a source's.
fn is_task(tasks: usize, i: u8) -> bool
    ensures { result ≡ is_task tasks i }
{
    1 <= i && usize::from(i) <= tasks
}

fn is_source(sources: usize, i: u8) -> bool
    ensures { result ≡ is_source sources i }
{
    33 <= i && usize::from(i) - 32 <= sources
}

fn is_node(tasks: usize, sources: usize, i: u8) -> bool
    ensures { result ≡ (is_task tasks i || is_source sources i) }
{
    is_task(tasks, i) || is_source(sources, i)
}

// Whether a link's ends are there.
fn has_ends(p: Progress, f: Field) -> bool
    ensures { result ≡ has_ends p f }
{
    match f {
        Field::OfTask(_) | Field::OfSource(_) => true,
        Field::OfLink(l) => is_node(p.tasks, p.sources, l.from) && is_task(p.tasks, l.to),
    }
}

// Whether a field may stand where it does: the one check of a field, for a file and for a record.
pub fn check_field(p: Progress, f: Field) -> Result<(), Refusal>
    ensures { result ≡ check_field p f }
{
    if !in_turn(p, f) {
        return Err(Refusal::OutOfTurn);
    }
    if !has_room(p, f) {
        return Err(Refusal::TooMany);
    }
    if !on_scale(f) {
        return Err(Refusal::OffScale);
    }
    if !has_ends(p, f) {
        return Err(Refusal::NoSuchEnd);
    }
    Ok(())
}

// What is known after one field more.
pub fn advanced(p: Progress, f: Field) -> Progress
    requires { has_room p f ≡ true }
    ensures { result ≡ passed p f }
{
    match f {
        Field::OfTask(_) => Progress {
            tasks: p.tasks + 1,
            ..p
        },
        Field::OfSource(_) => Progress {
            sources: p.sources + 1,
            ..p
        },
        Field::OfLink(l) => Progress {
            links: p.links + 1,
            from: l.from,
            to: l.to,
            ..p
        },
    }
}
