// The types that the definitions of `specs/` and every other crate share: a firmware description, the refusals,
// the answers of the calls and the tick machine's record.
#![tactic(auto)]

ghost use Rattle.std.specs.Prelude.{◌≡◌};

// A source: the minimum inter-arrival time in ticks (document 01's spacing), or the pulses per quarter note that give it, in straight time or
// with a swing in percent.
#[derive(Clone, Copy)]
pub enum Source {
    Fixed(u32),
    Paced(u16),
    Swung(u16, u8),
}

#[derive(Clone, Copy)]
pub struct SourceSlot {
    pub source: Source,
}

// A link of the precedence graph: the node it leaves, the task it enters, and whether it is critical (0 or 1).
#[derive(Clone, Copy)]
pub struct Link {
    pub from: u8,
    pub to: u8,
    pub critical: u8,
}

// One firmware. Entries past a count are not looked at.
#[derive(Clone, Copy)]
pub struct Description {
    pub task_count: usize,
    pub runs: [u32; 32],
    pub source_count: usize,
    pub sources: [SourceSlot; 16],
    pub link_count: usize,
    pub links: [Link; 256],
}

// One field of a description file.
#[derive(Clone, Copy)]
pub enum Field {
    OfTask(u32),
    OfSource(Source),
    OfLink(Link),
}

// Why work is refused: document 01's table of refused work, with its numbers.
#[derive(Clone, Copy, PartialEq, Eq)]
pub enum Refusal {
    CutShort = 1,
    StrangeTag = 2,
    WrongLength = 3,
    OutOfTurn = 4,
    TooMany = 5,
    OffScale = 6,
    NoSuchEnd = 7,
    NoTask = 8,
    Loop = 9,
    TooHeavy = 10,
    OffKnob = 11,
    NoTempo = 12,
    ShortPage = 13,
    TooSoon = 14,
    Stranger = 15,
    ForeignState = 16,
}

impl Refusal {
    // The refusal with its place.
    pub fn at(self, place: usize) -> Rejection
        ensures { result ≡ record { why = self; place = place } }
    {
        Rejection { why: self, place }
    }
}

// A refusal with its place. A call ends with its work done, or with one of these.
#[derive(Clone, Copy, PartialEq, Eq)]
pub struct Rejection {
    pub why: Refusal,
    pub place: usize,
}

// The header of a field: the tag of a whole body, its offset and its length.
#[derive(Clone, Copy)]
pub struct Header {
    pub tag: u8,
    pub at: usize,
    pub size: u16,
}

// One step of a reader: a whole field, a refusal with the offset of the field's tag, or nothing at the end of the file; and the reader's place after that.
#[derive(Clone, Copy)]
pub struct Step {
    pub found: Result<Option<Field>, Rejection>,
    pub at: usize,
}

// What the fields read so far fix about the next one: the counts, and the ends of the last link.
#[derive(Clone, Copy, Default)]
pub struct Progress {
    pub tasks: usize,
    pub sources: usize,
    pub links: usize,
    pub from: u8,
    pub to: u8,
}

// The answer of a reading. Beside a refusal the description is all zeros.
#[derive(Clone, Copy)]
pub struct Reading {
    pub outcome: Result<(), Rejection>,
    pub description: Description,
}

// A row of the load sheet: the load of one node at each task.
#[derive(Clone, Copy)]
pub struct Row {
    pub loads: [u64; 32],
}

// The load sheet: tasks 1 to 32, then sources 33 to 48. Beside a refusal every load is 0.
#[derive(Clone, Copy)]
pub struct LoadSheet {
    pub outcome: Result<(), Rejection>,
    pub rows: [Row; 48],
}

// The verdict on one link. A source link's has the delay (the response-time bound) and the spacing of its source.
#[derive(Clone, Copy)]
pub enum Verdict {
    Free,
    HeldOrder,
    DoubtOrder,
    Held(u32, u32),
    Doubt(u32),
}

#[derive(Clone, Copy)]
pub struct VerdictSlot {
    pub verdict: Verdict,
}

// The verdicts, one for each link of the file. Past the links, and beside a refusal, each is free.
#[derive(Clone, Copy)]
pub struct Verdicts {
    pub outcome: Result<(), Rejection>,
    pub slots: [VerdictSlot; 256],
}

// The backward walk: the node it failed at, if it has, and the tasks it has met.
#[derive(Clone, Copy)]
pub struct Walk {
    pub failed: Option<u8>,
    pub met: [bool; 32],
}

// Which task runs: in every tick the highest awake one, or (the hold-on model) the one that is part done, and the highest awake if none is.
#[derive(Clone, Copy)]
pub enum Policy {
    Preemptive,
    HoldOn,
}

// The tick machine's record. Of each source it keeps the age and the fastest tempo given since its last firing, 0 before the first. A task reads its
// inputs when its run begins: links that fire later in that run are late, and their task runs again.
#[derive(Clone, Copy)]
pub struct Machine {
    pub awake: [bool; 32],
    pub used: [u32; 32],
    pub waiting: [bool; 256],
    pub dropped: [bool; 256],
    pub ages: [u32; 16],
    pub fastest: [u32; 16],
    pub again: [bool; 32],
    pub late: [bool; 256],
}

// The sources that arrive in one tick: a mark for each number from 33 to 48.
#[derive(Clone, Copy)]
pub struct Arrivals {
    pub marks: [bool; 16],
}

// The answer of a start or a tick: its end, and the record as it is left.
#[derive(Clone, Copy)]
pub struct Ticked {
    pub outcome: Result<(), Rejection>,
    pub machine: Machine,
}
