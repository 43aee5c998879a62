// Refusals: the number of each, and what stands beside one.
#![tactic(auto)]

ghost use Rattle.std.specs.Prelude.{◌≡◌};
ghost use Rattle.model.specs.Refusals.{number_of, blank};
ghost use Rattle.model.specs.File.{refused_reading};
ghost use Rattle.model.specs.Machine.{blank_machine};
ghost use Rattle.refusals.specs.Beside.{refused_sheet};

use model::{
    Description, Link, LoadSheet, Machine, Reading, Refusal, Rejection, Row, Source, SourceSlot,
};

// The number of a refusal in the table of refused work.
pub fn number_of(why: Refusal) -> usize
    ensures { result ≡ number_of why }
{
    why as usize
}

// A description of zeros.
pub fn blank() -> Description
    ensures { result ≡ blank }
{
    Description {
        task_count: 0,
        runs: [0; 32],
        source_count: 0,
        sources: [SourceSlot {
            source: Source::Fixed(0),
        }; 16],
        link_count: 0,
        links: [Link {
            from: 0,
            to: 0,
            critical: 0,
        }; 256],
    }
}

// A machine's record of zeros.
pub fn blank_machine() -> Machine
    ensures { result ≡ blank_machine }
{
    Machine {
        awake: [false; 32],
        used: [0; 32],
        waiting: [false; 256],
        dropped: [false; 256],
        ages: [0; 16],
        fastest: [0; 16],
        again: [false; 32],
        late: [false; 256],
    }
}

// Beside a refusal the description is all zeros.
pub fn refused_reading(rejection: Rejection) -> Reading
    ensures { result ≡ refused_reading rejection.why rejection.place }
{
    Reading {
        outcome: Err(rejection),
        description: blank(),
    }
}

// Beside a refusal every load is 0.
pub fn refused_sheet(rejection: Rejection) -> LoadSheet
    ensures { result ≡ refused_sheet rejection.why rejection.place }
{
    LoadSheet {
        outcome: Err(rejection),
        rows: [Row { loads: [0; 32] }; 48],
    }
}
