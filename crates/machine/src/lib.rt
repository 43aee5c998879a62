// One call of the tick machine: on words of bits, and on a record.
#![tactic(auto)]

pub mod call;
pub mod tick;
