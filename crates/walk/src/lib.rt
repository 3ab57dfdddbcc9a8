// From an address of a case to a place in the image or the pagefile: the types, definitions and laws.
#![tactic(auto)]

use base::Refusal;
use entry::Leaf;

// Where an address leads: four outcomes of one rank, as `number_of` (specs/Walk.antt) numbers them, and no `Result` of three.
#[derive(Clone, Copy)]
pub enum Place {
    Image(u64),
    Pagefile(u64),
    Zeros,
    Refused(Refusal),
}

// Where the tables lead, and how many entries were read.
#[derive(Clone, Copy)]
pub struct Descent {
    pub leaf: Leaf,
    pub entries: u64,
}

// Where an address leads, and how many entries were read.
#[derive(Clone, Copy)]
pub struct Resolved {
    pub place: Place,
    pub entries: u64,
}
