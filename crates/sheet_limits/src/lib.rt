// Whether what is given for a sheet is within its limits, else 12.
#![tactic(auto)]

ghost use Rattle.std.specs.Prelude.{◌≡◌};
ghost use Rattle.sheet_limits.specs.Write.{all_below, in_limits};
ghost use Rattle.sheet_limits.specs.Inner.{Given};

use sheet::{MOST_RUNS, ModeNumbers};

// 02 order 4: each number is below 2^36.
const NUMBER_LIMIT: u64 = 0x1000000000;

// 02 order 7: the last mode number.
const LAST_MODE: u64 = 2;

// Runs that are given within the limits: a list of their starts and one of their lengths, in pages, as C lends them.
#[derive(Clone, Copy)]
pub struct GivenRuns<'a> {
    pub starts: &'a [u64],
    pub lengths: &'a [u64],
    pub ghost given: { Given starts.now lengths.now },
}

// What C lends, whatever it is. The lengths of the lists come first, so that long ones are not looked through.
#[tactic(auto, unfolding(crate::specs::Write::in_limits))]
pub fn is_in_limits(directory: u64, mode: u64, place: u64, starts: &[u64], lengths: &[u64]) -> bool
    ensures { result ≡ in_limits directory mode place starts.now lengths.now }
{
    starts.len() == lengths.len()
        && (1..=MOST_RUNS).contains(&(starts.len() as u64))
        && directory < NUMBER_LIMIT
        && mode <= LAST_MODE
        && ModeNumbers { mode, place }.is_place()
        && all_below(starts)
        && all_below(lengths)
}

fn all_below(numbers: &[u64]) -> bool
    ensures { result ≡ all_below numbers.now }
{
    numbers.iter().all(|n| *n < NUMBER_LIMIT)
}
