// The runs of a sheet, and their rows over lent numbers.
#![tactic(auto)]

ghost use Rattle.std.specs.Prelude.{◌≡◌, ◌≤◌, ◌<◌, ◌^◌};
ghost use Rattle.varint.specs.Answer.{as_result};
ghost use Rattle.sheet.specs.Sheet.{run_from, runs_from};
ghost use Rattle.sheet.specs.Inner.{with_row, RunsLaid};

use base::{Fault, Refusal};
use entry::Frame;
use sheet::{Run, TOP_PAGE};

// One run after the frame `end`; `least` is the least gap.
#[tactic(auto, using(varint::proofs::Fields::field_below), unfolding(sheet::specs::Sheet::run_from))]
fn read_run(s: &[u8], at: usize, least: u64, end: u64) -> Result<(Run, usize), Fault>
    requires { end ≤ 2 ^ 36 }
    ensures { result ≡ as_result (run_from least end s.now at) }
{
    let (gap, at) = varint::read_field(s, at)?;
    let (pages, next) = varint::read_field(s, at)?;
    if gap < least || pages == 0 || TOP_PAGE < end + gap + pages {
        return Err(Refusal::BadRun.into());
    }
    let first = Frame::numbered(end + gap);
    Ok((Run { first, pages }, next))
}

// The runs from a place on, their rows laid over the lent numbers.
pub fn read_runs(
    s: &[u8],
    from: usize,
    count: usize,
    rows: &mut [u64],
) -> Result<(u64, usize), Fault>
    requires { count ≤ 1000 }
    ensures { RunsLaid (runs_from count 0 0 s.now from) rows.old result rows.new }
{
    let mut at = from;
    let mut least = 0;
    let mut end = 0;
    let mut pages = 0;
    for i in 0..count {
        let (run, next) = read_run(s, at, least, end)?;
        put_row(rows, i, run, pages);
        end = run.first.number() + run.pages;
        pages += run.pages;
        least = 1;
        at = next;
    }
    Ok((pages, at))
}

// Stores a run's row; `pages` is how many pages stand before it in the image.
fn put_row(rows: &mut [u64], i: usize, run: Run, pages: u64)
    requires { (i < 1000) × ((run.first.0 ≤ 2 ^ 36) × ((run.pages ≤ 2 ^ 36) × (pages ≤ run.first.0))) }
    ensures { rows.new ≡ with_row rows.old i pages run }
{
    let first = run.first.number();
    base::put(rows, 3 * i, first);
    base::put(rows, 3 * i + 1, first + run.pages);
    base::put(rows, 3 * i + 2, first - pages);
}
