// The given runs: whether they can be written, else 13, and those that touch joined one by one.
#![tactic(auto)]

ghost use Rattle.std.specs.Prelude.{◌≡◌, ◌+◌, ◌≤◌, ◌<◌, ◌^◌};
ghost use Rattle.std.specs.Option.{option_map};
ghost use Rattle.std.specs.Result.{result_map_both};
ghost use Rattle.sheet.specs.Sheet.{end_of};
ghost use Rattle.sheet_limits.specs.Write.{runs_of, touches};
ghost use Rattle.joined_runs.specs.Inner.{given_run, counted_runs, run_after, joined_run};

use base::Refusal;
use entry::Frame;
use sheet::{Run, TOP_PAGE};
use sheet_limits::GivenRuns;

// 02 order 4: a joined run of this many pages has no written length.
const WHOLE: u64 = 0x1000000000;

// A run that ends at or below page 2^36.
#[derive(Clone, Copy)]
pub struct RunBelowTop {
    pub run: Run,
    pub ghost top: { end_of run ≤ 2 ^ 36 },
}

// 13, or how many runs there are once those that touch are joined.
pub fn count_runs(runs: GivenRuns) -> Result<usize, Refusal>
    ensures { result ≡ counted_runs (runs_of runs.entry.starts.now runs.entry.lengths.now) }
{
    let mut last = RunBelowTop::after(0, runs.starts[0], runs.lengths[0])?;
    let mut count = 1;
    for (start, pages) in runs.starts[1..].iter().zip(&runs.lengths[1..]) {
        let run = RunBelowTop::after(last.end(), *start, *pages)?;
        match last.joined_with(run) {
            Some(both) => last = both,
            None => {
                count += 1;
                last = run;
            }
        }
    }
    if WHOLE <= last.run.pages {
        return Err(Refusal::BadRun);
    }
    Ok(count)
}

// The run of a start and a length, in pages.
pub fn given_run(start: u64, pages: u64) -> Run
    ensures { result ≡ given_run start pages }
{
    let first = Frame::numbered(start);
    Run { first, pages }
}

impl RunBelowTop {
    // The same, where it ends below the top.
    pub fn given(start: u64, pages: u64) -> RunBelowTop
        requires { start + pages ≤ 2 ^ 36 }
        ensures { result.run ≡ given_run start pages }
    {
        RunBelowTop {
            run: given_run(start, pages),
        }
    }

    // The same, unless it has no page, starts before the page `end` or ends past page 2^36: then 13.
    fn after(end: u64, start: u64, pages: u64) -> Result<RunBelowTop, Refusal>
        requires { (start < 2 ^ 36) × (pages < 2 ^ 36) }
        ensures { result_map_both (λ r. r.run) (λ e. e) result ≡ run_after end (given_run start pages) }
    {
        if pages < 1 || start < end || TOP_PAGE < start + pages {
            return Err(Refusal::BadRun);
        }
        Ok(RunBelowTop::given(start, pages))
    }

    // The page after the last.
    pub fn end(self) -> u64
        ensures { result ≡ end_of self.run }
    {
        self.run.first.number() + self.run.pages
    }

    // Does a run start at the end of this one?
    pub fn touches(self, next: Run) -> bool
        ensures { result ≡ touches self.run next }
    {
        self.end() == next.first.number()
    }

    // This run and the next as one, where they touch.
    pub fn joined_with(self, next: RunBelowTop) -> Option<RunBelowTop>
        ensures { option_map (λ r. r.run) result ≡ joined_run self.run next.run }
    {
        if !self.touches(next.run) {
            return None;
        }
        Some(RunBelowTop {
            run: Run {
                first: self.run.first,
                pages: self.run.pages + next.run.pages,
            },
        })
    }
}
