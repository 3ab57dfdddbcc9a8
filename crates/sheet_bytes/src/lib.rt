// The bytes of a sheet whose numbers and runs were judged: the fields before the runs, then the joined runs.
#![tactic(auto)]

ghost use Rattle.std.specs.Prelude.{◌≡◌, true, ◌≤◌, ◌<◌, ◌^◌};
ghost use Rattle.base.specs.Overlay.{Wrote};
ghost use Rattle.sheet.specs.Inner.{PlaceInPage};
ghost use Rattle.sheet_limits.specs.Write.{runs_of, in_order, joined_runs, edition_of, mode_bytes, header_bytes, run_bytes, runs_bytes, sheet_bytes};
ghost use Rattle.sheet_bytes.specs.Inner.{written_sheet, Ready, Room, RunTaken};

use entry::PagingMode;
use joined_runs::RunBelowTop;
use sheet::{Header, ModeNumbers, Run, SECOND_EDITION};
use sheet_limits::GivenRuns;

// The place after the runs that are written, the page at which they end, and the run after them, which the next may touch.
// No slice of the rest stands for the buffer and the place: what falls past the buffer's end is counted.
#[derive(Clone, Copy)]
struct RunWriter {
    at: usize,
    end: u64,
    last: RunBelowTop,
}

// Writes the whole sheet, and answers its length; bytes that fall past the buffer's end are counted and not written.
pub fn write_fields(header: Header, runs: GivenRuns, out: &mut [u8]) -> usize
    requires { Ready header runs.starts.now runs.lengths.now }
    ensures { Wrote out.old 0 (sheet_bytes (written_sheet header runs.entry.starts.now runs.entry.lengths.now)) result out.new }
{
    let at = write_header(out, header);
    write_runs(out, at, runs)
}

// Writes the fields before the runs, and answers the place after them.
fn write_header(out: &mut [u8], header: Header) -> usize
    requires { (header.space.directory.0 < 2 ^ 36) × (PlaceInPage header.space.mode × (header.count < 2 ^ 36)) }
    ensures { Wrote out.old 0 (header_bytes header) result out.new }
{
    let space = header.space;
    let a = varint::write_number(out, 0, edition_of(space.mode));
    let b = varint::write_number(out, a, space.directory.number());
    let c = write_mode(out, b, space.mode);
    varint::write_number(out, c, header.count as u64)
}

fn edition_of(mode: PagingMode) -> u64
    ensures { result ≡ edition_of mode }
{
    match mode {
        PagingMode::FourLevel => varint::EDITION,
        PagingMode::Plain | PagingMode::Pae(_) => SECOND_EDITION,
    }
}

// Writes the mode and the place, unless there are four levels, and answers the place after them.
fn write_mode(out: &mut [u8], at: usize, mode: PagingMode) -> usize
    requires { (at < 2 ^ 62) × PlaceInPage mode }
    ensures { Wrote out.old at (mode_bytes mode) result out.new }
{
    if let PagingMode::FourLevel = mode {
        return at;
    }
    let numbers = ModeNumbers::from(mode);
    let a = varint::write_number(out, at, numbers.mode);
    varint::write_number(out, a, numbers.place)
}

// Writes the joined runs from a place on, and answers the place after them.
fn write_runs(out: &mut [u8], from: usize, runs: GivenRuns) -> usize
    requires { (from < 2 ^ 61) × (in_order 0 (runs_of runs.starts.now runs.lengths.now) ≡ true) }
    ensures { Wrote out.old from (runs_bytes 0 (joined_runs (runs_of runs.entry.starts.now runs.entry.lengths.now))) result out.new }
{
    let mut writer = RunWriter {
        at: from,
        end: 0,
        last: RunBelowTop::given(runs.starts[0], runs.lengths[0]),
    };
    for (start, pages) in runs.starts[1..].iter().zip(&runs.lengths[1..]) {
        writer = writer.push(out, RunBelowTop::given(*start, *pages));
    }
    writer.finish(out)
}

impl RunWriter {
    // Takes the next run: it makes the last run longer, or the last run is written and the next one takes its place.
    fn push(self, out: &mut [u8], run: RunBelowTop) -> Self
        requires { Room self }
        ensures { RunTaken out.old self run.run out.new result }
    {
        match self.last.joined_with(run) {
            Some(both) => RunWriter { last: both, ..self },
            None => RunWriter {
                at: write_run(out, self.at, self.end, self.last),
                end: self.last.end(),
                last: run,
            },
        }
    }

    // Writes the last run, and answers the place after it.
    fn finish(self, out: &mut [u8]) -> usize
        requires { Room self }
        ensures { Wrote out.old self.at (run_bytes self.end self.last.run) result out.new }
    {
        write_run(out, self.at, self.end, self.last)
    }
}

// Writes a run's gap from the page `end` and its length, and answers the place after them.
fn write_run(out: &mut [u8], at: usize, end: u64, run: RunBelowTop) -> usize
    requires { (at < 2 ^ 62) × (end ≤ run.run.first.0) }
    ensures { Wrote out.old at (run_bytes end run.run) result out.new }
{
    let Run { first, pages } = run.run;
    let a = varint::write_number(out, at, first.number() - end);
    varint::write_number(out, a, pages)
}
