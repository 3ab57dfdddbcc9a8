// The sheet writer: an address space and given runs to the sheet's bytes, runs that touch joined.
#![tactic(auto)]

ghost use Rattle.std.specs.Prelude.{◌≡◌};
ghost use Rattle.sheet_bytes.specs.Inner.{written_sheet, Ready};
ghost use Rattle.sheet_writer.specs.Call.{write_sheet, sheet_outcome, WriteAnswer};
ghost use Rattle.sheet_writer.specs.Inner.{answered};

use base::{Refusal, Written};
use entry::Frame;
use sheet::{AddressSpace, Header, ModeNumbers};
use sheet_limits::GivenRuns;

// No sheet is longer: 11 bytes before the runs, then at most 12 a run.
const SHEET_BYTES: usize = 12011;

// The sheet of a directory page, a paging mode's number and the directory's place, and of runs with these starts and lengths,
// in pages, into the lent buffer: any numbers and two lists of any lengths, as C lends them.
pub fn write_sheet(
    directory: u64,
    mode: u64,
    place: u64,
    starts: &[u64],
    lengths: &[u64],
    out: &mut [u8],
) -> Written
    ensures { WriteAnswer directory mode place starts.now lengths.now out.old result out.new }
{
    match write_given(directory, mode, place, starts, lengths, out) {
        Ok(length) => Written {
            number: 0,
            length: length as u64,
        },
        Err(refusal) => refusal.into(),
    }
}

// The same with the sheet's length, or 12, 13 or 17.
fn write_given(
    directory: u64,
    mode: u64,
    place: u64,
    starts: &[u64],
    lengths: &[u64],
    out: &mut [u8],
) -> Result<usize, Refusal>
    ensures { answered result out.new ≡ write_sheet directory mode place starts.now lengths.now out.old }
{
    if !sheet_limits::is_in_limits(directory, mode, place, starts, lengths) {
        return Err(Refusal::OutOfLimits);
    }
    let runs = GivenRuns { starts, lengths };
    let count = joined_runs::count_runs(runs)?;
    let space = AddressSpace {
        directory: Frame::numbered(directory),
        mode: ModeNumbers { mode, place }.into(),
    };
    write_judged(Header { space, count }, runs, out)
}

// The same of numbers and runs that were judged: a measuring pass, where a sheet can be longer than the buffer, then a writing one.
fn write_judged(header: Header, runs: GivenRuns, out: &mut [u8]) -> Result<usize, Refusal>
    requires { Ready header runs.starts.now runs.lengths.now }
    ensures { answered result out.new ≡ sheet_outcome (written_sheet header runs.entry.starts.now runs.entry.lengths.now) out.old }
{
    if out.len() < SHEET_BYTES {
        let length = sheet_bytes::write_fields(header, runs, &mut []);
        if out.len() < length {
            return Err(Refusal::SheetBufferShort);
        }
    }
    Ok(sheet_bytes::write_fields(header, runs, out))
}
