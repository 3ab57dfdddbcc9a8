// The fields of a sheet before its runs.
#![tactic(auto)]

ghost use Rattle.std.specs.Prelude.{◌≡◌};
ghost use Rattle.varint.specs.Answer.{as_result};
ghost use Rattle.sheet.specs.Sheet.{mode_by, header};
ghost use Rattle.sheet.specs.Inner.{few_runs};

use base::{Fault, Refusal};
use entry::{Frame, PagingMode};
use sheet::{AddressSpace, Header, MOST_RUNS, ModeNumbers, PAE, PLAIN, SECOND_EDITION};

// Runs for which a call lends its short array of rows: to clear the long one takes longer than a walk.
const FEW_RUNS: usize = 32;

// Has a sheet few runs? One whose fields are refused has none.
pub fn has_few_runs(sheet: &[u8]) -> bool
    ensures { result ≡ few_runs (header sheet.now 0) }
{
    match read_header(sheet) {
        Ok((header, _)) => header.count <= FEW_RUNS,
        Err(_) => true,
    }
}

#[tactic(auto, unfolding(sheet::specs::Sheet::header))]
pub fn read_header(s: &[u8]) -> Result<(Header, usize), Fault>
    ensures { result ≡ as_result (header s.now 0) }
{
    let (edition, at) = varint::read_field(s, 0)?;
    if !matches!(edition, varint::EDITION | SECOND_EDITION) {
        return Err(Refusal::OutOfLimits.into());
    }
    let (directory, at) = varint::read_field(s, at)?;
    let (mode, at) = read_mode(s, at, edition)?;
    let (count, next) = varint::read_field(s, at)?;
    if !(1..=MOST_RUNS).contains(&count) {
        return Err(Refusal::OutOfLimits.into());
    }
    let directory = Frame::numbered(directory);
    let space = AddressSpace { directory, mode };
    let count = count as usize;
    Ok((Header { space, count }, next))
}

// Edition 2's mode and place; edition 1 has no fields for it.
#[tactic(auto, unfolding(sheet::specs::Sheet::mode_fields))]
fn read_mode(s: &[u8], at: usize, edition: u64) -> Result<(PagingMode, usize), Fault>
    ensures { result ≡ as_result (mode_by edition s.now at) }
{
    if edition == varint::EDITION {
        return Ok((PagingMode::FourLevel, at));
    }
    let (mode, at) = varint::read_field(s, at)?;
    if !(PLAIN..=PAE).contains(&mode) {
        return Err(Refusal::OutOfLimits.into());
    }
    let (place, next) = varint::read_field(s, at)?;
    let numbers = ModeNumbers { mode, place };
    if !numbers.is_place() {
        return Err(Refusal::OutOfLimits.into());
    }
    Ok((numbers.into(), next))
}
