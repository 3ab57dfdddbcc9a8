// What every call on a case shares: opening the case, and the answer for an address.
#![tactic(auto)]

ghost use Rattle.std.specs.Prelude.{◌≡◌, ◌≤◌, length};
ghost use Rattle.case.specs.Case.{case_of, check_of};
ghost use Rattle.case.specs.Answer.{place_answer, refusal, fault_answer};
ghost use Rattle.case.specs.Inner.{Opens, row_numbers, four_levels_case};
ghost use Rattle.case.specs.Run.{MayRun, Ran};

use base::{Fault, Refusal};
use entry::PagingMode;
use resolution::OpenCase;
use sheet::AddressSpace;
use walk::{Place, Resolved};

// 01's number, the addressed byte's offset in its file, and the entries read: numbers, since C reads them.
#[repr(C)]
#[derive(Clone, Copy)]
pub struct Answer {
    pub number: u64,
    pub offset: u64,
    pub entries: u64,
}

impl From<Refusal> for Answer {
    ghost from_gives = { λ r a. a ≡ refusal r };

    fn from(refusal: Refusal) -> Answer {
        Answer {
            number: refusal.number(),
            offset: 0,
            entries: 0,
        }
    }
}

impl From<Fault> for Answer {
    ghost from_gives = { λ f a. a ≡ fault_answer f };

    fn from(fault: Fault) -> Answer {
        Answer {
            offset: fault.shown_position(),
            ..Answer::from(fault.refusal)
        }
    }
}

// 01's number and offset of where an address leads.
impl From<Resolved> for Answer {
    ghost from_gives = { λ found a. a ≡ place_answer found.place found.entries };

    fn from(found: Resolved) -> Answer {
        let entries = found.entries;
        let (number, offset) = match found.place {
            Place::Image(offset) => (1, offset),
            Place::Pagefile(offset) => (2, offset),
            Place::Zeros => (3, 0),
            Place::Refused(refusal) => (refusal.number(), 0),
        };
        Answer {
            number,
            offset,
            entries,
        }
    }
}

// Opens a case and runs a call on it and on a lent buffer. Its rows lie in an array no longer than the sheet needs, since clearing a long one takes time.
pub fn with_case<T, R, F: FnOnce(OpenCase, &mut [T]) -> Result<R, Fault>>(
    sheet: &[u8],
    image: &[u8],
    pagefile: &[u8],
    out: &mut [T],
    call: F,
) -> Result<R, Fault>
    requires { MayRun (case_of sheet.now image.now pagefile.now) (λ o. (lent : _) → lent.now ≡ out.old → F.pre call o lent) }
    ensures { Ran (case_of sheet.now image.now pagefile.now) out.old (λ o lent r left. F.post call o lent r left) result out.new }
{
    if sheet_header::has_few_runs(sheet) {
        let mut few = [0u64; 96];
        return run_over(sheet, image, pagefile, &mut few, out, call);
    }
    let mut rows = [0u64; 3000];
    run_over(sheet, image, pagefile, &mut rows, out, call)
}

// The same, with the rows over lent numbers.
fn run_over<T, R, F: FnOnce(OpenCase, &mut [T]) -> Result<R, Fault>>(
    sheet: &[u8],
    image: &[u8],
    pagefile: &[u8],
    rows: &mut [u64],
    out: &mut [T],
    call: F,
) -> Result<R, Fault>
    requires enough { row_numbers (case_of sheet.now image.now pagefile.now) ≤ length rows.old }
    requires may_run { MayRun (case_of sheet.now image.now pagefile.now) (λ o. (lent : _) → lent.now ≡ out.old → F.pre call o lent) }
    ensures { Ran (case_of sheet.now image.now pagefile.now) out.old (λ o lent r left. F.post call o lent r left) result out.new }
{
    let (space, n) = open_case(sheet, image, pagefile, rows)?;
    let opened = OpenCase {
        rows: &rows[..n],
        space,
        image,
        pagefile,
    };
    call(opened, out)
}

// Checks the sheet and the two lengths, and lays the rows of the runs over the lent numbers: the address space, and how many numbers the rows take.
pub fn open_case(
    sheet: &[u8],
    image: &[u8],
    pagefile: &[u8],
    rows: &mut [u64],
) -> Result<(AddressSpace, usize), Fault>
    ensures { Opens (check_of (case_of sheet.now image.now pagefile.now)) rows.old result rows.new }
{
    let header = sheet_reader::read_sheet(sheet, image.len() as u64, pagefile.len() as u64, rows)?;
    Ok((header.space, 3 * header.count))
}

// The case again for a call that serves four levels alone: the other modes are 37.
pub fn four_levels_case(case: OpenCase<'_>) -> Result<OpenCase<'_>, Refusal>
    ensures { result ≡ four_levels_case case.entry.space.mode case.entry }
{
    match case.space.mode {
        PagingMode::FourLevel => Ok(case),
        PagingMode::Plain => Err(Refusal::ModeNotServed),
        PagingMode::Pae(_) => Err(Refusal::ModeNotServed),
    }
}
