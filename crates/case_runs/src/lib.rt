// What a case's sheet says, in numbers: the directory page, its paging mode and place, and where each run lies in physical memory and in the image.
#![tactic(auto)]

ghost use Rattle.std.specs.Prelude.{◌≡◌};
ghost use Rattle.case_runs.specs.Call.{case_refusal, fault_case, case_runs_of, image_length_of};
ghost use Rattle.case_runs.specs.Inner.{RowsInOrder, runs_of_rows};

use base::{Fault, PAGE_BYTES, Refusal, Written};
use sheet::ModeNumbers;

// 01's number, or 53 for a buffer too short; the directory page, the paging mode's two numbers, and how many runs there are: numbers, since C reads them.
#[repr(C)]
#[derive(Clone, Copy)]
pub struct CaseRead {
    pub number: u64,
    pub directory: u64,
    pub mode: u64,
    pub place: u64,
    pub length: u64,
}

impl From<Refusal> for CaseRead {
    ghost from_gives = { λ r a. a ≡ case_refusal r };

    fn from(refusal: Refusal) -> CaseRead {
        CaseRead {
            number: refusal.number(),
            directory: 0,
            mode: 0,
            place: 0,
            length: 0,
        }
    }
}

// The same for a sheet at fault.
impl From<Fault> for CaseRead {
    ghost from_gives = { λ f a. a ≡ fault_case f };

    fn from(fault: Fault) -> CaseRead {
        CaseRead {
            length: fault.shown_position(),
            ..fault.refusal.into()
        }
    }
}

// The address space of a case, and three numbers a run into the lent buffer: first frame, pages, image page.
pub fn case_runs(sheet: &[u8], image: u64, pagefile: u64, out: &mut [u64]) -> CaseRead
    ensures { record { answer = result; buffer = out.new } ≡ case_runs_of sheet.now image pagefile out.old }
{
    let header = match sheet_reader::check_sheet(sheet, image, pagefile) {
        Ok(header) => header,
        Err(fault) => return fault.into(),
    };
    if out.len() / 3 < header.count {
        return Refusal::ListBufferShort.into();
    }
    let rows = &mut out[..3 * header.count];
    // It was accepted before.
    let _header = sheet_reader::read_sheet(sheet, image, pagefile, rows);
    rows_to_runs(rows);
    let numbers = ModeNumbers::from(header.space.mode);
    CaseRead {
        number: 0,
        directory: header.space.directory.number(),
        mode: numbers.mode,
        place: numbers.place,
        length: header.count as u64,
    }
}

// The length in bytes that a sheet asks of its image.
pub fn image_length(sheet: &[u8]) -> Written
    ensures { result ≡ image_length_of sheet.now }
{
    match sheet_reader::read_fields(sheet, &mut []) {
        Ok((_, pages)) => {
            let length = PAGE_BYTES * pages;
            Written { number: 0, length }
        }
        Err(fault) => fault.into(),
    }
}

// Makes of each of a sheet's rows the numbers of its run.
fn rows_to_runs(rows: &mut [u64])
    requires { RowsInOrder rows.old }
    ensures { rows.new ≡ runs_of_rows rows.old }
{
    // By index: a recursion over slice patterns was tried, and its last goal stayed open.
    for i in 0..rows.len() / 3 {
        let at = 3 * i;
        let first = rows[at];
        let end = rows[at + 1];
        let skipped = rows[at + 2];
        rows[at + 1] = end - first;
        rows[at + 2] = first - skipped;
    }
}
