// The case sheet: its bytes, with the lengths of the image and the pagefile, to the address space and the runs.
#![tactic(auto)]

ghost use Rattle.std.specs.Prelude.{◌≡◌};
ghost use Rattle.sheet.specs.Sheet.{own_fields, sheet_of};
ghost use Rattle.sheet.specs.Call.{sheet_read, SheetAnswer};
ghost use Rattle.sheet.specs.Inner.{FieldsLaid};

use base::{Fault, PAGE_BYTES, Refusal};
use sheet::Header;

// The check of a sheet and the two lengths, which `glint_case` lends in place of files.
pub fn check_sheet(sheet: &[u8], image: u64, pagefile: u64) -> Result<Header, Fault>
    ensures { result ≡ sheet_read (sheet_of sheet.now image pagefile) }
{
    read_sheet(sheet, image, pagefile, &mut [])
}

// The same, with the rows of the runs laid over the lent numbers, three a run: its first frame, the frame after its last,
// and how many frames below it are in no run, so that a frame less these is its image page. Numbers, since `glint_case` lends
// them in its own buffer.
pub fn read_sheet(
    sheet: &[u8],
    image: u64,
    pagefile: u64,
    rows: &mut [u64],
) -> Result<Header, Fault>
    ensures { SheetAnswer (sheet_of sheet.now image pagefile) rows.old result rows.new }
{
    let (header, pages) = read_fields(sheet, rows)?;
    if image != PAGE_BYTES * pages {
        return Err(Refusal::ImageLengthDiffers.into());
    }
    if pagefile % PAGE_BYTES != 0 {
        return Err(Refusal::PagefileNotWholePages.into());
    }
    Ok(header)
}

// Every field of a sheet, with the rows of its runs laid over the lent numbers, and the pages of its runs.
pub fn read_fields(sheet: &[u8], rows: &mut [u64]) -> Result<(Header, u64), Fault>
    ensures { FieldsLaid (own_fields sheet.now 0) rows.old result rows.new }
{
    let (header, at) = sheet_header::read_header(sheet)?;
    let (pages, end) = sheet_runs::read_runs(sheet, at, header.count, rows)?;
    if end != sheet.len() {
        return Err(Refusal::TrailingBytes.into());
    }
    Ok((header, pages))
}
