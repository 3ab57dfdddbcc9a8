// The exported calls: each hands on the call of the same meaning, with its whole contract.
#![tactic(auto)]

ghost use Rattle.std.specs.Prelude.{◌≡◌};
ghost use Rattle.case_runs.specs.Call.{case_runs_of, image_length_of};
ghost use Rattle.case.specs.Case.{case_of};
ghost use Rattle.address.specs.Page.{part_bytes};
ghost use Rattle.address.specs.Call.{AddressAnswer, PageAnswer, PageBytesAnswer};
ghost use Rattle.reading.specs.Call.{ReadAnswer};
ghost use Rattle.times.specs.Call.{TimeAnswer};
ghost use Rattle.lookup.specs.Call.{LookupAnswer};
ghost use Rattle.maps.specs.Call.{MapAnswer};
ghost use Rattle.processor_block.specs.Call.{BlockAnswer};
ghost use Rattle.process_list.specs.Call.{ListAnswer};
ghost use Rattle.pool.specs.Call.{PoolAnswer};
ghost use Rattle.sheet_writer.specs.Call.{WriteAnswer};

use address::Part;
use base::Written;
use case::Answer;
use case_runs::CaseRead;
use lookup::Found;
use reading::BytesRead;
use times::TimeRead;

#[unsafe(no_mangle)]
pub extern "C" fn glint_resolve(sheet: &[u8], image: &[u8], pagefile: &[u8], address: u64) -> Answer
    ensures { AddressAnswer (case_of sheet.now image.now pagefile.now) address result }
{
    address::resolve_address(sheet, image, pagefile, address)
}

// The page call's part: the bytes there are what `page_of` returns.
#[unsafe(no_mangle)]
pub extern "C" fn glint_page(sheet: &[u8], image: &[u8], pagefile: &[u8], address: u64) -> Part
    ensures part { PageAnswer (case_of sheet.now image.now pagefile.now) address result }
    ensures bytes { PageBytesAnswer (case_of sheet.now image.now pagefile.now) address (part_bytes image.now pagefile.now result) }
{
    address::page_part(sheet, image, pagefile, address)
}

#[unsafe(no_mangle)]
pub extern "C" fn glint_read(
    sheet: &[u8],
    image: &[u8],
    pagefile: &[u8],
    address: u64,
    n: u64,
    out: &mut [u8],
) -> BytesRead
    ensures { ReadAnswer (case_of sheet.now image.now pagefile.now) address n out.old result out.new }
{
    reading::read_bytes(sheet, image, pagefile, address, n, out)
}

#[unsafe(no_mangle)]
pub extern "C" fn glint_read_time(
    sheet: &[u8],
    image: &[u8],
    pagefile: &[u8],
    address: u64,
) -> TimeRead
    ensures { TimeAnswer (case_of sheet.now image.now pagefile.now) address result }
{
    times::read_time(sheet, image, pagefile, address)
}

#[unsafe(no_mangle)]
pub extern "C" fn glint_map(
    sheet: &[u8],
    image: &[u8],
    pagefile: &[u8],
    start: u64,
    pages: u64,
    out: &mut [u8],
) -> Written
    ensures { MapAnswer (case_of sheet.now image.now pagefile.now) start pages out.old result out.new }
{
    maps::map_range(sheet, image, pagefile, start, pages, out)
}

#[unsafe(no_mangle)]
pub extern "C" fn glint_lookup(map: &[u8], address: u64) -> Found
    ensures { LookupAnswer map.now address result }
{
    lookup::lookup(map, address)
}

#[unsafe(no_mangle)]
pub extern "C" fn glint_processor_block(
    sheet: &[u8],
    image: &[u8],
    pagefile: &[u8],
    from: u64,
) -> Answer
    ensures { BlockAnswer (case_of sheet.now image.now pagefile.now) from result }
{
    processor_block::processor_block(sheet, image, pagefile, from)
}

#[unsafe(no_mangle)]
pub extern "C" fn glint_process_list(
    sheet: &[u8],
    image: &[u8],
    pagefile: &[u8],
    head: u64,
    out: &mut [u64],
) -> Written
    ensures { ListAnswer (case_of sheet.now image.now pagefile.now) head out.old result out.new }
{
    process_list::process_list(sheet, image, pagefile, head, out)
}

// Of the two files it takes the lengths alone.
#[unsafe(no_mangle)]
pub extern "C" fn glint_case(
    sheet: &[u8],
    image_length: u64,
    pagefile_length: u64,
    out: &mut [u64],
) -> CaseRead
    ensures { record { answer = result; buffer = out.new } ≡ case_runs_of sheet.now image_length pagefile_length out.old }
{
    case_runs::case_runs(sheet, image_length, pagefile_length, out)
}

#[unsafe(no_mangle)]
pub extern "C" fn glint_image_length(sheet: &[u8]) -> Written
    ensures { result ≡ image_length_of sheet.now }
{
    case_runs::image_length(sheet)
}

#[unsafe(no_mangle)]
pub extern "C" fn glint_pool_headers(image: &[u8], out: &mut [u64]) -> Written
    ensures { PoolAnswer image.now out.old result out.new }
{
    pool::pool_headers(image, out)
}

#[unsafe(no_mangle)]
pub extern "C" fn glint_write_sheet(
    directory: u64,
    mode: u64,
    place: u64,
    starts: &[u64],
    lengths: &[u64],
    out: &mut [u8],
) -> Written
    ensures { WriteAnswer directory mode place starts.now lengths.now out.old result out.new }
{
    sheet_writer::write_sheet(directory, mode, place, starts, lengths, out)
}
