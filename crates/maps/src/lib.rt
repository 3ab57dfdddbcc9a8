// The map call: where each page of a range leads, as extents.
#![tactic(auto)]

ghost use Rattle.std.specs.Prelude.{◌≡◌, true, ◌≤◌, ◌^◌, length};
ghost use Rattle.base.specs.Overlay.{Wrote};
ghost use Rattle.resolution.specs.Open.{open_world};
ghost use Rattle.case.specs.Case.{case_of};
ghost use Rattle.maps.specs.MapOf.{allowed, allowed_wide, allowed_narrow, mapped_page_of, map_of};
ghost use Rattle.maps.specs.Call.{MapAnswer};
ghost use Rattle.maps.specs.Inner.{map_into};

use base::{Fault, PAGE_BYTES, Refusal, TOP_ADDRESS, Written};
use case::Answer;
use entry::{PagingMode, VirtualPage};
use map_format::{Builder, Header, MappedPage};
use resolution::OpenCase;
use walk::Resolved;

// 01 "One address": canonical addresses lie below this one ..
const LOWER_HALF_END: u64 = 0x800000000000;

// .. or from this one on, up to the top.
const UPPER_HALF: u64 = 0xFFFF800000000000;

// 02, order 7: the addresses of a 32-bit profile lie below 2^32.
const NARROW_END: u64 = 0x100000000;

// A range of an opened case that can be mapped.
#[derive(Clone, Copy)]
struct Range<'a> {
    case: OpenCase<'a>,
    start: u64,
    pages: u64,
    ghost tested: { allowed case.space.mode start pages ≡ true },
    ghost small: { length case.image.now ≤ 2 ^ 48 },
}

// The map of a range into the lent buffer.
pub fn map_range(
    sheet: &[u8],
    image: &[u8],
    pagefile: &[u8],
    start: u64,
    pages: u64,
    out: &mut [u8],
) -> Written
    ensures { MapAnswer (case_of sheet.now image.now pagefile.now) start pages out.old result out.new }
{
    let mapped = case::with_case(
        sheet,
        image,
        pagefile,
        out,
        |case, out|
            requires { length case.image.now ≤ 2 ^ 48 }
        { map_in(case, start, pages, out) },
    );
    match mapped {
        Ok(length) => Written { number: 0, length },
        Err(fault) => fault.into(),
    }
}

// The same of an opened case: a measuring pass, then a writing one.
fn map_in(case: OpenCase, start: u64, pages: u64, out: &mut [u8]) -> Result<u64, Fault>
    requires { length case.image.now ≤ 2 ^ 48 }
    ensures { (result, out.new) ≡ map_into (open_world case.entry) start pages out.old }
{
    if !is_allowed(case.space.mode, start, pages) {
        return Err(Refusal::BadMapRange.into());
    }
    let range = Range { case, start, pages };
    let length = range.write_map(&mut out[..0]);
    if out.len() < length {
        return Err(Refusal::MapBufferShort.into());
    }
    range.write_map(out);
    Ok(length as u64)
}

// Can a range of an address space be mapped?
#[tactic(auto, unfolding(crate::specs::MapOf::allowed))]
fn is_allowed(mode: PagingMode, start: u64, pages: u64) -> bool
    ensures { result ≡ allowed mode start pages }
{
    match mode {
        PagingMode::FourLevel => is_allowed_wide(start, pages),
        PagingMode::Plain | PagingMode::Pae(_) => is_allowed_narrow(start, pages),
    }
}

// Whole pages, at least one, that end at or below 2^32.
#[tactic(auto, unfolding(crate::specs::MapOf::allowed_narrow))]
fn is_allowed_narrow(start: u64, pages: u64) -> bool
    ensures { result ≡ allowed_narrow start pages }
{
    start % PAGE_BYTES == 0
        && 1 <= pages
        && start <= NARROW_END
        && pages <= (NARROW_END - start) / PAGE_BYTES
}

// 1 to 2^20 whole pages, all canonical and in one half.
#[tactic(auto, unfolding(crate::specs::MapOf::allowed_wide))]
fn is_allowed_wide(start: u64, pages: u64) -> bool
    ensures { result ≡ allowed_wide start pages }
{
    start % PAGE_BYTES == 0
        && matches!(pages, 1..=map_format::MOST_PAGES)
        && if start < UPPER_HALF {
            start <= LOWER_HALF_END && PAGE_BYTES * pages <= LOWER_HALF_END - start
        } else {
            PAGE_BYTES * pages - 1 <= TOP_ADDRESS - start
        }
}

impl Range<'_> {
    // Writes the map, and answers its length; bytes that fall past the buffer's end are counted and not written.
    fn write_map(&self, out: &mut [u8]) -> usize
        ensures { Wrote out.old 0 (map_of (open_world self.now.case) self.now.start self.now.pages) result out.new }
    {
        let header = Header {
            start: VirtualPage::of_address(self.start),
            count: self.pages,
        };
        let at = map_format::write_header(out, header);
        let mut builder = Builder { at, last: None };
        for i in 0..self.pages {
            let found = self.case.resolve(self.start + PAGE_BYTES * i);
            builder = builder.push(out, mapped_page(found));
        }
        builder.finish(out)
    }
}

// A page of the map, from the answer for its first byte: the number as code, the offset in pages of the file. Neither type is of this crate, so it is no `From`.
fn mapped_page(found: Resolved) -> MappedPage
    ensures { result ≡ mapped_page_of found.place }
{
    let answer = Answer::from(found);
    MappedPage {
        code: answer.number,
        file: answer.offset / PAGE_BYTES,
    }
}
