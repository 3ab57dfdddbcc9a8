// The format of a map: pages joined into extents, laid out in seven-bit groups; one builder and one reader.
#![tactic(auto)]

ghost use Rattle.std.specs.Prelude.{◌≡◌, [], ◌∷◌, ◌<◌, ◌^◌};
ghost use Rattle.base.specs.Overlay.{Wrote};
ghost use Rattle.varint.specs.Answer.{as_result};
ghost use Rattle.map_format.specs.Extents.{mapped_page, has_file_page, page_after, joins};
ghost use Rattle.map_format.specs.Layout.{header_bytes, extent_bytes};
ghost use Rattle.map_format.specs.Reading.{in_half, header_fields, sound, extent_from};
ghost use Rattle.map_format.specs.Build.{open_bytes, PagesTaken, RoomFor};

use base::{Fault, Refusal};
use entry::VirtualPage;

// 01 "Maps": the most pages of a range.
pub const MOST_PAGES: u64 = 0x100000;

// The first virtual page of the upper half.
const UPPER_HALF_PAGE: u64 = 0x800000000;

// 01 "Maps": a range ends at or below this virtual page.
const VIRTUAL_PAGES: u64 = 0x1000000000;

// 01 "Maps": first page plus length is at most this.
const FILE_PAGES: u64 = 0x1000000000;

// The answer for a page: its number and, for 1 and 2, the page of the file. A code is a number and no enum: the bytes hold
// it, and `Fewest` (maps/specs/Demand3.antt) speaks of every list of extents, whatever their codes.
#[derive(Clone, Copy)]
pub struct MappedPage {
    pub code: u64,
    pub file: u64,
}

// Pages of one code; for codes 1 and 2 `first` is the first page of the file.
#[derive(Clone, Copy)]
pub struct Extent {
    pub code: u64,
    pub pages: u64,
    pub first: u64,
}

impl Extent {
    // Stands before the first extent. No Option: `sound` and `extents_from` (specs/Reading.antt) have 0 pages for none.
    pub const NONE: Extent = Extent {
        code: 0,
        pages: 0,
        first: 0,
    };

    // Page k of the extent, counted from 0.
    #[tactic(auto, unfolding(crate::specs::Extents::page_after))]
    pub fn page(self, k: u64) -> MappedPage
        requires { (k < 2 ^ 40) × (self.first < 2 ^ 40) }
        ensures { result ≡ mapped_page self.code (page_after self.code k self.first) }
    {
        MappedPage {
            code: self.code,
            file: if has_file_page(self.code) {
                self.first + k
            } else {
                self.first
            },
        }
    }

    // Does a page of this code at this page of the file belong to the extent before it?
    #[tactic(auto, unfolding(crate::specs::Extents::page_after))]
    fn joins(self, code: u64, file: u64) -> bool
        ensures { result ≡ joins self code file }
    {
        let pages = if has_file_page(code) { self.pages } else { 0 };
        self.code == code && self.first.checked_add(pages) == Some(file)
    }
}

// The range of a map: its first page and how many pages.
#[derive(Clone, Copy)]
pub struct Header {
    pub start: VirtualPage,
    pub count: u64,
}

// The last extent, still open, if there is one yet, and the place after what was written. The builder hands itself back
// (01 "Maps" names this form, `PagesTaken` states it), so the buffer is lent to each push.
#[derive(Clone, Copy)]
pub struct Builder {
    pub at: usize,
    pub last: Option<Extent>,
}

impl Builder {
    // Takes one page: it makes the open extent longer, or the open extent is written and the page opens the next.
    pub fn push(mut self, out: &mut [u8], page: MappedPage) -> Self
        requires { RoomFor self 1 }
        ensures { PagesTaken out.old self (page ∷ []) out.new result }
    {
        match self.last {
            Some(e) if e.joins(page.code, page.file) => {
                let pages = e.pages + 1;
                self.last = Some(Extent { pages, ..e });
            }
            _ => {
                self.at = self.finish(out);
                self.last = Some(Extent {
                    code: page.code,
                    pages: 1,
                    first: page.file,
                });
            }
        }
        self
    }

    // Writes the open extent and answers the place after it.
    #[tactic(auto, unfolding(crate::specs::Build::open_bytes))]
    pub fn finish(self, out: &mut [u8]) -> usize
        requires { RoomFor self 0 }
        ensures { Wrote out.old self.at (open_bytes self) result out.new }
    {
        match self.last {
            Some(e) => write_extent(out, self.at, e),
            None => self.at,
        }
    }
}

// Does an answer of this code have a page of a file?
pub fn has_file_page(code: u64) -> bool
    ensures { result ≡ has_file_page code }
{
    matches!(code, 1 | 2)
}

// Writes the header at the front, and answers the place after it.
#[tactic(auto, using(varint::proofs::Writing::encode_length))]
pub fn write_header(out: &mut [u8], header: Header) -> usize
    requires { (header.start.0 < 2 ^ 36) × (header.count < 2 ^ 36) }
    ensures { Wrote out.old 0 (header_bytes header) result out.new }
{
    let at = varint::write_number(out, 0, varint::EDITION);
    let at = varint::write_number(out, at, header.start.number());
    varint::write_number(out, at, header.count)
}

// The place goes beside the buffer: past the end `Wrote` counts bytes and keeps none, so no sub-slice serves, and a struct
// of both, which was tried, has as many lines.
#[tactic(auto, using(varint::proofs::Writing::encode_length))]
fn write_extent(out: &mut [u8], at: usize, e: Extent) -> usize
    requires { (at < 2 ^ 62) × ((e.code < 2 ^ 40) × ((e.pages < 2 ^ 40) × (e.first < 2 ^ 40))) }
    ensures { Wrote out.old at (extent_bytes e) result out.new }
{
    let at = varint::write_number(out, at, e.code);
    let at = varint::write_number(out, at, e.pages);
    if has_file_page(e.code) {
        varint::write_number(out, at, e.first)
    } else {
        at
    }
}

// The header of a map, and where its extents begin.
#[tactic(auto, unfolding(crate::specs::Reading::header_fields, varint::specs::Edition::edition_fields))]
pub fn read_header(s: &[u8]) -> Result<(Header, usize), Fault>
    ensures { result ≡ as_result (header_fields s.now 0) }
{
    let (_, at) = varint::read_edition(s)?;
    let (first, at) = varint::read_field(s, at)?;
    let (count, next) = varint::read_field(s, at)?;
    let start = VirtualPage::numbered(first);
    let header = Header { start, count };
    if !is_in_half(header) {
        return Err(Refusal::OutOfLimits.into());
    }
    Ok((header, next))
}

// 1 to 2^20 pages in one half?
fn is_in_half(header: Header) -> bool
    ensures { result ≡ in_half header.start header.count }
{
    let start = header.start.number();
    let end = if start < UPPER_HALF_PAGE {
        UPPER_HALF_PAGE
    } else {
        VIRTUAL_PAGES
    };
    matches!(header.count, 1..=MOST_PAGES) && start.saturating_add(header.count) <= end
}

// One extent after `prev`, with `left` pages left. The place goes beside the bytes: faults count from the map's first byte.
#[tactic(auto, unfolding(crate::specs::Reading::extent_from))]
pub fn read_extent(s: &[u8], at: usize, left: u64, prev: Extent) -> Result<(Extent, usize), Fault>
    ensures { result ≡ as_result (extent_from left prev s.now at) }
{
    let (code, at) = varint::read_field(s, at)?;
    if !base::is_code(code) {
        return Err(Refusal::BadExtent.into());
    }
    let (pages, at) = varint::read_field(s, at)?;
    let (first, next) = if has_file_page(code) {
        varint::read_field(s, at)?
    } else {
        (0, at)
    };
    let e = Extent { code, pages, first };
    if !is_sound(left, prev, e) {
        return Err(Refusal::BadExtent.into());
    }
    Ok((e, next))
}

// Do the rules of an extent hold?
#[tactic(auto, unfolding(crate::specs::Reading::sound))]
fn is_sound(left: u64, prev: Extent, e: Extent) -> bool
    ensures { result ≡ sound left prev e }
{
    0 < e.pages
        && e.pages <= left
        && (!has_file_page(e.code) || e.first.saturating_add(e.pages) <= FILE_PAGES)
        && !(0 < prev.pages && prev.joins(e.code, e.first))
}
