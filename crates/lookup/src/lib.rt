// The lookup call: a map's bytes and an address, to the number and the offset that the map has for it.
#![tactic(auto)]

ghost use Rattle.std.specs.Prelude.{◌≡◌, ◌<◌, ◌^◌, IfOk};
ghost use Rattle.map_format.specs.Extents.{no_extent};
ghost use Rattle.map_format.specs.Reading.{extents_from, map_fields};
ghost use Rattle.lookup.specs.Call.{fault_found, answer_at, in_range, LookupAnswer};
ghost use Rattle.lookup.specs.Inner.{extent_noted, page_of_read, asked_of, found_in};

use base::{Fault, PAGE_BYTES, Refusal};
use entry::VirtualPage;
use map_format::{Extent, Header, MappedPage};

// 01's number and the offset in the file: numbers, since C reads them.
#[repr(C)]
#[derive(Clone, Copy)]
pub struct Found {
    pub number: u64,
    pub offset: u64,
}

// A map at fault, or an address that is refused.
impl From<Fault> for Found {
    ghost from_gives = { λ f r. r ≡ fault_found f };

    fn from(fault: Fault) -> Found {
        Found {
            number: fault.refusal.number(),
            offset: fault.shown_position(),
        }
    }
}

pub fn lookup(map: &[u8], address: u64) -> Found
    ensures { LookupAnswer map.now address result }
{
    match look_up(map, address) {
        Ok(found) => found,
        Err(fault) => fault.into(),
    }
}

// The whole map is read before a refused address is told, so that the map's faults come first.
fn look_up(map: &[u8], address: u64) -> Result<Found, Fault>
    ensures { result ≡ found_in address (map_fields map.now 0) }
{
    let (header, at) = map_format::read_header(map)?;
    let asked = asked_page(header, address);
    let page = read_page(map, at, header.count, asked.unwrap_or(0))?;
    asked?;
    Ok(place(address, page))
}

// 20, then 41, then the page of the range that an address asks for.
#[tactic(auto, unfolding(crate::specs::Inner::asked_of))]
fn asked_page(header: Header, address: u64) -> Result<u64, Refusal>
    ensures { result ≡ asked_of header address }
{
    if !entry::is_canonical(address) {
        return Err(Refusal::NotCanonical);
    }
    let page = VirtualPage::of_address(address);
    if !is_in_range(header, page) {
        return Err(Refusal::OutsideMap);
    }
    Ok(page.number() - header.start.number())
}

fn is_in_range(header: Header, page: VirtualPage) -> bool
    ensures { result ≡ in_range header page }
{
    let asked = page.number();
    let start = header.start.number();
    start <= asked && asked - start < header.count
}

// For 1 and 2 the place in the page counts from the page's place in the file.
fn place(address: u64, page: MappedPage) -> Found
    requires { page.file < 2 ^ 36 }
    ensures { result ≡ answer_at address page }
{
    let offset = if map_format::has_file_page(page.code) {
        PAGE_BYTES * page.file + address % PAGE_BYTES
    } else {
        0
    };
    Found {
        number: page.code,
        offset,
    }
}

// The answer of page k of `count` pages, whose extents stand from `from` to the end.
fn read_page(s: &[u8], from: usize, count: u64, k: u64) -> Result<MappedPage, Fault>
    requires { k < count }
    ensures same { result ≡ page_of_read s.now k (extents_from count count no_extent s.now from) }
    ensures low { IfOk result (λ p. p.file < 2 ^ 36) }
{
    let mut at = from;
    let mut left = count;
    let mut prev = Extent::NONE;
    // Page k is in the last extent that begins at or before it, for no page is left out between two.
    let mut noted = (Extent::NONE, 0);
    // The loop goes by the pages that are left: an extent ends where its last field has been read.
    while 0 < left {
        let (e, next) = map_format::read_extent(s, at, left, prev)?;
        noted = note(noted, count - left, k, e);
        left -= e.pages;
        prev = e;
        at = next;
    }
    let (extent, n) = noted;
    let page = extent.page(n);
    if at != s.len() {
        return Err(Refusal::TrailingBytes.into());
    }
    Ok(page)
}

// The last extent that begins at or before page k, and the page's place in it, with an extent after `done` pages.
#[tactic(auto, unfolding(crate::specs::Inner::extent_noted))]
fn note(old: (Extent, u64), done: u64, k: u64, e: Extent) -> (Extent, u64)
    ensures { result ≡ extent_noted old done k e }
{
    match k.checked_sub(done) {
        Some(n) => (e, n),
        None => old,
    }
}
