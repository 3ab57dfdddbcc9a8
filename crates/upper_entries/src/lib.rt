// What an entry above the last level says.
#![tactic(auto)]

ghost use Rattle.std.specs.Prelude.{◌≡◌};
ghost use Rattle.entry.specs.Entry.{large_of, has_reserved, upper_of};

use base::Refusal;
use entry::{Frame, Level, PageSize, Upper, bit, bits};

// An entry above the last level.
#[tactic(auto, unfolding(entry::specs::Entry::upper_of))]
pub fn upper_entry(level: Level, e: u64) -> Upper
    ensures { result ≡ upper_of level e }
{
    if !bit(e, 0) {
        if level.region {
            return Upper::UpperNeedsRegion;
        }
        return Upper::Refused(Refusal::UpperEntryNotValid);
    }
    if bits(e, 48, 51) != 0 {
        return Upper::Refused(Refusal::FrameTooWide);
    }
    let f = Frame::of_entry(e);
    if !bit(e, 7) {
        return Upper::Table(f);
    }
    match level.reserved {
        Some(refusal) if has_reserved(level.large, e) => Upper::Refused(refusal),
        _ => large_page(level.large, f),
    }
}

// What bit 7 makes of a valid entry.
fn large_page(size: PageSize, f: Frame) -> Upper
    ensures { result ≡ large_of size f }
{
    match size {
        PageSize::Page4K => Upper::Table(f),
        _ => Upper::LargePage(f, size),
    }
}

// Has an entry with bit 7 set a reserved bit: bit 7 where it makes no page, or one of bits 13 up to the page's base?
#[tactic(auto, unfolding(entry::specs::Entry::has_reserved))]
fn has_reserved(size: PageSize, e: u64) -> bool
    ensures { result ≡ has_reserved size e }
{
    match size {
        PageSize::Page4K => true,
        PageSize::Page2M => bits(e, 13, 20) != 0,
        PageSize::Page4M => bits(e, 13, 21) != 0,
        PageSize::Page1G => bits(e, 13, 29) != 0,
    }
}
