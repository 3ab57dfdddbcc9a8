// Where an entry leads by itself: to a place in the image or the pagefile, to zeros, or to a refusal.
#![tactic(auto)]

ghost use Rattle.std.specs.Prelude.{◌≡◌, length};
ghost use Rattle.entry.specs.Entry.{size_bits};
ghost use Rattle.frames.specs.Rows.{rows_page};
ghost use Rattle.walk.specs.Walk.{frame_in, in_page, pagefile_place, settle_of};

use base::{PAGE_BYTES, Refusal};
use entry::{EntryPlace, Frame, PageSize, PagefilePage};
use walk::Place;

// Where an entry leads by itself, for an address. Rows and files go apart: the case that holds them stands above (`resolution`).
#[tactic(auto, unfolding(walk::specs::Walk::settle_of))]
#[inline(always)]
pub fn settle(rows: &[u64], image: &[u8], pagefile: &[u8], address: u64, rest: EntryPlace) -> Place
    ensures { result ≡ settle_of (rows_page rows.now (length image.now)) (length pagefile.now) address rest }
{
    match rest {
        EntryPlace::InFrame(f, size) => in_frame(rows, image, frame_in(f, size, address), address),
        EntryPlace::InPagefile(p) => in_pagefile(pagefile, p, address),
        EntryPlace::ZeroPage => Place::Zeros,
        EntryPlace::Refused(r) => Place::Refused(r),
    }
}

// The place of an address in a frame.
fn in_frame(rows: &[u64], image: &[u8], f: Frame, address: u64) -> Place
    ensures { result ≡ in_page address (rows_page rows.now (length image.now) f) }
{
    match frames::locate(rows, image.len() as u64, f) {
        None => Place::Refused(Refusal::FrameInNoRun),
        Some(p) => Place::Image(p * PAGE_BYTES + address % PAGE_BYTES),
    }
}

// The place of an address in a page of the pagefile.
fn in_pagefile(pagefile: &[u8], page: PagefilePage, address: u64) -> Place
    ensures { result ≡ pagefile_place (length pagefile.now) page address }
{
    let p = page.number();
    if p < pagefile.len() as u64 / PAGE_BYTES {
        return Place::Pagefile(p * PAGE_BYTES + address % PAGE_BYTES);
    }
    Place::Refused(Refusal::PastPagefile)
}

// The frame of an address in the page of this size that holds a frame: the low bits are the address's.
#[tactic(auto, unfolding(walk::specs::Walk::frame_in))]
fn frame_in(f: Frame, size: PageSize, address: u64) -> Frame
    ensures { result ≡ frame_in f size address }
{
    let low = size_bits(size) - 12;
    Frame::numbered((f.number() >> low << low) + (address >> 12) % (1 << low))
}

// The address bits of a place in a page.
fn size_bits(size: PageSize) -> u32
    ensures { result ≡ size_bits size }
{
    match size {
        PageSize::Page4K => 12,
        PageSize::Page2M => 21,
        PageSize::Page4M => 22,
        PageSize::Page1G => 30,
    }
}
