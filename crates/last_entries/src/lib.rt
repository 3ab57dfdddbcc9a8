// What a last-level entry says, and an entry at a prototype address.
#![tactic(auto)]

ghost use Rattle.std.specs.Prelude.{◌≡◌, ◌<◌, ◌^◌};
ghost use Rattle.entry.specs.Entry.{valid_of, transition, software_of, extended, leaf_in, prototype_of};

use base::Refusal;
use entry::{EntryPlace, Frame, Leaf, PageSize, PagefilePage, PagingMode, bit, bits};

// Bits 16-63 of a prototype entry that stands for a region record.
const REGION_VALUE: u64 = 0xFFFFFFFF0000;
// What extends bit 47, if it is set, to 64 bits.
const HIGH_BITS: u64 = 0xFFFF000000000000;

// A last-level entry of a paging mode: the 32-bit profiles follow two states, four levels all.
#[tactic(auto, unfolding(entry::specs::Entry::leaf_in, entry::specs::Entry::leaf_of, entry::specs::Entry::narrow_leaf_of))]
pub fn last_entry(mode: PagingMode, e: u64) -> Leaf
    ensures { result ≡ leaf_in mode e }
{
    if bit(e, 0) {
        return Leaf::Settled(valid_entry(e));
    }
    if in_transition(e) {
        return Leaf::Settled(EntryPlace::InFrame(Frame::of_entry(e), PageSize::Page4K));
    }
    if !matches!(mode, PagingMode::FourLevel) {
        return Leaf::Settled(EntryPlace::Refused(Refusal::StateNotFollowed));
    }
    if bit(e, 10) {
        let high = bits(e, 16, 63);
        if high == REGION_VALUE {
            return Leaf::NeedsRegion;
        }
        return Leaf::Prototype(extend(high));
    }
    if e == 0 {
        return Leaf::NeedsRegion;
    }
    Leaf::Settled(software_entry(e))
}

// An entry found at a prototype address.
#[tactic(auto, unfolding(entry::specs::Entry::prototype_of))]
pub fn prototype_entry(e: u64) -> EntryPlace
    ensures { result ≡ prototype_of e }
{
    if bit(e, 0) {
        return valid_entry(e);
    }
    if bit(e, 10) {
        return EntryPlace::Refused(Refusal::FileBacked);
    }
    if in_transition(e) {
        return EntryPlace::InFrame(Frame::of_entry(e), PageSize::Page4K);
    }
    software_entry(e)
}

fn valid_entry(e: u64) -> EntryPlace
    ensures { result ≡ valid_of e }
{
    if bits(e, 48, 51) != 0 {
        return EntryPlace::Refused(Refusal::FrameTooWide);
    }
    EntryPlace::InFrame(Frame::of_entry(e), PageSize::Page4K)
}

// Transition set, Prototype clear.
fn in_transition(e: u64) -> bool
    ensures { result ≡ transition e }
{
    bit(e, 11) && !bit(e, 10)
}

fn software_entry(e: u64) -> EntryPlace
    ensures { result ≡ software_of e }
{
    if bits(e, 32, 63) == 0 {
        return EntryPlace::ZeroPage;
    }
    // A page of the compressed store.
    if bit(e, 22) {
        return EntryPlace::Refused(Refusal::PageInStore);
    }
    if bits(e, 1, 4) != 0 {
        return EntryPlace::Refused(Refusal::OtherPagefile);
    }
    EntryPlace::InPagefile(PagefilePage::of_entry(e))
}

// 48 bits, extended from their top bit.
fn extend(high: u64) -> u64
    requires { high < 2 ^ 48 }
    ensures { result ≡ extended high }
{
    if bit(high, 47) {
        high + HIGH_BITS
    } else {
        high
    }
}
