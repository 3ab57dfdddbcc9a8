// The table of levels of each paging mode.
#![tactic(auto)]

ghost use Rattle.std.specs.Prelude.{◌≡◌};
ghost use Rattle.entry.specs.Entry.{row, level_of, levels_below};

use base::Refusal;
use entry::{Level, PageSize, PagingMode};

// The level of a table with `below` levels below it.
#[tactic(auto, unfolding(entry::specs::Entry::level_of))]
pub fn level_at(mode: PagingMode, below: u64) -> Level
    ensures { result ≡ level_of mode below }
{
    let reserved = Some(Refusal::ReservedBitSet);
    let too_wide = Some(Refusal::FrameTooWide);
    match (mode, below) {
        (PagingMode::FourLevel, 0) => level_row(12, 512, 8, PageSize::Page4K, None, false),
        (PagingMode::FourLevel, 1) => level_row(21, 512, 8, PageSize::Page2M, reserved, true),
        (PagingMode::FourLevel, 2) => level_row(30, 512, 8, PageSize::Page1G, reserved, false),
        (PagingMode::FourLevel, _) => level_row(39, 512, 8, PageSize::Page4K, reserved, false),
        (PagingMode::Plain, 0) => level_row(12, 1024, 4, PageSize::Page4K, None, false),
        (PagingMode::Plain, _) => level_row(22, 1024, 4, PageSize::Page4M, too_wide, false),
        (PagingMode::Pae(_), 0) => level_row(12, 512, 8, PageSize::Page4K, None, false),
        (PagingMode::Pae(_), 1) => level_row(21, 512, 8, PageSize::Page2M, reserved, false),
        (PagingMode::Pae(_), _) => level_row(30, 4, 8, PageSize::Page4K, reserved, false),
    }
}

// How many levels lie below the top table.
pub fn levels_below(mode: PagingMode) -> u64
    ensures { result ≡ levels_below mode }
{
    match mode {
        PagingMode::FourLevel => 3,
        PagingMode::Plain => 1,
        PagingMode::Pae(_) => 2,
    }
}

fn level_row(
    low: u64,
    entries: u64,
    bytes: u64,
    large: PageSize,
    reserved: Option<Refusal>,
    region: bool,
) -> Level
    ensures { result ≡ row low entries bytes large reserved region }
{
    Level {
        low,
        entries,
        bytes,
        large,
        reserved,
        region,
    }
}
