// Down the tables of a paging mode.
#![tactic(auto)]

ghost use Rattle.std.specs.Prelude.{◌≡◌, ◌*◌, ◌≤◌, ◌<◌, length, []};
ghost use Rattle.entry.specs.Entry.{level_of, levels_below, top_offset, upper_of};
ghost use Rattle.frames.specs.Rows.{rows_page};
ghost use Rattle.walk.specs.Walk.{descend_of, descended};
ghost use Rattle.walk.specs.Rows.{rows_world, TableInside, FitsAt, InTable, Shaped, entry_read, descent_of, ended_after, no_table};

use base::{PAGE_BYTES, Refusal};
use entry::{EntryPlace, Frame, Leaf, Level, PagingMode, Upper};
use sheet::AddressSpace;
use walk::Descent;

// The places of a PAE directory in its page.
const PLACES: u64 = 128;

// Down the tables of an address space. Each mode has its own copy of the walk, with the numbers of its rows as constants.
#[inline(always)]
#[tactic(auto, using(walk::proofs::Cycle::four_fits, walk::proofs::Cycle::plain_fits, walk::proofs::Cycle::pae_fits))]
pub fn descend(rows: &[u64], image: &[u8], space: AddressSpace, address: u64) -> Descent
    ensures { result ≡ descent_of (descended (rows_world rows.now space image.now []) address) }
{
    let top = space.directory;
    match space.mode {
        PagingMode::FourLevel => descend_from(rows, image, PagingMode::FourLevel, 0, top, address),
        PagingMode::Plain => descend_from(rows, image, PagingMode::Plain, 0, top, address),
        PagingMode::Pae(place) => {
            let place = place % PLACES;
            let start = 32 * place;
            descend_from(rows, image, PagingMode::Pae(place), start, top, address)
        }
    }
}

// From the top table, which begins at `start` in its page: a table a turn, with `below` levels below it, then the last.
#[inline(always)]
#[tactic(auto, using(walk::proofs::Descending::rows_inside))]
fn descend_from(
    rows: &[u64],
    image: &[u8],
    mode: PagingMode,
    start: u64,
    top: Frame,
    address: u64,
) -> Descent
    requires begins { start ≡ top_offset mode }
    requires fits { FitsAt (top_offset mode) (level_of mode (levels_below mode)) }
    ensures { result ≡ descent_of (descend_of mode (levels_below mode) (rows_page rows.now (length image.now)) image.now (top_offset mode) (rows_page rows.now (length image.now) top) address) }
{
    let mut table = frames::locate(rows, image.len() as u64, top);
    let mut offset = start;
    let mut below = levels::levels_below(mode);
    let mut entries = 0;
    while 0 < below {
        let Some(e) = table_entry(image, mode, below, offset, table, address) else {
            return no_table(entries);
        };
        entries += 1;
        match upper_at(mode, below, e) {
            Upper::Table(f) => {
                table = frames::locate(rows, image.len() as u64, f);
                offset = 0;
                below -= 1;
            }
            Upper::LargePage(f, size) => {
                return ended(Leaf::Settled(EntryPlace::InFrame(f, size)), entries);
            }
            Upper::Refused(refusal) => {
                return ended(Leaf::Settled(EntryPlace::Refused(refusal)), entries);
            }
            Upper::UpperNeedsRegion => {
                return ended(Leaf::NeedsRegion, entries);
            }
        }
    }
    let Some(e) = table_entry(image, mode, 0, offset, table, address) else {
        return no_table(entries);
    };
    ended(last_entries::last_entry(mode, e), entries + 1)
}

// What an entry of a table with `below` levels below it says.
fn upper_at(mode: PagingMode, below: u64, e: u64) -> Upper
    ensures { result ≡ upper_of (level_of mode below) e }
{
    upper_entries::upper_entry(levels::level_at(mode, below), e)
}

// The entry for an address in a table, if the table's frame is in a run.
fn table_entry(
    image: &[u8],
    mode: PagingMode,
    below: u64,
    offset: u64,
    table: Option<u64>,
    address: u64,
) -> Option<u64>
    requires inside { TableInside image.now table }
    requires fits { FitsAt offset (level_of mode below) }
    ensures { result ≡ entry_read image.now (level_of mode below) offset address table }
{
    let page = table?;
    let level = levels::level_at(mode, below);
    let at = page * PAGE_BYTES + offset + place_in_table(level, address);
    if level.bytes == 8 {
        Some(words::word_at(image, at))
    } else {
        Some(words::dword_at(image, at))
    }
}

// Where the entry for an address lies in a table.
fn place_in_table(level: Level, address: u64) -> u64
    requires { Shaped level }
    ensures { InTable level address result }
{
    level.bytes * ((address >> level.low) % level.entries)
}

fn ended(leaf: Leaf, entries: u64) -> Descent
    ensures { result ≡ ended_after entries leaf }
{
    Descent { leaf, entries }
}

// A table's frame is in no run.
fn no_table(entries: u64) -> Descent
    ensures { result ≡ no_table entries }
{
    let in_no_run = Leaf::Settled(EntryPlace::Refused(Refusal::FrameInNoRun));
    ended(in_no_run, entries)
}
