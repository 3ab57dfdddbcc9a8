// Sheets of edition 1 with one run, each number in at most three groups, without a loop and without rows.
#![tactic(auto)]

ghost use Rattle.std.specs.Prelude.{length};
ghost use Rattle.sheet.specs.Sheet.{sheet_of};
ghost use Rattle.one_run_sheet.specs.OneRun.{Told};

use base::PAGE_BYTES;
use entry::Frame;
use sheet::{Run, TOP_PAGE};

// The directory page and the run of an accepted sheet of this form; any other sheet must be read otherwise.
pub fn read_one_run(s: &[u8], image: u64, pagefile: u64) -> Option<(Frame, Run)>
    ensures { Told (sheet_of s.now image pagefile) (length s.now) result }
{
    let (edition, at) = varint::read_short(s, 0)?;
    if edition != varint::EDITION {
        return None;
    }
    let (directory, at) = varint::read_short(s, at)?;
    let (count, at) = varint::read_short(s, at)?;
    if count != 1 {
        return None;
    }
    let (gap, at) = varint::read_short(s, at)?;
    let (pages, end) = varint::read_short(s, at)?;
    // Numbers of three groups end below the top page; the test spares a law about bytes.
    if end != s.len() || pages == 0 || TOP_PAGE < gap + pages {
        return None;
    }
    if image != PAGE_BYTES * pages || pagefile % PAGE_BYTES != 0 {
        return None;
    }
    let first = Frame::numbered(gap);
    Some((Frame::numbered(directory), Run { first, pages }))
}
