// Where a frame lies in the image, by the rows of the runs.
#![tactic(auto)]

ghost use Rattle.std.specs.Prelude.{◌≡◌, ◌-◌, ◌/◌, ◌≤◌, length};
ghost use Rattle.frames.specs.Search.{search_of, halvings};
ghost use Rattle.frames.specs.Rows.{rows_page};

use base::PAGE_BYTES;
use entry::Frame;

// What a search for a frame found, the image page of it, and how many runs it looked at.
#[derive(Clone, Copy)]
pub struct Search {
    pub page: Option<u64>,
    pub looks: u64,
}

// The image page of a frame, by halving: `left` rows are in question, the first starts at `low`.
// A loop that counts its looks, and no search of the library, since the contract bounds them by `halvings`.
pub fn find_page(rows: &[u64], f: Frame) -> Search
    ensures { (result ≡ search_of rows.now f) × (result.looks ≤ halvings (length rows.now / 3)) }
{
    let n = f.number();
    let mut low = 0;
    let mut left = rows.len() / 3;
    let mut looks = 0;
    while 0 < left {
        let row = low + 3 * (left / 2);
        looks += 1;
        if n < rows[row] {
            left = left / 2;
        } else if n < rows[row + 1] {
            let page = Some(n.saturating_sub(rows[row + 2]));
            return Search { page, looks };
        } else {
            low = row + 3;
            left = (left - 1) / 2;
        }
    }
    Search { page: None, looks }
}

// The image page of a frame, where an image of `size` bytes has it.
#[tactic(auto, unfolding(crate::specs::Rows::guarded, crate::specs::Rows::page_in_rows))]
pub fn locate(rows: &[u64], size: u64, f: Frame) -> Option<u64>
    ensures { result ≡ rows_page rows.now size f }
{
    match find_page(rows, f).page {
        Some(p) if p < size / PAGE_BYTES => Some(p),
        _ => None,
    }
}
