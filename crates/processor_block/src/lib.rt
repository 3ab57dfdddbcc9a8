// The search of the image for a processor block.
#![tactic(auto)]

ghost use Rattle.std.specs.Prelude.{◌≡◌, ◌+◌, ◌*◌, ◌%◌, ◌<◌, ◌≤◌, length};
ghost use Rattle.resolution.specs.Open.{open_world};
ghost use Rattle.case.specs.Case.{case_of};
ghost use Rattle.processor_block.specs.Block.{is_at};
ghost use Rattle.processor_block.specs.Call.{BlockAnswer};
ghost use Rattle.processor_block.specs.Inner.{answer_of, block_at, block_in, FirstOfFour, Passes};

mod candidate;

use base::{Fault, PAGE_BYTES, Refusal};
use candidate::Candidate;
use case::Answer;
use resolution::OpenCase;
use walk::Place;

// An opened case whose image has whole pages.
#[derive(Clone, Copy)]
struct WholePages<'a> {
    case: OpenCase<'a>,
    ghost whole: { length case.image.now % 4096 ≡ 0 },
}

// The first processor block not below an offset: number 1, its offset, and the entries read for its Self.
pub fn processor_block(sheet: &[u8], image: &[u8], pagefile: &[u8], from: u64) -> Answer
    ensures { BlockAnswer (case_of sheet.now image.now pagefile.now) from result }
{
    let none: &mut [u8] = &mut [];
    let found = case::with_case(
        sheet,
        image,
        pagefile,
        none,
        |case, _|
            requires { length case.image.now % 4096 ≡ 0 }
        { search(case, from) },
    );
    match found {
        Ok(answer) => answer,
        Err(fault) => fault.into(),
    }
}

// The same of an opened case, whose image has whole pages: four words are passed over or judged one by one. A loop of single words took up to twice as long, by where it came to lie.
fn search(case: OpenCase, from: u64) -> Result<Answer, Fault>
    requires { length case.image.now % 4096 ≡ 0 }
    ensures { answer_of result ≡ block_in case.entry.space.mode (open_world case.entry) from }
{
    let case = case::four_levels_case(case)?;
    let pages = WholePages { case };
    let first = from.div_ceil(8);
    let words = case.image.len() as u64 / 8;
    // No block begins at the last 7 words.
    for four in 0..words.saturating_sub(first + 7).div_ceil(4) {
        let i = first + 4 * four;
        if has_pair(case.image, i) {
            if let Some(answer) = pages.block_of_four(i) {
                return Ok(answer);
            }
        }
    }
    Err(Refusal::NoProcessorBlock.into())
}

// May a block begin at one of the four words from the i-th on?
fn has_pair(image: &[u8], i: u64) -> bool
    requires { 8 * i + 64 ≤ length image.now }
    ensures { Passes image.now i 4 result }
{
    is_pair(image, i) || is_pair(image, i + 1) || is_pair(image, i + 2) || is_pair(image, i + 3)
}

// Is the Self of a block that begins at the i-th word 0x180 less than the word after it?
fn is_pair(image: &[u8], i: u64) -> bool
    requires { 8 * i + 40 ≤ length image.now }
    ensures { Passes image.now i 1 result }
{
    let own = words::word_at(image, 8 * i + 0x18);
    let prcb = words::word_at(image, 8 * i + 0x20);
    own.wrapping_add(0x180) == prcb
}

impl WholePages<'_> {
    // The answer for the first of the four words from the i-th on that holds a block. Out of line: so the loop over the image keeps its places in registers.
    #[inline(never)]
    fn block_of_four(&self, i: u64) -> Option<Answer>
        requires { (8 * i + 32 ≤ length self.now.case.image.now) × (8 * i + 32 < 0x10000000000000000) }
        ensures { FirstOfFour (open_world self.now.case) i result }
    {
        for word in i..i + 4 {
            if let Some(answer) = self.block_at(8 * word) {
                return Some(answer);
            }
        }
        None
    }

    // The answer for an offset, if it holds a block: number 1, and the entries read for its Self.
    fn block_at(&self, offset: u64) -> Option<Answer>
        requires { (offset < length self.now.case.image.now) × (offset % 8 ≡ 0) }
        ensures { result ≡ block_at (open_world self.now.case) offset }
    {
        if 0xE28 < offset % PAGE_BYTES {
            return None;
        }
        let candidate = Candidate {
            image: self.case.image,
            offset,
        };
        if !candidate.fits() {
            return None;
        }
        let found = resolution::resolve_four_level(
            self.case.rows,
            self.case.image,
            self.case.pagefile,
            candidate.directory(),
            candidate.own(),
        );
        if !is_at(found.place, offset) {
            return None;
        }
        Some(Answer {
            number: 1,
            offset,
            entries: found.entries,
        })
    }
}

fn is_at(place: Place, o: u64) -> bool
    ensures { result ≡ is_at o place }
{
    matches!(place, Place::Image(p) if p == o)
}
