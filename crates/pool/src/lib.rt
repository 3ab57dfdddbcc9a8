// The pool headers of an image of a 32-bit machine.
#![tactic(auto)]

ghost use Rattle.std.specs.Prelude.{◌≡◌, true, ◌+◌, ◌-◌, ◌*◌, ◌%◌, ◌≤◌, ◌<◌, leb, length};
ghost use Rattle.base.specs.Notation.{bits};
ghost use Rattle.base.specs.Overlay.{Wrote};
ghost use Rattle.words.specs.Words.{word_at};
ghost use Rattle.pool.specs.Pool.{is_header, headers_of};
ghost use Rattle.pool.specs.Call.{headers_call, PoolAnswer};
ghost use Rattle.pool.specs.Inner.{answered, may_begin, is_chained};

use base::{PAGE_BYTES, Refusal, Written};

// Of a header's word PreviousSize is bits 0-8, BlockSize bits 16-24 (document 001, figure 1, the lower layout); they count 8 bytes.
const SIZES: u64 = 0x200;

const BIT_16: u64 = 0x10000;

const BIT_25: u64 = 0x2000000;

// BlockSize 1, where it lies in the word.
const ONE_BLOCK: u64 = BIT_16;

// Bits 7, 15 and 23 of the tag, which is bits 32-63 of the word.
const TAG_BITS: u64 = 0x80808000000000;

// An image of whole pages.
#[derive(Clone, Copy)]
struct WholePages<'a> {
    image: &'a [u8],
    ghost whole: { length image.now % 4096 ≡ 0 },
}

// The offsets of the image's pool headers into the lent buffer.
pub fn pool_headers(image: &[u8], out: &mut [u64]) -> Written
    ensures { PoolAnswer image.now out.old result out.new }
{
    match list_headers(image, out) {
        Ok(count) => Written {
            number: 0,
            length: count as u64,
        },
        Err(refusal) => refusal.into(),
    }
}

// The same with how many there are, or 70 or 71.
fn list_headers(image: &[u8], out: &mut [u64]) -> Result<usize, Refusal>
    ensures { answered result out.new ≡ headers_call image.now out.old }
{
    if image.len() as u64 % PAGE_BYTES != 0 {
        return Err(Refusal::ImageNotWholePages);
    }
    let pages = WholePages { image };
    if !pages.headers_fit(out.len()) {
        return Err(Refusal::PoolBufferShort);
    }
    Ok(pages.write_headers(out))
}

impl WholePages<'_> {
    // Is there a place for each header? A place for each word is enough; else a pass counts them and writes nothing.
    fn headers_fit(self, places: usize) -> bool
        ensures { result ≡ leb (length (headers_of self.entry.image.now)) places }
    {
        self.image.len() / 8 <= places || self.write_headers(&mut []) <= places
    }

    // Lays the offsets of the headers over a buffer, and answers how many there are; those that fall past its end are counted and not written.
    #[tactic(auto, using(crate::proofs::Listing::passed_word, crate::proofs::Listing::laid_word))]
    fn write_headers(self, out: &mut [u64]) -> usize
        ensures { Wrote out.old 0 (headers_of self.entry.image.now) result out.new }
    {
        let mut count = 0;
        for i in 0..self.image.len() as u64 / 8 {
            if self.is_header(8 * i) {
                base::put(out, count, 8 * i);
                count += 1;
            }
        }
        count
    }

    // Does a word of the image hold a header?
    fn is_header(self, o: u64) -> bool
        requires { (o < length self.image.now) × (o % 8 ≡ 0) }
        ensures { result ≡ is_header self.entry.image.now o }
    {
        let word = words::word_at(self.image, o);
        may_begin(word) && self.is_chained(o, word)
    }

    // Does a block with this word end inside its page, and do it and its neighbours there name each other's sizes?
    #[tactic(auto, unfolding(crate::specs::Inner::is_chained))]
    fn is_chained(self, o: u64, word: u64) -> bool
        requires { (o < length self.image.now) × (o % 8 ≡ 0) }
        ensures { result ≡ is_chained self.entry.image.now o (bits word 0 8) (bits word 16 24) }
    {
        let previous = previous_size(word);
        let size = block_size(word);
        let place = o % PAGE_BYTES;
        let end = place + 8 * size;
        end <= PAGE_BYTES
            && (end == PAGE_BYTES
                || previous_size(words::word_at(self.image, o + 8 * size)) == size)
            && 8 * previous <= place
            && (place == 0 || block_size(words::word_at(self.image, o - 8 * previous)) == previous)
    }
}

// Are the tag and the BlockSize of a word those of a header? One range asks for both: so they compile to one test.
fn may_begin(word: u64) -> bool
    ensures { result ≡ may_begin word }
{
    let field = word & (TAG_BITS | (BIT_25 - 1));
    ONE_BLOCK <= field && field < BIT_25
}

fn previous_size(word: u64) -> u64
    ensures { result ≡ bits word 0 8 }
{
    word % SIZES
}

fn block_size(word: u64) -> u64
    ensures { result ≡ bits word 16 24 }
{
    previous_size(word / BIT_16)
}
