// The walk on a parsed case, exported for the benchmark alone.
#![tactic(auto)]

ghost use Rattle.std.specs.Prelude.{◌≡◌, ◌%◌, ◌^◌};
ghost use Rattle.resolution.specs.Open.{open_world};
ghost use Rattle.bench_walk.specs.Bench.{bench_world, image_offset, walked_offset, walked_sum};

use entry::Frame;
use resolution::OpenCase;
use sheet::{AddressSpace, ModeNumbers};
use walk::{Place, Resolved};

// The sum of the image offsets of consecutive pages, modulo 2^64: one call that walks many pages.
#[unsafe(no_mangle)]
pub extern "C" fn bench_walk_pages(
    rows: &[u64],
    image: &[u8],
    pagefile: &[u8],
    directory: u64,
    mode: u64,
    place: u64,
    start: u64,
    pages: u64,
) -> u64
    ensures { result ≡ walked_sum pages (bench_world rows.now image.now pagefile.now directory mode place) start % 2 ^ 64 }
{
    let case = open_case(rows, image, pagefile, directory, mode, place);
    let mut sum = 0u64;
    let mut a = start;
    // The address is stepped beside the count, as `walked_sum` steps it.
    for i in 0..pages {
        let found = case.resolve(a);
        sum = sum.wrapping_add(image_offset(found));
        a = a.wrapping_add(4096);
    }
    sum
}

// The image offset of an address, 0 where it is elsewhere.
#[unsafe(no_mangle)]
pub extern "C" fn bench_walk_one(
    rows: &[u64],
    image: &[u8],
    pagefile: &[u8],
    directory: u64,
    mode: u64,
    place: u64,
    address: u64,
) -> u64
    ensures { result ≡ walked_offset (bench_world rows.now image.now pagefile.now directory mode place) address }
{
    let case = open_case(rows, image, pagefile, directory, mode, place);
    image_offset(case.resolve(address))
}

// The rows and files that C lends, with the address space of a directory page, a mode's number and the directory's place.
fn open_case<'a>(
    rows: &'a [u64],
    image: &'a [u8],
    pagefile: &'a [u8],
    directory: u64,
    mode: u64,
    place: u64,
) -> OpenCase<'a>
    ensures { open_world result ≡ bench_world rows.now image.now pagefile.now directory mode place }
{
    let directory = Frame::numbered(directory);
    let mode = ModeNumbers { mode, place }.into();
    let space = AddressSpace { mode, directory };
    OpenCase {
        rows,
        space,
        image,
        pagefile,
    }
}

// An image offset, 0 elsewhere.
fn image_offset(found: Resolved) -> u64
    ensures { result ≡ image_offset found.place }
{
    match found.place {
        Place::Image(o) => o,
        _ => 0,
    }
}
