// The read call: bytes of a case from an address on.
#![tactic(auto)]

ghost use Rattle.std.specs.Prelude.{◌≡◌, ◌+◌, ◌%◌, ◌≤◌, length};
ghost use Rattle.walk.specs.Walk.{resolve_of};
ghost use Rattle.case.specs.Case.{case_of};
ghost use Rattle.resolution.specs.Open.{open_world};
ghost use Rattle.reading.specs.Bytes.{bytes_of};
ghost use Rattle.reading.specs.Call.{fault_bytes, ReadAnswer};
ghost use Rattle.reading.specs.Inner.{piece_of, PieceInside, FilledWith, read_into, read_case};

use base::{Fault, Refusal, TOP_ADDRESS};
use resolution::OpenCase;
use walk::Place;

// 01's number, how many bytes were read, and 1 if one of them came from a page of zeros: numbers, since C reads them.
#[repr(C)]
#[derive(Clone, Copy)]
pub struct BytesRead {
    pub number: u64,
    pub length: u64,
    pub zeros: u64,
}

impl From<Fault> for BytesRead {
    ghost from_gives = { λ f r. r ≡ fault_bytes f };

    fn from(fault: Fault) -> BytesRead {
        BytesRead {
            number: fault.refusal.number(),
            length: fault.shown_position(),
            zeros: 0,
        }
    }
}

// n bytes from an address on into the lent buffer.
pub fn read_bytes(
    sheet: &[u8],
    image: &[u8],
    pagefile: &[u8],
    address: u64,
    n: u64,
    out: &mut [u8],
) -> BytesRead
    ensures { ReadAnswer (case_of sheet.now image.now pagefile.now) address n out.old result out.new }
{
    match read_case(sheet, image, pagefile, address, n, out) {
        Ok(zeros) => BytesRead {
            number: 0,
            length: n,
            zeros: u64::from(zeros),
        },
        Err(fault) => fault.into(),
    }
}

// The same without the numbers: whether a byte came from a page of zeros, or what is at fault.
pub fn read_case(
    sheet: &[u8],
    image: &[u8],
    pagefile: &[u8],
    address: u64,
    n: u64,
    out: &mut [u8],
) -> Result<bool, Fault>
    ensures { (result, out.new) ≡ read_case (case_of sheet.now image.now pagefile.now) address n out.old }
{
    case::with_case(sheet, image, pagefile, out, |case, out| {
        read_in(&case, address, n, out)
    })
}

// The same of an opened case: a pass that writes nothing, then a writing one.
fn read_in(case: &OpenCase, address: u64, n: u64, out: &mut [u8]) -> Result<bool, Fault>
    ensures { (result, out.new) ≡ read_into (open_world case.now) address n out.old }
{
    if (out.len() as u64) < n {
        return Err(Refusal::ReadBufferShort.into());
    }
    fill(case, address, n, &mut out[..0])?;
    Ok(fill(case, address, n, out)?)
}

// Lays n bytes from an address on over the front of a buffer, a page at a time; what falls past its end is not written.
fn fill(case: &OpenCase, address: u64, n: u64, out: &mut [u8]) -> Result<bool, Refusal>
    ensures { FilledWith (bytes_of n (open_world case.now) address) 0 out.old result out.new }
{
    let mut i = 0;
    let mut zeros = false;
    // The first step ends with its page, and the last with the bytes, so no range counts the steps.
    while i < n {
        if TOP_ADDRESS - address < i {
            return Err(Refusal::NotCanonical);
        }
        let a = address + i;
        let m = (4096 - a % 4096).min(n - i);
        zeros |= fill_page(case, a, m, out, i)?;
        i += m;
    }
    Ok(zeros)
}

// Lays m bytes from an address on, within its page, over a buffer from `at` on.
fn fill_page(
    case: &OpenCase,
    address: u64,
    m: u64,
    out: &mut [u8],
    at: u64,
) -> Result<bool, Refusal>
    requires { address % 4096 + m ≤ 4096 }
    ensures { FilledWith (piece_of case.now.image.now case.now.pagefile.now m (resolve_of 3 (open_world case.now) address).place) at out.old result out.new }
{
    lay(case, case.resolve(address).place, m, out, at)
}

// Lays m bytes of a place's page over a buffer from `at` on; answers whether they are of a page of zeros.
fn lay(case: &OpenCase, place: Place, m: u64, out: &mut [u8], at: u64) -> Result<bool, Refusal>
    requires { PieceInside case.now.image.now case.now.pagefile.now m place }
    ensures { FilledWith (piece_of case.now.image.now case.now.pagefile.now m place) at out.old result out.new }
{
    let end = (out.len() as u64).min(at.saturating_add(m));
    let start = end.min(at);
    let room = &mut out[start as usize..end as usize];
    let n = room.len();
    match place {
        Place::Image(o) => {
            let o = o as usize;
            copy(room, &case.image[o..o + n]);
            Ok(false)
        }
        Place::Pagefile(o) => {
            let o = o as usize;
            copy(room, &case.pagefile[o..o + n]);
            Ok(false)
        }
        Place::Zeros => {
            room.fill(0);
            Ok(true)
        }
        Place::Refused(refusal) => Err(refusal),
    }
}

// Bytes over a room as long.
fn copy(room: &mut [u8], bytes: &[u8])
    requires { length bytes.now ≡ length room.old }
    ensures { room.new ≡ bytes.now }
{
    // By index: `copy_from_slice` would need memmove of the C library.
    for i in 0..room.len() {
        room[i] = bytes[i];
    }
}
