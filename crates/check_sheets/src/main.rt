// Checks sheets from standard input, for the differential test. A record is the image's length, the pagefile's
// length and the sheet's length, 8 bytes each and little-endian, then the sheet, of at most 12,011 bytes.
// A refused sheet prints its number, and for 11 and 18 the position; an accepted one 0, the directory page, the paging mode's number and its place, the number of runs, and each run's first frame and pages.
#![tactic(auto)]

use base::{Fault, Refusal};
use sheet::{Header, ModeNumbers};
use std::io;
use std::io::{ErrorKind, Read, Write};

// Edition, directory page, mode, place, count and 1,000 runs take no more.
const MOST_BYTES: u64 = 12011;

fn main(rt: HostRuntime) -> io::Result<()> {
    let mut input = rt.reader();
    let mut output = io::writer(&rt);
    // No input has 2^64 - 1 records.
    for _ in 0..u64::MAX {
        if !check_next(&mut input, &mut output)? {
            break;
        }
    }
    Ok(())
}

// Answers whether there was a record.
fn check_next(input: &mut impl Read, output: &mut impl Write) -> io::Result<bool> {
    let mut lengths = [0u8; 24];
    if !read_whole(input, &mut lengths)? {
        return Ok(false);
    }
    let length = words::word_at(&lengths, 16);
    if MOST_BYTES < length {
        return Ok(false);
    }
    let n = length as usize;
    let mut bytes = [0u8; 12011];
    check_one(
        input,
        output,
        words::word_at(&lengths, 0),
        words::word_at(&lengths, 8),
        &mut bytes[..n],
    )
}

fn check_one(
    input: &mut impl Read,
    output: &mut impl Write,
    image: u64,
    pagefile: u64,
    bytes: &mut [u8],
) -> io::Result<bool> {
    if !read_whole(input, bytes)? {
        return Ok(false);
    }
    let mut rows = [0u64; 3000];
    match sheet_reader::read_sheet(bytes, image, pagefile, &mut rows) {
        Ok(header) => print_case(output, header, &rows)?,
        Err(fault) => print_fault(output, fault)?,
    }
    output.write_all(b"\n")?;
    Ok(true)
}

// Fills the buffer; answers false where the input ends before. It stands in `address_lines` too: neither program is built on the other.
fn read_whole(input: &mut impl Read, bytes: &mut [u8]) -> io::Result<bool> {
    match input.read_exact(bytes) {
        Ok(()) => Ok(true),
        Err(e) if e.kind() == ErrorKind::UnexpectedEof => Ok(false),
        Err(e) => Err(e),
    }
}

fn print_fault(output: &mut impl Write, fault: Fault) -> io::Result<()> {
    let number = fault.refusal.number();
    write!(output, "{number}")?;
    if let Refusal::NumberTooLong | Refusal::NumberNotShortest = fault.refusal {
        print_next(output, fault.shown_position())?;
    }
    Ok(())
}

fn print_case(output: &mut impl Write, header: Header, rows: &[u64]) -> io::Result<()> {
    write!(output, "0")?;
    print_next(output, header.space.directory.number())?;
    let numbers = ModeNumbers::from(header.space.mode);
    print_next(output, numbers.mode)?;
    print_next(output, numbers.place)?;
    print_next(output, header.count as u64)?;
    for row in rows.chunks_exact(3).take(header.count) {
        print_next(output, row[0])?;
        print_next(output, row[1].wrapping_sub(row[0]))?;
    }
    Ok(())
}

fn print_next(output: &mut impl Write, n: u64) -> io::Result<()> {
    write!(output, " {n}")
}
