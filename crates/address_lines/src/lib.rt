// The small program of 01: a line for each address on standard input, over a case in three files.
#![tactic(auto)]

ghost use Rattle.std.specs.Prelude.{◌≡◌, ◌+◌, ◌≤◌, length, take, IfSome, OnOk};
ghost use Rattle.std.specs.Io.KnownBytes.{Appends};
ghost use Rattle.base.specs.Overlay.{Wrote};
ghost use Rattle.case.specs.Case.{case_of};
ghost use Rattle.address.specs.Call.{address_of};
ghost use Rattle.address.specs.Line.{field_of, line_of, LineAt};
ghost use Rattle.address_lines.specs.Files.{case_of_files, line_for};

use std::env::Env;
use std::io::{ErrorKind, Read, Write};
use std::rt::Files as OpenFiles;
use std::{fs, io, str};

// Writes the line of an address and answers its length; three numbers of 20 digits need 63 bytes.
pub fn write_line(
    sheet: &[u8],
    image: &[u8],
    pagefile: &[u8],
    address: u64,
    out: &mut [u8; 64],
) -> usize
    ensures { LineAt (line_of (address_of (case_of sheet.now image.now pagefile.now) address)) out.old result out.new }
{
    let found = address::resolve_address(sheet, image, pagefile, address);
    let offset_at = put_number(out, 0, found.number, b' ');
    let entries_at = put_number(out, offset_at, found.offset, b' ');
    put_number(out, entries_at, found.entries, b'\n')
}

// Prints the line of each address on standard input; nothing if a file cannot be read or the three have more than 65,536 bytes.
// An error is one of standard input or output.
pub fn run(rt: &(impl OpenFiles + Env + Input + Print)) -> io::Result<()> {
    // One byte more than the limit, so that a longer case shows.
    let mut buf = [0u8; 65537];
    let Some(files) = load_all(rt, &mut buf) else {
        return Ok(());
    };
    answer_all(&mut rt.reader(), &mut io::writer(rt), &buf, files)
}

// ---- the line

// A number in decimal and the byte after it; answers the place after both.
fn put_number(out: &mut [u8], at: usize, n: u64, last: u8) -> usize
    requires { at + 21 ≤ length out.old }
    ensures wrote { Wrote out.old at (field_of n last) result out.new }
    ensures upper_bound { result ≤ at + 21 }
{
    let mut text = itoa::Buffer::new();
    let digits = text.format(n).as_bytes();
    let end = at + digits.len();
    out[at..end].copy_from_slice(digits);
    out[end] = last;
    end + 1
}

// ---- the files

// The three files of a case.
#[derive(Clone, Copy)]
struct CaseFiles<'a> {
    sheet: &'a [u8],
    image: &'a [u8],
    pagefile: &'a [u8],
}

// Where the image and the pagefile start in a buffer that starts with the sheet, and where they end; all three could be read and have at most 64 KiB together.
#[derive(Clone, Copy)]
struct Files {
    image: usize,
    pagefile: usize,
    end: usize,
    ghost image_first: { image ≤ pagefile },
    ghost pagefile_next: { pagefile ≤ end },
    ghost limit: { end ≤ 65536 },
}

impl Files {
    // The three parts of the buffer.
    fn cut<'a>(&self, buf: &'a [u8; 65537]) -> CaseFiles<'a>
        ensures { case_of result.sheet.now result.image.now result.pagefile.now ≡ case_of_files buf.now self.now.image self.now.pagefile self.now.end }
    {
        CaseFiles {
            sheet: &buf[..self.image],
            image: &buf[self.image..self.pagefile],
            pagefile: &buf[self.pagefile..self.end],
        }
    }
}

// The files that the three arguments name, one after another; none if one cannot be read or they have more than 65,536 bytes.
fn load_all(rt: &(impl OpenFiles + Env), buf: &mut [u8; 65537]) -> Option<Files> {
    let image = load(rt, 1, buf, 0)?;
    let pagefile = load(rt, 2, buf, image)?;
    let end = load(rt, 3, buf, pagefile)?;
    if 65536 < end {
        return None;
    }
    Some(Files {
        image,
        pagefile,
        end,
    })
}

// Reads the file that an argument names from `at` on, and answers where its bytes end.
fn load(rt: &(impl OpenFiles + Env), argument: usize, buf: &mut [u8], at: usize) -> Option<usize>
    requires { at ≤ length buf.old }
    ensures at_le_end { IfSome result (λ end. (at ≤ end) × (end ≤ length buf.old)) }
    ensures before { take at buf.new ≡ take at buf.old }
{
    let mut path = [0u8; 4096];
    let n = rt.arg(argument, &mut path).ok()?;
    let name = str::from_utf8(&path[..n]).ok()?;
    let mut file = fs::open(rt, name).ok()?;
    read_all(&mut file, buf, at)
}

// Reads to the end of the file, or as much as the buffer holds.
fn read_all(file: &mut impl Read, buf: &mut [u8], at: usize) -> Option<usize>
    requires { at ≤ length buf.old }
    ensures at_le_end { IfSome result (λ end. (at ≤ end) × (end ≤ length buf.old)) }
    ensures before { take at buf.new ≡ take at buf.old }
{
    let mut end = at;
    // How far a read comes only the read says.
    while end < buf.len() {
        let more = file.read(&mut buf[end..]).ok()?;
        if more == 0 {
            break;
        }
        end += more;
    }
    Some(end)
}

// ---- the addresses

fn answer_all(
    input: &mut impl Read,
    output: &mut impl Write,
    buf: &[u8; 65537],
    files: Files,
) -> io::Result<()> {
    // No input has 2^64 - 1 addresses.
    for _ in 0..u64::MAX {
        if !answer_next(input, output, buf, files)? {
            break;
        }
    }
    Ok(())
}

// Reads an address and prints its line; answers whether to go on.
fn answer_next(
    input: &mut impl Read,
    output: &mut impl Write,
    buf: &[u8; 65537],
    files: Files,
) -> io::Result<bool> {
    let mut address = [0u8; 8];
    if !read_whole(input, &mut address)? {
        return Ok(false);
    }
    let case = files.cut(buf);
    let mut line = [0u8; 64];
    let n = write_line(
        case.sheet,
        case.image,
        case.pagefile,
        words::word_at(&address, 0),
        &mut line,
    );
    print_line(output, buf, files, &address, &line[..n])?;
    Ok(true)
}

// Fills the buffer; answers false where the input ends before. It stands in `check_sheets` too: neither program is built on the other.
fn read_whole(input: &mut impl Read, bytes: &mut [u8]) -> io::Result<bool> {
    match input.read_exact(bytes) {
        Ok(()) => Ok(true),
        Err(e) if e.kind() == ErrorKind::UnexpectedEof => Ok(false),
        Err(e) => Err(e),
    }
}

// Prints a line. What standard output holds no contract can say, so the `requires` says what the line is.
fn print_line<W: Write>(
    output: &mut W,
    buf: &[u8; 65537],
    files: Files,
    address: &[u8],
    line: &[u8],
) -> io::Result<()>
    requires { line.now ≡ line_for buf.now files.image files.pagefile files.end address.now }
    ensures { OnOk result (Appends (W.contents output.old) (W.contents output.new) line.now) }
{
    output.write_all(line)
}
