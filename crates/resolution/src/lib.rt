// Where an address of a case leads: down the tables, and by prototype addresses.
#![tactic(auto)]

ghost use Rattle.std.specs.Prelude.{◌≡◌, ◌≤◌};
ghost use Rattle.resolution.specs.Open.{open_world};
ghost use Rattle.walk.specs.Walk.{settled, word_at_place, resolve_of};
ghost use Rattle.walk.specs.Rows.{four_levels, rows_world, WordInside, prototype_step, resolved_of};

use base::Refusal;
use entry::{EntryPlace, Frame, Leaf, PagingMode};
use sheet::AddressSpace;
use walk::{Place, Resolved};

// A case whose sheet was read: the rows of its runs, its address space, and its two files.
#[derive(Clone, Copy)]
pub struct OpenCase<'a> {
    pub rows: &'a [u64],
    pub space: AddressSpace,
    pub image: &'a [u8],
    pub pagefile: &'a [u8],
}

impl OpenCase<'_> {
    // Where an address leads, and how many entries were read.
    pub fn resolve(&self, address: u64) -> Resolved
        ensures { result ≡ resolved_of (resolve_of 3 (open_world self.now) address) }
    {
        resolve(self, address, 3)
    }
}

// An address of a case whose sheet was read: where it leads, and how many entries were read.
pub fn resolve_in(
    rows: &[u64],
    image: &[u8],
    pagefile: &[u8],
    space: AddressSpace,
    address: u64,
) -> Resolved
    ensures { result ≡ resolved_of (resolve_of 3 (rows_world rows.now space image.now pagefile.now) address) }
{
    let case = OpenCase {
        rows,
        space,
        image,
        pagefile,
    };
    resolve(&case, address, 3)
}

// The same of four levels.
pub fn resolve_four_level(
    rows: &[u64],
    image: &[u8],
    pagefile: &[u8],
    directory: Frame,
    address: u64,
) -> Resolved
    ensures { result ≡ resolved_of (resolve_of 3 (rows_world rows.now (four_levels directory) image.now pagefile.now) address) }
{
    let space = AddressSpace {
        directory,
        mode: PagingMode::FourLevel,
    };
    let four = OpenCase {
        rows,
        space,
        image,
        pagefile,
    };
    resolve(&four, address, 3)
}

// An address, with `left` prototype entries left.
#[cycle(prototype_resolve)]
fn resolve(case: &OpenCase<'_>, address: u64, left: u64) -> Resolved
    requires { left ≤ 3 }
    ensures { result ≡ resolved_of (resolve_of left (open_world case.now) address) }
{
    if !entry::is_reachable(case.space.mode, address) {
        return refused(Refusal::NotCanonical, 0);
    }
    let d = tables::descend(case.rows, case.image, case.space, address);
    match d.leaf {
        Leaf::NeedsRegion => refused(Refusal::RegionNeeded, d.entries),
        Leaf::Settled(rest) => Resolved {
            place: settle(case, address, rest),
            entries: d.entries,
        },
        Leaf::Prototype(target) => {
            let end = prototype(case, address, target, left);
            Resolved {
                place: end.place,
                entries: d.entries + end.entries,
            }
        }
    }
}

// The entry at a prototype address, and where it leads for an address.
#[cycle(prototype_resolve)]
fn prototype(case: &OpenCase<'_>, address: u64, target: u64, left: u64) -> Resolved
    requires { left ≤ 3 }
    ensures { result ≡ resolved_of (prototype_step left (open_world case.now) address target) }
{
    if target % 8 != 0 {
        return refused(Refusal::PrototypeUnaligned, 0);
    }
    if left == 0 {
        return refused(Refusal::PrototypeChainTooLong, 0);
    }
    let found = resolve(case, target, left - 1);
    if let Place::Refused(_) = found.place {
        return found;
    }
    let e = word_at_place(case, found.place);
    Resolved {
        place: settle(case, address, last_entries::prototype_entry(e)),
        entries: found.entries + 1,
    }
}

// Where an entry leads by itself.
fn settle(case: &OpenCase<'_>, address: u64, rest: EntryPlace) -> Place
    ensures { result ≡ settled (open_world case.now) address rest }
{
    entry_places::settle(case.rows, case.image, case.pagefile, address, rest)
}

// The word at a place, 0 in a page of zeros.
fn word_at_place(case: &OpenCase<'_>, place: Place) -> u64
    requires { WordInside case.now.image.now case.now.pagefile.now place }
    ensures { result ≡ word_at_place (open_world case.now) place }
{
    match place {
        Place::Image(o) => words::word_at(case.image, o),
        Place::Pagefile(o) => words::word_at(case.pagefile, o),
        Place::Zeros | Place::Refused(_) => 0,
    }
}

fn refused(refusal: Refusal, entries: u64) -> Resolved
    ensures { result ≡ record { place = Place.Refused refusal; entries = entries } }
{
    Resolved {
        place: Place::Refused(refusal),
        entries,
    }
}
