// The process list: nodes linked forward and back from a head.
#![tactic(auto)]

ghost use Rattle.std.specs.Prelude.{◌≡◌, ◌+◌};
ghost use Rattle.entry.specs.declared.PagingMode.TheVariants.{FourLevel};
ghost use Rattle.walk.specs.Rows.{WordInside};
ghost use Rattle.resolution.specs.Open.{open_world};
ghost use Rattle.case.specs.Case.{case_of};
ghost use Rattle.process_list.specs.List.{link_at, link_of, next_node, nodes_after};
ghost use Rattle.process_list.specs.Call.{ListAnswer};
ghost use Rattle.process_list.specs.Inner.{linked, Pass, list_into};

mod link;

use base::{Fault, Refusal, Written};
use link::Link;
use resolution::OpenCase;
use walk::Place;

// 01's limit of a list.
const MOST_PROCESSES: u64 = 4096;

// An opened case in four levels.
#[derive(Clone, Copy)]
struct FourLevelCase<'a> {
    case: OpenCase<'a>,
    ghost four: { case.space.mode ≡ FourLevel },
}

// The addresses of the nodes of the list at a head into the lent buffer.
pub fn process_list(
    sheet: &[u8],
    image: &[u8],
    pagefile: &[u8],
    head: u64,
    out: &mut [u64],
) -> Written
    ensures { ListAnswer (case_of sheet.now image.now pagefile.now) head out.old result out.new }
{
    let listed = case::with_case(sheet, image, pagefile, out, |case, out| {
        list_in(case, head, out)
    });
    match listed {
        Ok(length) => Written { number: 0, length },
        Err(fault) => fault.into(),
    }
}

// The same of an opened case: a pass that writes nothing, then a writing one.
fn list_in(case: OpenCase, head: u64, out: &mut [u64]) -> Result<u64, Fault>
    ensures { (result, out.new) ≡ list_into case.entry.space.mode (open_world case.entry) head out.old }
{
    let case = case::four_levels_case(case)?;
    let four = &FourLevelCase { case };
    let head = Link::try_from(head)?;
    let room = out.len() as u64;
    follow(four, head, room, &mut out[..0])?;
    Ok(follow(four, head, room, out)?)
}

// Follows the links from the head on, for a buffer with `room` places, and lays the nodes over a buffer as far as that goes.
fn follow(case: &FourLevelCase, head: Link, room: u64, out: &mut [u64]) -> Result<u64, Refusal>
    ensures { Pass (nodes_after 4096 (open_world case.now.case) room head.address head.address) out.old result out.new }
{
    let mut node = head;
    for count in 0..MOST_PROCESSES {
        let next = next_node(case, node)?;
        if next.address == head.address {
            return Ok(count);
        }
        if count == room {
            return Err(Refusal::ListBufferShort);
        }
        base::put(out, count as usize, next.address);
        node = next;
    }
    let next = next_node(case, node)?;
    if next.address == head.address {
        return Ok(MOST_PROCESSES);
    }
    Err(Refusal::TooManyProcesses)
}

// The node after a node, its back link compared.
#[tactic(auto, unfolding(crate::specs::List::next_node))]
fn next_node(case: &FourLevelCase, node: Link) -> Result<Link, Refusal>
    ensures { linked result ≡ next_node (open_world case.now.case) node.address }
{
    let next = Link::try_from(read_link(case, node)?)?;
    if back_link(case, next)? != node.address {
        return Err(Refusal::BackLinkDiffers);
    }
    Ok(next)
}

// A node's back word, 8 bytes on, which may lie in the next page or past the top.
#[tactic(auto, using(crate::proofs::Links::link_past_top))]
fn back_link(case: &FourLevelCase, node: Link) -> Result<u64, Refusal>
    ensures { result ≡ link_of (open_world case.now.case) (node.address + 8) }
{
    let Some(address) = node.address.checked_add(8) else {
        return Err(Refusal::NotCanonical);
    };
    read_link(case, Link { address })
}

// The word at an address.
fn read_link(case: &FourLevelCase, link: Link) -> Result<u64, Refusal>
    ensures { result ≡ link_of (open_world case.now.case) link.address }
{
    let case = &case.case;
    let found = resolution::resolve_four_level(
        case.rows,
        case.image,
        case.pagefile,
        case.space.directory,
        link.address,
    );
    link_at(case, found.place)
}

// The word at a place, 0 in a page of zeros. A refusal goes on here; `word_at_place` of the walk is asked of no refused place.
fn link_at(case: &OpenCase, place: Place) -> Result<u64, Refusal>
    requires { WordInside case.now.image.now case.now.pagefile.now place }
    ensures { result ≡ link_at case.now.image.now case.now.pagefile.now place }
{
    match place {
        Place::Image(o) => Ok(words::word_at(case.image, o)),
        Place::Pagefile(o) => Ok(words::word_at(case.pagefile, o)),
        Place::Zeros => Ok(0),
        Place::Refused(refusal) => Err(refusal),
    }
}
