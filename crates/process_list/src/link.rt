// An address of the process list.
ghost use Rattle.std.specs.Prelude.{◌≡◌, ◌%◌};

use base::Refusal;

// The address of the head or of a node: a multiple of 8.
#[derive(Clone, Copy)]
pub struct Link {
    pub address: u64,
    ghost aligned: { address % 8 ≡ 0 },
}

impl TryFrom<u64> for Link {
    type Error = Refusal;

    ghost use Rattle.process_list.specs.List.{aligned};
    ghost use Rattle.process_list.specs.Inner.{linked};

    ghost try_from_gives = { λ address link. linked link ≡ aligned address };

    fn try_from(address: u64) -> Result<Link, Refusal> {
        if address % 8 != 0 {
            return Err(Refusal::LinkUnaligned);
        }
        Ok(Link { address })
    }
}
