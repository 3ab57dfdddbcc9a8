// The small program of 01: prints where each address on standard input leads. Arguments: sheet, image, pagefile.
#![tactic(auto)]

use std::io;

fn main(rt: HostRuntime) -> io::Result<()> {
    address_lines::run(&rt)
}
