// The listing program. Its stored run is Yard A of document 01.
#![tactic(auto)]

use std::io;

fn main(rt: HostRuntime) -> io::Result<()> {
    printing::run(&rt)
}
