// Reads test vectors, one a line, puts each to the libraries, and writes a line for each line read.
#![tactic(auto)]

mod answers;
mod reading;
mod replies;
mod vectors;

use crate::replies::reply_to;
use std::io;

fn main(rt: HostRuntime) -> io::Result<()> {
    for (number, line) in (1..).zip(rt.lines(rt.alloc())) {
        rt.println(reply_to(number, line?.as_str()))?;
    }
    Ok(())
}
