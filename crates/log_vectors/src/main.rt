// Says of each block of standard input, one a line in hex, what its log is: one line for each, in the form that the script
// tools/log_vectors.py describes. The script writes the blocks and, by a reading of its own, the lines that are expected.
// Small and capital letters are both digits; a line with any other sign, or with an odd number of digits, is no block.
#![tactic(auto)]

mod report;

use std::alloc::{AllocError, Global};
use std::io::{BufRead, BufReader};

// How many bytes are decoded at once.
const PART: usize = 256;

// The block that a line stands for; None where it is no hex. Its signs are decoded part by part, so that no memory is asked
// for those from the first wrong one on, however many there are.
fn block_of(heap: Global, line: &[u8]) -> Result<Option<Vec<u8>>, AllocError> {
    let mut block = Vec::new(heap);
    let mut decoded = [0; PART];
    for signs in line.chunks(2 * PART) {
        let part = &mut decoded[..(signs.len() / 2).min(PART)];
        if hex::decode_to_slice(signs, part).is_err() {
            return Ok(None);
        }
        block.extend_from_slice(part)?;
    }
    Ok(Some(block))
}

fn run(rt: &HostRuntime) -> anyhow::Result<()> {
    let heap = rt.alloc();
    for line in BufReader::new(heap, rt.stdin())?.split(heap, b'\n') {
        match block_of(heap, line?.as_slice())? {
            Some(block) => println!(rt; "{}", report::log_line(heap, &block)?)?,
            None => println!(rt; "bad line")?,
        }
    }
    Ok(())
}

fn main(rt: HostRuntime) -> anyhow::Result<()> {
    run(&rt)
}
