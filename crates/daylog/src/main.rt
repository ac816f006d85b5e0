// Reads rules and orders from standard input, and prints what a pile of two watches over the reckoned calendar answers.
#![tactic(auto)]

use std::io;
use std::io::{Read, Write};
use transcript::{INPUT_LIMIT, transcribe};

// More than any output needs: the header has 29 bytes and every other line at most 26, and each line but the header and that of the
// making comes of at least one byte of the input. If it were too little all the same, nothing would be printed.
const OUTPUT_ROOM: usize = 2_000_000;

fn main(rt: HostRuntime) -> io::Result<()> {
    let heap = rt.alloc();
    let mut input = Vec::new(heap);
    // one byte more than an input may have, so that one that is too long is seen to be; there is no `From` from `usize` to `u64`
    let _ = rt
        .stdin()
        .take(INPUT_LIMIT as u64 + 1)
        .read_to_end(&mut input)?;
    let mut output = vec![in heap; 0u8; OUTPUT_ROOM]?;
    let count = transcribe(input.as_slice(), output.as_mut_slice());
    if count == OUTPUT_ROOM {
        return Err(io::Error::from(io::ErrorKind::WriteZero));
    }
    rt.stdout().write_all(&output.as_slice()[0..count])
}
