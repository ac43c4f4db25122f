// Reads a chart file on standard input, and prints an answer for each of its lines after the first and then the chart.
#![tactic(auto)]

use chart_file::{INPUT_MAX, run};
use std::io;
use std::io::{Read, Write};

fn main(rt: HostRuntime) -> io::Result<()> {
    let heap = rt.alloc();
    // One byte more than is read shows an input that is too long. By `as`: `From` leads from no `usize` to `u64`.
    let mut input = Vec::new(heap);
    rt.stdin()
        .take(INPUT_MAX as u64 + 1)
        .read_to_end(&mut input)?;
    // The first run counts the output, and the second writes it.
    let Some(len) = run(&input, &mut []) else {
        return Ok(());
    };
    let mut output = vec![in heap; 0; len]?;
    run(&input, &mut output);
    rt.stdout().write_all(&output)
}
