// Reads commands from standard input, one a line, and answers each with one line on standard output.
#![tactic(auto)]

mod ends;

use ends::without_end;
use interpreter::Interpreter;
use std::io::{BufRead, BufReader};

fn main(rt: HostRuntime) -> anyhow::Result<()> {
    let heap = rt.alloc();
    let mut interpreter = Interpreter::new(heap)?;
    let mut input = BufReader::new(heap, rt.stdin())?;
    let mut line = Vec::new(heap);
    // Not `split`, which would be no plainer: a function with a contract says what ends a line. The count is never reached.
    for _ in 0..u64::MAX {
        line.clear();
        if input.read_until(b'\n', &mut line)? == 0 {
            break;
        }
        let command = without_end(line.as_slice());
        if let Some(reply) = interpreter.answer(heap, command)? {
            println!(rt; "{reply}")?;
        }
    }
    Ok(())
}
