// Judges the log on standard input and writes document 01's three lines on standard output, for a refused log too. Where the input cannot
// be read there is no log to judge: a message goes to standard error, and nothing to standard output. A write that fails ends the program.
#![tactic(auto)]

use judge::Answer;
use std::io;

fn main(rt: HostRuntime) -> io::Result<()> {
    // One byte more than a log may have, so that a longer input is seen.
    let mut buffer = [0u8; 65536];
    match input::fill(&mut rt.stdin(), &mut buffer) {
        Ok(n) => println!(rt; "{}", Answer::from(judge::judge(&buffer[..n]))),
        Err(_) => eprintln!(rt; "judge_log: standard input cannot be read"),
    }
}
