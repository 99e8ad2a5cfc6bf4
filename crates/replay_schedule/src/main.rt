// Runs the schedule on standard input: the log goes to standard output, and `answer N offset P length L` to standard error. A refused
// schedule writes nothing to standard output. Where the input cannot be read there is no answer, but a message on standard error. A write that
// fails ends the program.
#![tactic(auto)]

use std::io;

// Runs the schedule. The log has at most 65,531 bytes, for which there is room; `get` does not ask for a proof of it.
// The line is printed here alone: a `Display` would need a type of its own.
fn replayed(rt: &(impl Print + Eprint), schedule: &[u8]) -> io::Result<()> {
    let mut out = [0u8; 65536];
    let ran = replay::run(schedule, &mut out);
    let length = ran.unwrap_or(0);
    if let Some(log) = out.get(..length) {
        rt.write_all(log)?;
    }
    eprintln!(rt;
        "answer {} offset {} length {length}",
        terms::number(&ran),
        terms::place(&ran)
    )
}

// The buffer has a byte more than a schedule may have, so that one over the limit is seen.
fn main(rt: HostRuntime) -> io::Result<()> {
    let mut buffer = [0u8; 32769];
    match input::fill(&mut rt.stdin(), &mut buffer) {
        Ok(n) => replayed(&rt, &buffer[..n]),
        Err(_) => eprintln!(rt; "standard input cannot be read"),
    }
}
