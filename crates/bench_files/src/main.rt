// Document 01's bench lines on schedule files, printed one to a line: the answer, the log's bytes, and whether the rest of the output was left
// as found. The file stdout has what document 01 says they are.
#![tactic(auto)]

use std::io;

// A line: the run of a schedule with a lent output, all bytes of which are 170.
fn line(rt: &impl Print, name: &str, schedule: &[u8], out: &mut [u8]) -> io::Result<()> {
    let ran = replay::run(schedule, out);
    let length = ran.unwrap_or(0);
    let (log, behind) = out.split_at(length.min(out.len()));
    let rest = if behind.iter().all(|byte| *byte == 170) {
        "as found"
    } else {
        "touched"
    };
    print!(rt;
        "{name}: answer {} offset {} length {length}, rest {rest}, log",
        terms::number(&ran),
        terms::place(&ran)
    )?;
    for byte in log {
        print!(rt; " {byte}")?;
    }
    println!(rt; "")
}

// A line with room enough.
fn with_room(rt: &impl Print, name: &str, schedule: &[u8]) -> io::Result<()> {
    let mut space = [170u8; 128];
    line(rt, name, schedule, &mut space)
}

// The runs of P1 to P6.
fn logs(rt: &impl Print) -> io::Result<()> {
    with_room(rt, "P1, initial 5 only", b"\x01\x00\x04\x00\x00\x00\x05")?;
    with_room(
        rt,
        "P2, five reader steps",
        b"\x01\x00\x04\x00\x00\x00\x05\x05\x00\x00\x05\x00\x00\x05\x00\x00\x05\x00\x00\x05\x00\x00",
    )?;
    with_room(
        rt,
        "P3, start 9, three writer steps, five reader steps",
        b"\x01\x00\x04\x00\x00\x00\x05\x02\x00\x04\x00\x00\x00\x09\x03\x00\x00\x03\x00\x00\x03\x00\x00\x05\x00\x00\x05\x00\x00\x05\x00\x00\x05\x00\x00\x05\x00\x00",
    )?;
    with_room(
        rt,
        "P4, after P2 start 9, seven writer steps, five reader steps",
        b"\x01\x00\x04\x00\x00\x00\x05\x05\x00\x00\x05\x00\x00\x05\x00\x00\x05\x00\x00\x05\x00\x00\x02\x00\x04\x00\x00\x00\x09\x03\x00\x00\x03\x00\x00\x03\x00\x00\x03\x00\x00\x03\x00\x00\x03\x00\x00\x03\x00\x00\x05\x00\x00\x05\x00\x00\x05\x00\x00\x05\x00\x00\x05\x00\x00",
    )?;
    with_room(
        rt,
        "P5, after P2 start 9, two reader steps",
        b"\x01\x00\x04\x00\x00\x00\x05\x05\x00\x00\x05\x00\x00\x05\x00\x00\x05\x00\x00\x05\x00\x00\x02\x00\x04\x00\x00\x00\x09\x05\x00\x00\x05\x00\x00",
    )?;
    with_room(
        rt,
        "P6, start 9, flicker 1, five reader steps, flicker 0, two reader steps",
        b"\x01\x00\x04\x00\x00\x00\x05\x02\x00\x04\x00\x00\x00\x09\x04\x00\x01\x01\x05\x00\x00\x05\x00\x00\x05\x00\x00\x05\x00\x00\x05\x00\x00\x04\x00\x01\x00\x05\x00\x00\x05\x00\x00",
    )
}

// Refusals of a schedule's head.
fn heads(rt: &impl Print) -> io::Result<()> {
    with_room(rt, "no bytes", b"")?;
    with_room(rt, "first field no tag 1", b"\x05\x00\x00")?;
    with_room(rt, "first field no tag 1 and cut", b"\x02\x00\x04\x00")?;
    with_room(rt, "cut header", b"\x01\x00")?;
    with_room(rt, "cut body", b"\x01\x00\x04\x00\x00\x00")?;
    with_room(rt, "tag of a log", b"\x07\x00\x04\x00\x00\x00\x05")?;
    with_room(rt, "wrong length", b"\x01\x00\x05\x00\x00\x00\x05")?;
    let at_limit = [0u8; 32768];
    with_room(
        rt,
        "as many bytes as a schedule may have, of an unknown tag",
        &at_limit,
    )?;
    let over = [1u8; 32769];
    with_room(rt, "a byte more", &over)
}

// Refusals 1 and 2 behind the head, and their order.
fn fields(rt: &impl Print) -> io::Result<()> {
    with_room(
        rt,
        "a header of one byte",
        b"\x01\x00\x04\x00\x00\x00\x05\x05",
    )?;
    with_room(
        rt,
        "a header of two bytes",
        b"\x01\x00\x04\x00\x00\x00\x05\x05\x00",
    )?;
    with_room(
        rt,
        "a cut body",
        b"\x01\x00\x04\x00\x00\x00\x05\x02\x00\x04\x00\x00\x00",
    )?;
    with_room(
        rt,
        "an unknown tag",
        b"\x01\x00\x04\x00\x00\x00\x05\x00\x00\x00",
    )?;
    with_room(
        rt,
        "a tag of a log",
        b"\x01\x00\x04\x00\x00\x00\x05\x08\x00\x00",
    )?;
    with_room(
        rt,
        "an unknown tag before its cut body",
        b"\x01\x00\x04\x00\x00\x00\x05\x09\xff\xff",
    )
}

// Refusals 3 and 4 behind the head, and 1 before 4.
fn lengths(rt: &impl Print) -> io::Result<()> {
    with_room(
        rt,
        "a wrong length",
        b"\x01\x00\x04\x00\x00\x00\x05\x03\x00\x01\x00",
    )?;
    with_room(
        rt,
        "a wrong length before a cut body",
        b"\x01\x00\x04\x00\x00\x00\x05\x05\x01\x00",
    )?;
    with_room(
        rt,
        "tag 1 later",
        b"\x01\x00\x04\x00\x00\x00\x05\x05\x00\x00\x01\x00\x04\x00\x00\x00\x05",
    )?;
    with_room(
        rt,
        "a cut body before tag 1 later",
        b"\x01\x00\x04\x00\x00\x00\x05\x01\x00\x04\x00",
    )
}

// Refusal 5 behind the head, before 6.
fn bits(rt: &impl Print) -> io::Result<()> {
    with_room(
        rt,
        "flicker body 2 before its location, writer",
        b"\x01\x00\x04\x00\x00\x00\x05\x04\x00\x01\x02",
    )?;
    with_room(
        rt,
        "flicker body 2 before its location, reader",
        b"\x01\x00\x04\x00\x00\x00\x05\x06\x00\x01\x02",
    )
}

// Refusal 6 behind the head, and a refusal behind good fields.
fn moves(rt: &impl Print) -> io::Result<()> {
    with_room(
        rt,
        "initial then tag 3",
        b"\x01\x00\x04\x00\x00\x00\x05\x03\x00\x00",
    )?;
    with_room(
        rt,
        "writer flicker at 20",
        b"\x01\x00\x04\x00\x00\x00\x05\x04\x00\x01\x01",
    )?;
    with_room(
        rt,
        "writer flicker at 22",
        b"\x01\x00\x04\x00\x00\x00\x05\x02\x00\x04\x00\x00\x00\x09\x03\x00\x00\x04\x00\x01\x01",
    )?;
    with_room(
        rt,
        "reader flicker at 40",
        b"\x01\x00\x04\x00\x00\x00\x05\x06\x00\x01\x00",
    )?;
    with_room(
        rt,
        "start at 21",
        b"\x01\x00\x04\x00\x00\x00\x05\x02\x00\x04\x00\x00\x00\x09\x02\x00\x04\x00\x00\x00\x09",
    )?;
    with_room(
        rt,
        "a refusal behind good fields",
        b"\x01\x00\x04\x00\x00\x00\x05\x05\x00\x00\x05\x00\x00\x05\x00\x00\x05\x00\x00\x05\x00\x00\x04\x00\x01\x02",
    )
}

// The room for P2's log of 17 bytes.
fn rooms(rt: &impl Print) -> io::Result<()> {
    let mut short = [170u8; 16];
    line(
        rt,
        "a byte short of P2's 17",
        b"\x01\x00\x04\x00\x00\x00\x05\x05\x00\x00\x05\x00\x00\x05\x00\x00\x05\x00\x00\x05\x00\x00",
        &mut short,
    )?;
    let mut exact = [170u8; 17];
    line(
        rt,
        "exactly 17",
        b"\x01\x00\x04\x00\x00\x00\x05\x05\x00\x00\x05\x00\x00\x05\x00\x00\x05\x00\x00\x05\x00\x00",
        &mut exact,
    )?;
    let mut none = [170u8; 6];
    line(
        rt,
        "no room for P1's 7",
        b"\x01\x00\x04\x00\x00\x00\x05",
        &mut none,
    )?;
    let mut front = [170u8; 7];
    line(
        rt,
        "no room, but a later 6",
        b"\x01\x00\x04\x00\x00\x00\x05\x05\x00\x00\x05\x00\x00\x05\x00\x00\x05\x00\x00\x05\x00\x00\x03\x00\x00",
        &mut front,
    )?;
    line(
        rt,
        "no room, but a later 1",
        b"\x01\x00\x04\x00\x00\x00\x05\x05\x00\x00\x05\x00\x00\x05\x00\x00\x05\x00\x00\x05\x00\x00\x05",
        &mut front,
    )
}

fn main(rt: HostRuntime) -> io::Result<()> {
    logs(&rt)?;
    heads(&rt)?;
    fields(&rt)?;
    lengths(&rt)?;
    bits(&rt)?;
    moves(&rt)?;
    rooms(&rt)
}
