// Document 01's bench lines on single moves, printed one to a line: refusals 6, 9, 10 and 12 with their order, where each kind of move
// fits, every field of the initial state, and P2 to P6 step by step. The file stdout has what document 01 says they are.
#![tactic(auto)]

use register::{Move, State};
use std::io;

// A bit at its bound and beyond it, and so a tag, a start, a number and masq.
const BITS: [u8; 2] = [1, 2];

const NUMBERS: [u32; 2] = [65535, 65536];

// The number that a move is answered.
fn answer(rt: &impl Print, s: State, m: Move) -> io::Result<()> {
    print!(rt; " {}", terms::number(&s.moved(m).answer))
}

// The numbers that the moves are answered, each at the same state.
fn answers(rt: &impl Print, s: State, moves: &[Move]) -> io::Result<()> {
    for m in moves {
        answer(rt, s, *m)?;
    }
    println!(rt; "")
}

// A move of each of the five kinds, the flickers with a bit each.
fn five(rt: &impl Print, s: State) -> io::Result<()> {
    answers(
        rt,
        s,
        &[
            Move::WriterStart(9),
            Move::WriterStep,
            Move::WriterFlicker(1),
            Move::ReaderStep,
            Move::ReaderFlicker(0),
        ],
    )
}

// Every field of the initial state.
fn initial(rt: &impl Print) -> io::Result<()> {
    let s = State::initial(5);
    let [b00, b01, b10, b11] = s.bufs;
    let [t00, t01, t10, t11] = s.tags;
    let [c0, c1] = s.c;
    print!(rt; "initial: bufs {b00} {b01} {b10} {b11}, tags {t00} {t01} {t10} {t11}")?;
    print!(rt;
        ", ww {}, rr {}, c {c0} {c1}, q {}, aw {}, cw {}",
        s.ww, s.rr, s.q, s.aw, s.cw
    )?;
    print!(rt;
        ", writer's start {}, number {}, kept {}",
        s.startw, s.numberw, s.kept
    )?;
    print!(rt; ", r {}, br {}, cr {}", s.r, s.br, s.cr)?;
    print!(rt;
        ", value {}, reader's start {}, number {}",
        s.value, s.startr, s.numberr
    )?;
    println!(rt; ", masq {}", s.masq)
}

// A field of the initial state at each of the values.
fn range<T: Copy, F: Fn(&mut State, T)>(
    rt: &impl Print,
    field: &str,
    values: &[T],
    set: F,
) -> io::Result<()>
    requires { F.IsAlwaysCallable set }
{
    print!(rt; "range {field}:")?;
    for value in values {
        let mut s = State::initial(5);
        set(&mut s, *value);
        answer(rt, s, Move::ReaderStep)?;
    }
    println!(rt; "")
}

// Each entry of refusal 9's list: at its bounds another answer than 9, beyond them 9.
fn ranges(rt: &impl Print) -> io::Result<()> {
    range(rt, "q", &[19u8, 20, 27, 28], |s, q| s.q = q)?;
    range(rt, "r", &[39u8, 40, 44, 45], |s, r| s.r = r)?;
    range(rt, "ww", &BITS, |s, b| s.ww = b)?;
    range(rt, "rr", &BITS, |s, b| s.rr = b)?;
    range(rt, "c[0]", &BITS, |s, b| s.c[0] = b)?;
    range(rt, "c[1]", &BITS, |s, b| s.c[1] = b)?;
    range(rt, "aw", &BITS, |s, b| s.aw = b)?;
    range(rt, "cw", &BITS, |s, b| s.cw = b)?;
    range(rt, "br", &BITS, |s, b| s.br = b)?;
    range(rt, "cr", &BITS, |s, b| s.cr = b)?;
    range(rt, "tag[0,0]", &NUMBERS, |s, n| s.tags[0] = n)?;
    range(rt, "tag[0,1]", &NUMBERS, |s, n| s.tags[1] = n)?;
    range(rt, "tag[1,0]", &NUMBERS, |s, n| s.tags[2] = n)?;
    range(rt, "tag[1,1]", &NUMBERS, |s, n| s.tags[3] = n)?;
    range(rt, "writer's start", &NUMBERS, |s, n| s.startw = n)?;
    range(rt, "reader's start", &NUMBERS, |s, n| s.startr = n)?;
    range(rt, "writer's number", &NUMBERS, |s, n| s.numberw = n)?;
    range(rt, "reader's number", &NUMBERS, |s, n| s.numberr = n)?;
    range(rt, "masq", &NUMBERS, |s, n| s.masq = n)?;
    print!(rt; "range of a move's bit:")?;
    for b in BITS {
        answer(rt, writer_at(21), Move::WriterFlicker(b))?;
    }
    for b in BITS {
        answer(rt, reader_at(41), Move::ReaderFlicker(b))?;
    }
    println!(rt; "")
}

// The initial state with the writer at q.
fn writer_at(q: u8) -> State {
    State {
        q,
        ..State::initial(5)
    }
}

// The initial state with the reader at r.
fn reader_at(r: u8) -> State {
    State {
        r,
        ..State::initial(5)
    }
}

// Refusal 6, at every location: a start, a step and a flicker of the writer, a step and a flicker of the reader.
fn fits(rt: &impl Print) -> io::Result<()> {
    for q in 20..=27 {
        print!(rt; "writer at {q}:")?;
        answers(
            rt,
            writer_at(q),
            &[
                Move::WriterStart(9),
                Move::WriterStep,
                Move::WriterFlicker(1),
            ],
        )?;
    }
    for r in 40..=44 {
        print!(rt; "reader at {r}:")?;
        answers(
            rt,
            reader_at(r),
            &[Move::ReaderStep, Move::ReaderFlicker(0)],
        )?;
    }
    Ok(())
}

// The reader at 43 with buf[br,1] to read, the writer at q with aw = 0 and c[0] = c[1] = 0, else initial.
fn meeting(q: u8, br: u8) -> State {
    State {
        q,
        r: 43,
        br,
        cr: 1,
        ..State::initial(5)
    }
}

// Refusal 10: at 20 on the row aw, at 23 on the row not aw, and on the other row none.
fn clashes(rt: &impl Print) -> io::Result<()> {
    print!(rt; "clash at 20:")?;
    five(rt, meeting(20, 0))?;
    print!(rt; "clash at 23:")?;
    five(rt, meeting(23, 1))?;
    print!(rt; "no clash at 20:")?;
    five(rt, meeting(20, 1))?;
    print!(rt; "no clash at 23:")?;
    five(rt, meeting(23, 0))
}

// The order 9, 10, 6, 12.
fn order(rt: &impl Print) -> io::Result<()> {
    let clash = meeting(20, 0);
    print!(rt; "clash and out of range:")?;
    five(
        rt,
        State {
            masq: 65536,
            ..clash
        },
    )?;
    print!(rt; "clash, move out of range:")?;
    answers(rt, clash, &[Move::WriterFlicker(2)])?;
    print!(rt; "clash, move that does not fit:")?;
    answers(rt, clash, &[Move::WriterStep])?;
    let number_spent = State {
        numberw: 65535,
        ..clash
    };
    print!(rt; "clash, number spent:")?;
    answers(rt, number_spent, &[Move::WriterStart(9)])?;
    print!(rt; "move that does not fit, number spent:")?;
    answers(
        rt,
        State {
            q: 21,
            ..number_spent
        },
        &[Move::WriterStart(9)],
    )
}

// One move: the number and the place that it is answered, and the state after it, printed here alone (no `Display`).
fn shown(rt: &impl Print, s: State, m: Move) -> io::Result<State> {
    let a = s.moved(m);
    let t = a.state;
    let [c0, c1] = t.c;
    print!(rt;
        "answer {} place {}, q {}, r {}, aw {}",
        terms::number(&a.answer),
        terms::place(&a.answer),
        t.q,
        t.r,
        t.aw
    )?;
    print!(rt; ", ww {}, rr {}, c {c0} {c1}, masq {}", t.ww, t.rr, t.masq)?;
    print!(rt; ", writer's start {}, number {}", t.startw, t.numberw)?;
    println!(rt;
        ", reader's start {}, number {}, value {}",
        t.startr, t.numberr, t.value
    )?;
    Ok(t)
}

// Writer's number 65,534 and 65,535 at 20.
fn spent(rt: &impl Print) -> io::Result<()> {
    for numberw in [65534, 65535] {
        println!(rt; "writer's number {numberw}")?;
        let s = State {
            numberw,
            ..State::initial(5)
        };
        shown(rt, s, Move::WriterStart(9))?;
    }
    Ok(())
}

// A move made so many times, each shown; hands on the state after the last.
fn times(rt: &impl Print, from: State, count: u8, m: Move) -> io::Result<State> {
    let mut s = from;
    for _ in 0..count {
        s = shown(rt, s, m)?;
    }
    Ok(s)
}

// P2 initial 5, R×5; hands on the state after it.
fn p2(rt: &impl Print) -> io::Result<State> {
    println!(rt; "P2")?;
    times(rt, State::initial(5), 5, Move::ReaderStep)
}

// P3 and P4: from a state start 9, so many writer steps, R×5.
fn written_and_read(rt: &impl Print, name: &str, from: State, steps: u8) -> io::Result<()> {
    println!(rt; "{name}")?;
    let begun = shown(rt, from, Move::WriterStart(9))?;
    let written = times(rt, begun, steps, Move::WriterStep)?;
    times(rt, written, 5, Move::ReaderStep)?;
    Ok(())
}

// P5 after P2, start 9, R×2.
fn p5(rt: &impl Print, after_p2: State) -> io::Result<()> {
    println!(rt; "P5")?;
    let begun = shown(rt, after_p2, Move::WriterStart(9))?;
    times(rt, begun, 2, Move::ReaderStep)?;
    Ok(())
}

// P6 initial 5, start 9, writer flicker 1, R×5, writer flicker 0, R×2.
fn p6(rt: &impl Print) -> io::Result<()> {
    println!(rt; "P6")?;
    let begun = shown(rt, State::initial(5), Move::WriterStart(9))?;
    let flickered = shown(rt, begun, Move::WriterFlicker(1))?;
    let read = times(rt, flickered, 5, Move::ReaderStep)?;
    let back = shown(rt, read, Move::WriterFlicker(0))?;
    times(rt, back, 2, Move::ReaderStep)?;
    Ok(())
}

fn main(rt: HostRuntime) -> io::Result<()> {
    initial(&rt)?;
    ranges(&rt)?;
    fits(&rt)?;
    clashes(&rt)?;
    order(&rt)?;
    spent(&rt)?;
    let after_p2 = p2(&rt)?;
    written_and_read(&rt, "P3", State::initial(5), 3)?;
    written_and_read(&rt, "P4", after_p2, 7)?;
    p5(&rt, after_p2)?;
    p6(&rt)
}
