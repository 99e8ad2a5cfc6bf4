// The C interface (include/chaemodul.h): each function takes plain numbers and lent arrays, and hands on to the proved crates.
#![tactic(auto)]

ghost use Rattle.std.specs.Prelude.{◌≡◌, ◌≤◌, ◌↔◌, All, IsTrue};
ghost use Rattle.capi.specs.Words.{Fitting, fitting, state_of_words, words_of_state};
ghost use Rattle.capi.specs.Promises.{StartsWrite, StepsWriter, FlickersWriter, StepsReader, FlickersReader, MakesMoveOn, JudgesInto, RunsInto};

use register::{Move, State};
use terms::Refusal;

// Judges a log: the seven numbers of the answer; returns the first.
#[unsafe(no_mangle)]
pub extern "C" fn chaemodul_judge(log: &[u8], answer: &mut [u32; 7]) -> u32
    ensures { JudgesInto log.now answer.new result }
{
    let a = judge::Answer::from(judge::judge(log));
    *answer = [
        a.number,
        a.place as u32,
        a.atomic,
        a.first,
        a.writes,
        a.reads,
        a.overlapped,
    ];
    a.number
}

// Runs a schedule into an output: the three numbers of the answer; returns the first.
#[unsafe(no_mangle)]
pub extern "C" fn chaemodul_run(schedule: &[u8], out: &mut [u8], answer: &mut [u32; 3]) -> u32
    ensures { RunsInto schedule.now out.old out.new answer.new result }
{
    let ran = replay::run(schedule, out);
    let number = terms::number(&ran);
    *answer = [number, terms::place(&ran) as u32, ran.unwrap_or(0) as u32];
    number
}

// Each of the words fits a byte. (`register` tests its numbers by the same chain: one line, and a public function of it would be no plainer.)
fn are_bytes(words: &[u32]) -> bool
    ensures { IsTrue result ↔ All (λ word. word ≤ 255) words.now }
{
    words.iter().all(|word| *word <= 255)
}

// Each word of a location or a bit fits its byte.
fn fits(w: [u32; 25]) -> bool
    ensures { result ≡ fitting w }
{
    are_bytes(&[
        w[8], w[9], w[10], w[11], w[12], w[13], w[14], w[18], w[19], w[20],
    ])
}

// The state of the words: an interface of C's, so no `From`, and `as`, since `Fitting` says that each word fits its byte.
fn state_of(w: [u32; 25]) -> State
    requires { Fitting w }
    ensures { result ≡ state_of_words w }
{
    State {
        bufs: [w[0], w[1], w[2], w[3]],
        tags: [w[4], w[5], w[6], w[7]],
        ww: w[8] as u8,
        rr: w[9] as u8,
        c: [w[10] as u8, w[11] as u8],
        q: w[12] as u8,
        aw: w[13] as u8,
        cw: w[14] as u8,
        startw: w[15],
        numberw: w[16],
        kept: w[17],
        r: w[18] as u8,
        br: w[19] as u8,
        cr: w[20] as u8,
        value: w[21],
        startr: w[22],
        numberr: w[23],
        masq: w[24],
    }
}

// The words of a state.
fn words_of(s: State) -> [u32; 25]
    ensures { result ≡ words_of_state s }
{
    [
        s.bufs[0],
        s.bufs[1],
        s.bufs[2],
        s.bufs[3],
        s.tags[0],
        s.tags[1],
        s.tags[2],
        s.tags[3],
        s.ww as u32,
        s.rr as u32,
        s.c[0] as u32,
        s.c[1] as u32,
        s.q as u32,
        s.aw as u32,
        s.cw as u32,
        s.startw,
        s.numberw,
        s.kept,
        s.r as u32,
        s.br as u32,
        s.cr as u32,
        s.value,
        s.startr,
        s.numberr,
        s.masq,
    ]
}

// One move in place, and the number that C is handed.
fn make(words: &mut [u32; 25], m: Move) -> u32
    ensures { MakesMoveOn m words.old words.new result }
{
    let w = *words;
    if !fits(w) {
        return Refusal::OutOfRange.into();
    }
    let a = state_of(w).moved(m);
    let next = a.state;
    *words = words_of(next);
    terms::number(&a.answer)
}

// A writer's start with its value.
#[unsafe(no_mangle)]
pub extern "C" fn chaemodul_writer_start(state: &mut [u32; 25], value: u32) -> u32
    ensures { StartsWrite value state.old state.new result }
{
    make(state, Move::WriterStart(value))
}

// Another writer step.
#[unsafe(no_mangle)]
pub extern "C" fn chaemodul_writer_step(state: &mut [u32; 25]) -> u32
    ensures { StepsWriter state.old state.new result }
{
    make(state, Move::WriterStep)
}

// A writer flicker with its bit. The reader's functions are the writer's twins: C calls each by its name.
#[unsafe(no_mangle)]
pub extern "C" fn chaemodul_writer_flicker(state: &mut [u32; 25], bit: u32) -> u32
    ensures { FlickersWriter bit state.old state.new result }
{
    let Ok(bit) = u8::try_from(bit) else {
        return Refusal::OutOfRange.into();
    };
    make(state, Move::WriterFlicker(bit))
}

// A reader step.
#[unsafe(no_mangle)]
pub extern "C" fn chaemodul_reader_step(state: &mut [u32; 25]) -> u32
    ensures { StepsReader state.old state.new result }
{
    make(state, Move::ReaderStep)
}

// A reader flicker with its bit.
#[unsafe(no_mangle)]
pub extern "C" fn chaemodul_reader_flicker(state: &mut [u32; 25], bit: u32) -> u32
    ensures { FlickersReader bit state.old state.new result }
{
    let Ok(bit) = u8::try_from(bit) else {
        return Refusal::OutOfRange.into();
    };
    make(state, Move::ReaderFlicker(bit))
}
