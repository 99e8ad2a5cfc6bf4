// The step machine of the register: its state, the five kinds of move, and the answer to one move with its refusals.
// specs/Initial.antt, specs/Steps.antt and specs/Move.antt say what is right; every step here stands in the order of its text there.
#![tactic(auto)]

ghost use Rattle.std.specs.Prelude.{◌≡◌, ◌&&◌, IfSome, is_some, leb, IsTrue, ◌↔◌, All, ◌≤◌};
ghost use Rattle.register.specs.declared.Move.TheVariants.{WriterStart, WriterStep, WriterFlicker, ReaderStep, ReaderFlicker};
ghost use Rattle.register.specs.Initial.{IsInitial};
ghost use Rattle.register.specs.Steps as steps;
ghost use Rattle.register.specs.Move.{MakesMove, answer_to, between, bit_carried, is_in_range, is_a_clash, would_write_row};
ghost use Rattle.register.specs.Device.{InBounds, MakesStep, RowInBounds, answer_in};

use terms::{Refusal, Refused, Value};

// The state. buf[i,j] and its tag stand at 2i + j, in the two arrays that document 01 asks for. Locations and bits are bytes, so that one out of its range can be given and refused 9.
#[derive(Clone, Copy, Debug, PartialEq, Eq)]
pub struct State {
    pub bufs: [Value; 4],
    pub tags: [u32; 4],
    pub ww: u8,
    pub rr: u8,
    pub c: [u8; 2],
    pub q: u8,
    pub aw: u8,
    pub cw: u8,
    pub startw: u32,
    pub numberw: u32,
    pub kept: Value,
    pub r: u8,
    pub br: u8,
    pub cr: u8,
    pub value: Value,
    pub startr: u32,
    pub numberr: u32,
    pub masq: u32,
}

// One of five kinds of move.
#[derive(Clone, Copy, Debug, PartialEq, Eq)]
pub enum Move {
    WriterStart(Value),
    WriterStep,
    WriterFlicker(u8),
    ReaderStep,
    ReaderFlicker(u8),
}

// The answer to a move, its place 0 for every single move, and the next state.
#[derive(Clone, Copy, Debug, PartialEq, Eq)]
pub struct Moved {
    pub answer: Result<(), Refused>,
    pub state: State,
}

// A state in range, in which a step starts.
#[derive(Clone, Copy)]
struct Sound {
    state: State,
    ghost in_bounds: { InBounds state },
}

// Whether the bit that a move carries, if it carries one, is a bit.
fn carries_bit(m: Move) -> bool
    ensures { result ≡ leb (bit_carried m) 1 }
{
    match m {
        Move::WriterFlicker(b) | Move::ReaderFlicker(b) => b <= 1,
        _ => true,
    }
}

// A location from the first to the last.
fn is_between(first: u8, last: u8, location: u8) -> bool
    ensures { result ≡ between first last location }
{
    (first..=last).contains(&location)
}

// Whether none of the numbers is above the limit.
fn are_at_most(limit: u32, numbers: &[u32]) -> bool
    ensures { IsTrue result ↔ All (λ n. n ≤ limit) numbers.now }
{
    numbers.iter().all(|&n| n <= limit)
}

impl State {
    // The initial state.
    pub fn initial(v0: Value) -> State
        ensures { IsInitial v0 result }
    {
        State {
            bufs: [v0; 4],
            tags: [1; 4],
            ww: 0,
            rr: 1,
            c: [0; 2],
            q: 20,
            aw: 0,
            cw: 0,
            startw: 0,
            numberw: 1,
            kept: v0,
            r: 40,
            br: 1,
            cr: 0,
            value: v0,
            startr: 0,
            numberr: 0,
            masq: 1,
        }
    }

    // Every location, bit and number of the state is in its range.
    fn in_range(self) -> bool
        ensures { result ≡ is_in_range self }
    {
        let bits = [
            self.ww as u32,
            self.rr as u32,
            self.c[0] as u32,
            self.c[1] as u32,
            self.aw as u32,
            self.cw as u32,
            self.br as u32,
            self.cr as u32,
        ];
        let numbers = [
            self.tags[0],
            self.tags[1],
            self.tags[2],
            self.tags[3],
            self.startw,
            self.startr,
            self.numberw,
            self.numberr,
            self.masq,
        ];
        is_between(20, 27, self.q)
            & is_between(40, 44, self.r)
            & are_at_most(1, &bits)
            & are_at_most(65535, &numbers)
    }

    // At work on the row i, the writer would write buf[br,cr].
    fn would_write(self, i: u8) -> bool
        requires { RowInBounds self i }
        ensures { result ≡ would_write_row self i }
    {
        i == self.br && 1 - self.c[i as usize] == self.cr
    }

    // cw becomes not c[i]; buf[i,cw] takes the value, its tag the number.
    fn stored(mut self, i: usize, v: Value) -> State
        requires { RowInBounds self i }
        ensures { result ≡ steps.stored i v self }
    {
        self.cw = 1 - self.c[i];
        let slot = 2 * i + self.cw as usize;
        self.bufs[slot] = v;
        self.tags[slot] = self.numberw;
        self
    }

    // The state that was given, if it and the move's bit are in range.
    fn sound(self, m: Move) -> Option<Sound>
        ensures given { IfSome result (λ t. t.state ≡ self) }
        ensures tested { is_some result ≡ (is_in_range self && leb (bit_carried m) 1) }
    {
        if self.in_range() && carries_bit(m) {
            Some(Sound { state: self })
        } else {
            None
        }
    }

    // The next state, or why the move is refused.
    #[tactic(auto, unfolding(crate::specs::Move::answer_to))]
    fn next(self, m: Move) -> Result<State, Refusal>
        ensures { answer_in self result ≡ answer_to self m }
    {
        let sound = self.sound(m).ok_or(Refusal::OutOfRange)?;
        if sound.is_clash() {
            return Err(Refusal::Clash);
        }
        sound.stepped(m)
    }

    // One move: the answer with the next state, or with a refusal and the state that was given.
    pub fn moved(mut self, m: Move) -> Moved
        ensures { MakesMove self m result }
    {
        let answer = match self.next(m) {
            Ok(next) => {
                self = next;
                Ok(())
            }
            Err(refusal) => Err(refusal.at(0)),
        };
        Moved {
            answer,
            state: self,
        }
    }
}

impl Sound {
    // With r = 43, the writer at 20 would write buf[br,cr], or the writer at 23 would.
    fn is_clash(self) -> bool
        ensures { result ≡ is_a_clash self.state }
    {
        let s = self.state;
        s.r == 43
            && match s.q {
                20 => s.would_write(s.aw),
                23 => s.would_write(1 - s.aw),
                _ => false,
            }
    }

    // A writer's start: step 20, the beginning of a write.
    fn start(self, v: Value) -> Result<State, Refusal>
        ensures { MakesStep (WriterStart v) self.state result }
    {
        let mut s = self.state;
        let q = s.q;
        match q {
            0..=19 | 28..=255 => return Err(Refusal::OutOfRange),
            20 => {
                if s.numberw == 65535 {
                    return Err(Refusal::NumberSpent);
                }
                s.startw = s.masq;
                s.numberw += 1;
                s.kept = v;
                s = s.stored(s.aw as usize, v);
                s.q = 21;
            }
            _ => return Err(Refusal::Misfit),
        }
        Ok(s)
    }

    // Another writer step: 21 to 27.
    fn writer(self) -> Result<State, Refusal>
        ensures { MakesStep WriterStep self.state result }
    {
        let mut s = self.state;
        let q = s.q;
        let row = s.aw as usize;
        let other = 1 - row;
        match q {
            0..=19 | 28..=255 => return Err(Refusal::OutOfRange),
            20 => return Err(Refusal::Misfit),
            21 => {
                s.c[row] = s.cw;
                s.q = 22;
            }
            22 => s.q = if s.aw == s.rr { 23 } else { 27 },
            23 => {
                s = s.stored(other, s.kept);
                s.q = 24;
            }
            24 => {
                s.c[other] = s.cw;
                s.q = 25;
            }
            25 if s.aw == s.rr => {
                s.aw = 1 - s.aw;
                s.q = 26;
            }
            25 => s.q = 27,
            26 => {
                s.ww = s.aw;
                s.q = 27;
            }
            27 => {
                s.masq = s.masq.max(s.numberw);
                s.q = 20;
            }
        }
        Ok(s)
    }

    // A writer flicker: the bit being assigned at 21, 24 or 26 is set, and nothing else.
    fn writer_flicker(self, b: u8) -> Result<State, Refusal>
        ensures { MakesStep (WriterFlicker b) self.state result }
    {
        let mut s = self.state;
        let q = s.q;
        let row = s.aw as usize;
        let other = 1 - row;
        match q {
            0..=19 | 28..=255 => return Err(Refusal::OutOfRange),
            21 => s.c[row] = b,
            24 => s.c[other] = b,
            26 => s.ww = b,
            _ => return Err(Refusal::Misfit),
        }
        Ok(s)
    }

    // A reader step: 40 to 44.
    fn reader(self) -> Result<State, Refusal>
        ensures { MakesStep ReaderStep self.state result }
    {
        let mut s = self.state;
        let r = s.r;
        match r {
            0..=39 | 45..=255 => return Err(Refusal::OutOfRange),
            40 => {
                s.startr = s.masq;
                if s.br == s.ww {
                    s.r = 44;
                } else {
                    s.br = 1 - s.br;
                    s.r = 41;
                }
            }
            41 => {
                s.rr = s.br;
                s.r = 42;
            }
            42 => {
                s.cr = s.c[s.br as usize];
                s.r = 43;
            }
            43 => {
                let slot = 2 * (s.br as usize) + s.cr as usize;
                s.value = s.bufs[slot];
                s.numberr = s.tags[slot];
                s.r = 44;
            }
            44 => {
                s.masq = s.masq.max(s.numberr);
                s.r = 40;
            }
        }
        Ok(s)
    }

    // A reader flicker: the bit being assigned at 41 is set, and nothing else.
    fn reader_flicker(self, b: u8) -> Result<State, Refusal>
        ensures { MakesStep (ReaderFlicker b) self.state result }
    {
        let mut s = self.state;
        let r = s.r;
        match r {
            0..=39 | 45..=255 => return Err(Refusal::OutOfRange),
            41 => s.rr = b,
            _ => return Err(Refusal::Misfit),
        }
        Ok(s)
    }

    // The step or the flicker of a move, or the refusal of one that does not fit.
    fn stepped(self, m: Move) -> Result<State, Refusal>
        ensures { MakesStep m self.state result }
    {
        match m {
            Move::WriterStart(v) => self.start(v),
            Move::WriterStep => self.writer(),
            Move::WriterFlicker(b) => self.writer_flicker(b),
            Move::ReaderStep => self.reader(),
            Move::ReaderFlicker(b) => self.reader_flicker(b),
        }
    }
}
