// Replays drawing calls that were made with the original Rust: reads them and what must be seen after each, and writes how many
// answers, states and entries agree. A line is a letter and its words, each of eight hex digits; tests/rust/answers has the list's letters.
#![tactic(auto)]

use answer::Answer;
use columns::{read, write};
use leaves::bits;
use point::Point;
use replay::{Tally, float, letter, number as word};
use std::io::Read;
use std::{array, io};
use store::{Drawing, Store, StoreState};

// The columns and how much of each is lent, the store's state, the line of the list, and how many of the lines that compare agree.
#[derive(Drop)]
struct Run {
    x: [f32; 16],
    y: [f32; 16],
    weight: [f32; 16],
    commands: [u8; 16],
    lent: Lent,
    state: StoreState,
    line: u64,
    compared: Tally,
}

#[derive(Clone, Copy, Default)]
struct Lent {
    x: usize,
    y: usize,
    weight: usize,
    commands: usize,
}

impl Lent {
    // As much of each column as is asked for, or all of it.
    fn read(list: &mut impl Read) -> io::Result<Lent> {
        Ok(Lent {
            x: count(list)?,
            y: count(list)?,
            weight: count(list)?,
            commands: count(list)?,
        })
    }
}

// The letters are those of the stored list. They stay letters, each matched where the words behind it are read: an enum would name each of the sixteen twice
// more, once in its conversion and once for what is made, compared or called.

// A word of all ones means the largest count.
fn count(list: &mut impl Read) -> io::Result<usize> {
    match word(list)? {
        u32::MAX => Ok(usize::MAX),
        n => Ok(n as usize),
    }
}

fn byte(list: &mut impl Read) -> io::Result<u8> {
    Ok((word(list)? % 256) as u8)
}

fn point(list: &mut impl Read) -> io::Result<Point> {
    Ok(Point::new(float(list)?, float(list)?))
}

fn state(list: &mut impl Read) -> io::Result<StoreState> {
    Ok(StoreState {
        points: count(list)?,
        commands: count(list)?,
        opening: count(list)?,
    })
}

impl Run {
    fn new() -> Run {
        Run {
            x: [0.0; 16],
            y: [0.0; 16],
            weight: [0.0; 16],
            commands: [0; 16],
            lent: Lent::default(),
            state: StoreState::default(),
            line: 0,
            compared: Tally::default(),
        }
    }

    // Each entry has a value of its own, so that any write is seen.
    fn renew(&mut self) {
        self.x = array::from_fn(|i| 1000.0 + i as f32);
        self.y = array::from_fn(|i| 2000.0 + i as f32);
        self.weight = array::from_fn(|i| 3000.0 + i as f32);
        self.commands = array::from_fn(|i| 100u8.wrapping_add(i as u8));
    }

    // A call, and its answer.
    fn call(&mut self, list: &mut impl Read, letter: u8) -> io::Result<Answer> {
        // Fields behind a reference can't be lent side by side yet, so the columns are lent as copies.
        let (mut x, mut y, mut weight, mut commands) = (self.x, self.y, self.weight, self.commands);
        let lent = self.lent;
        let mut store = Store {
            x: &mut x[..lent.x.min(16)],
            y: &mut y[..lent.y.min(16)],
            weight: &mut weight[..lent.weight.min(16)],
            commands: &mut commands[..lent.commands.min(16)],
            state: self.state,
        };
        let answer = match letter {
            b'f' => store.fresh(),
            b'b' => store.build(),
            b'm' => store.move_to(point(list)?),
            b'l' => store.line_to(point(list)?),
            b'q' => store.quad_to(point(list)?, point(list)?),
            b'r' => store.rat_quad_to(point(list)?, point(list)?, float(list)?),
            b'v' => {
                let (p1, p2, p3) = (point(list)?, point(list)?, point(list)?);
                store.rat_cubic_to(p1, p2, p3, float(list)?, float(list)?)
            }
            _ => store.cubic_to(point(list)?, point(list)?, point(list)?),
        };
        self.state = store.state;
        self.x = x;
        self.y = y;
        self.weight = weight;
        self.commands = commands;
        Ok(answer)
    }

    fn drawable(&self) -> bool {
        let drawing = Drawing {
            x: &self.x[..self.lent.x.min(16)],
            y: &self.y[..self.lent.y.min(16)],
            weight: &self.weight[..self.lent.weight.min(16)],
            commands: &self.commands[..self.lent.commands.min(16)],
            state: self.state,
        };
        drawing.drawable()
    }

    // Whether a point is as the list says.
    fn same_point(&self, list: &mut impl Read) -> io::Result<bool> {
        let i = count(list)?;
        let same_x = bits(read(&self.x, i, f32::NAN)) == word(list)?;
        let same_y = bits(read(&self.y, i, f32::NAN)) == word(list)?;
        let same_weight = bits(read(&self.weight, i, f32::NAN)) == word(list)?;
        Ok(same_x && same_y && same_weight)
    }

    // One more comparison. The first that differs is written, by its line.
    fn told(&mut self, rt: &impl Print, agreed: bool) -> io::Result<()> {
        if !agreed && self.compared.is_right() {
            println!(rt; "the first that differs is line {}", self.line)?;
        }
        self.compared.count(agreed);
        Ok(())
    }

    // A line that makes the store: fresh columns and their lengths, a state, a point or a command by hand.
    fn made(&mut self, list: &mut impl Read, letter: u8) -> io::Result<()> {
        match letter {
            b'h' => self.state = state(list)?,
            b's' => {
                let i = count(list)?;
                write(&mut self.x, i, float(list)?);
                write(&mut self.y, i, float(list)?);
                write(&mut self.weight, i, float(list)?);
            }
            b'k' => {
                let i = count(list)?;
                write(&mut self.commands, i, byte(list)?);
            }
            _ => {
                self.renew();
                self.lent = Lent::read(list)?;
            }
        }
        Ok(())
    }

    // Whether what the list says is seen: whether the drawing can be flattened, the state, a point, a command or, after a call, its answer.
    fn agrees(&mut self, list: &mut impl Read, letter: u8) -> io::Result<bool> {
        match letter {
            b'd' => Ok(self.drawable() == (word(list)? == 1)),
            b't' => Ok(self.state == state(list)?),
            b'p' => self.same_point(list),
            b'o' => {
                let i = count(list)?;
                Ok(u32::from(read(&self.commands, i, 0)) == word(list)?)
            }
            _ => {
                let answer = self.call(list, letter)?;
                Ok(answer::number(answer) == word(list)?)
            }
        }
    }

    fn step(&mut self, rt: &impl Print, list: &mut impl Read, letter: u8) -> io::Result<()> {
        match letter {
            b'c' | b'h' | b's' | b'k' => self.made(list, letter),
            _ => {
                let agreed = self.agrees(list, letter)?;
                self.told(rt, agreed)
            }
        }
    }
}

fn main(rt: HostRuntime) -> io::Result<()> {
    let mut list = rt.stdin();
    let mut run = Run::new();
    for line in 1..=100_000 {
        // A zero byte ends the list too.
        let Some(letter @ 1..) = letter(&mut list)? else {
            break;
        };
        run.line = line;
        run.step(&rt, &mut list, letter)?;
    }
    println!(rt; "{} agree", run.compared)
}
