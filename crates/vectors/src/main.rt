// The oracle's stored runs (vectors/README.md) through the public calls: the Rust's answers against this port's.
#![tactic(auto)]

use crate::line::Line;
use crate::numbers::Numbers;
use crate::run::Run;
use crate::tally::{Tally, count};
use input::fill;
use lines::{Command, read_line};
use std::io;
use store::Limits;

mod compare;
mod handles;
mod image;
mod line;
mod numbers;
mod run;
mod tally;

// How many differences are told one by one.
const TOLD: u64 = 10;

#[derive(Drop)]
struct Replay {
    run: Run,
    tally: Tally,
    // The run's first line has its name, by which a difference is told.
    title: Line,
    // the line that is being read
    line: Line,
}

impl Replay {
    fn new() -> Replay {
        Replay {
            run: Run::new(),
            tally: Tally::default(),
            title: Line::new(),
            line: Line::new(),
        }
    }

    fn begin_run(&mut self, text: &[u8]) -> bool {
        let [s, t, k, e, ..] = Numbers::read(text).words;
        let limits = Limits {
            S: s,
            T: t,
            K: k,
            E: e,
        };
        count(&mut self.tally.runs, true);
        self.run.begin(limits).is_ok()
    }

    fn ask(&mut self, command: Command) -> bool {
        self.run.call(command);
        count(&mut self.tally.inputs, true)
    }

    fn hear_answer(&mut self, text: &[u8]) -> bool {
        let agrees = self.run.answer_agrees(Numbers::read(text).as_slice());
        self.run.give_handle();
        count(&mut self.tally.answers, agrees)
    }

    fn hear_live(&mut self, text: &[u8]) -> bool {
        let agrees = self.run.live_agrees(Numbers::read(text).as_slice());
        count(&mut self.tally.live, agrees)
    }

    // Whether the line agrees with the run.
    fn follow(&mut self, line: &[u8]) -> bool {
        match line {
            [b'r', _, limits @ ..] => self.begin_run(limits),
            [b'>', _, command @ ..] => self.ask(read_line(command)),
            [b'!', _, ..] => self.ask(Command::BadLine),
            [b'=', _, answer @ ..] => self.hear_answer(answer),
            [b'*', _, live @ ..] => self.hear_live(live),
            _ => false,
        }
    }

    fn tell_difference(&mut self, rt: &impl Print) -> io::Result<()> {
        let told = self.tally.differ;
        count(&mut self.tally.differ, true);
        if told >= TOLD {
            return Ok(());
        }
        let line = self.tally.line;
        rt.write_all(self.title.as_slice())?;
        println!(rt; ": line {line} differs")
    }

    fn end_line(&mut self, rt: &impl Print) -> io::Result<()> {
        let line = self.line;
        self.line = Line::new();
        if line.as_slice().starts_with(b"r") {
            self.title = line;
        }
        count(&mut self.tally.line, true);
        if self.follow(line.as_slice()) {
            return Ok(());
        }
        self.tell_difference(rt)
    }

    fn feed(&mut self, rt: &impl Print, block: &[u8]) -> io::Result<()> {
        for byte in block {
            if *byte == b'\n' {
                self.end_line(rt)?;
            } else {
                self.line.push(*byte);
            }
        }
        Ok(())
    }
}

fn main(rt: HostRuntime) -> io::Result<()> {
    let mut replay = Replay::new();
    let mut reader = rt.reader();
    let mut block = [0; 65536];
    for _ in 0..u64::MAX {
        let n = fill(&mut reader, &mut block)?;
        if n == 0 {
            break;
        }
        replay.feed(&rt, &block[..n])?;
    }
    let tally = replay.tally;
    println!(rt; "{tally}")
}
