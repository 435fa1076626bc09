//! How long the parts of the program last. `bench SUBJECT ..` measures one of them, a module each, and prints what it
//! took; without a subject it does nothing. The scripts in bench/ call it. It is no part of the product.
#![tactic(auto)]

mod asyncs;
mod clock;
mod desk;
mod draws;
mod files;
mod frames;
mod graphs;
mod journals;
mod machine;
mod nets;
mod pitfalls;
mod texts;
mod threads;

use files::{next_word, text_of};
use std::env::{self, Args};
use std::io;

fn main(rt: HostRuntime) -> io::Result<()> {
    let mut words = env::args(&rt)?;
    let _program = words.next();
    let Some(subject) = words.next() else {
        return Ok(());
    };
    match subject.as_str() {
        "asyncs" => asyncs::measure(&rt, rt.alloc(), next_word(&rt, &mut words).as_str()),
        "desk" => desk::measure(&rt, rt.alloc(), next_word(&rt, &mut words).as_str()),
        "draws" => {
            let word = next_word(&rt, &mut words);
            draws::measure(&rt, rt.alloc(), word.as_str(), &text_of(&rt, &mut words)?)
        }
        "frames" => frames::measure(&rt, rt.alloc()),
        "threads" => threads::measure(&rt, rt.alloc()),
        _ => measure_alone(&rt, subject.as_str(), &mut words),
    }
}

// Measures a subject that needs no threads.
fn measure_alone(rt: &HostRuntime, subject: &str, words: &mut Args) -> io::Result<()> {
    match subject {
        "graphs" => graphs::measure(rt, words),
        "journals" => journals::measure(rt, words),
        "machine" => machine::measure(rt),
        "pitfalls" => pitfalls::measure(rt),
        "texts" => texts::measure(rt, words),
        _ => println!(rt; "no such subject"),
    }
}
