//! Calls and answers in print.
use crate::score::SCORE;
use std::fmt::Display;
use std::io;
use trace::Answered;

/// Prints each call of the score with its answer.
pub fn show<X: Display>(rt: &HostRuntime, answers: &[Answered<X>]) -> io::Result<()> {
    for (call, answer) in SCORE.iter().zip(answers) {
        match answer {
            Ok(granted) => println!(rt; "{call}: {granted}")?,
            Err(fault) => println!(rt; "{call}: declined by {}", fault.number())?,
        }
    }
    Ok(())
}
