//! Worked sequences: texts of calls with their answers.

use std::alloc::Global;
use std::process::Abort;

/// The number that a word is.
pub(crate) fn natural(rt: &impl Abort, word: &str) -> u32 {
    word.parse().expect(rt, "a number")
}

/// A call, the answer that it should have, and the title of its sequence.
#[derive(Clone, Copy)]
pub(crate) struct Step<'a> {
    title: &'a str,
    pub(crate) call: &'a str,
    wanted: &'a str,
}

impl<'a> Step<'a> {
    /// Fails unless a call has the answer that it should have.
    pub(crate) fn check(self, rt: &impl Abort, answer: &str) {
        assert!(rt;
            answer == self.wanted,
            "{}: {}: {answer}",
            self.title,
            self.call
        );
    }
}

/// The steps of a sequence, which is a title and on further lines calls, between which `; ` stands. The answer stands
/// after ` => `; where none is written, it is `done`.
pub(crate) fn steps<'a>(rt: &impl Abort, alloc: Global, sequence: &'a str) -> Vec<Step<'a>> {
    let (title, lines) = sequence.split_once('\n').unwrap_or((sequence, ""));
    let mut steps = Vec::new(alloc);
    for line in lines.lines() {
        for step in line.split("; ") {
            let (call, wanted) = step.split_once(" => ").unwrap_or((step, "done"));
            let step = Step {
                title,
                call,
                wanted,
            };
            steps.push(step).expect(rt, "memory");
        }
    }
    steps
}
