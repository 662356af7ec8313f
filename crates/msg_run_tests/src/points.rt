//! What each point of a history answers, and what a worker's lines say of the points at which it
//! looked up.

use crate::edits::{CLASSES, Edit, Row, SELECTORS, answer, make, opening};
use std::alloc::Global;
use std::process::Abort;

/// The results at one point: a number for each class and selector.
#[derive(Clone, Copy, Debug)]
struct Answers {
    numbers: [[Option<u32>; 2]; 3],
}

fn answers_of(rows: &[Row]) -> Answers {
    let mut numbers = [[None; 2]; 3];
    for (class, of_class) in numbers.iter_mut().enumerate() {
        for (sel, number) in of_class.iter_mut().enumerate() {
            *number = answer(rows, class, sel);
        }
    }
    Answers { numbers }
}

/// The points of a history, from the opening on, and what became of the changes that make it.
#[derive(Drop)]
pub(crate) struct Points {
    answers: Vec<Answers>,
    pub(crate) accepted: Vec<bool>,
}

/// What is sent to an object: one of the selectors, or the one whose body sends it both.
#[derive(Clone, Copy, Debug, PartialEq, Eq)]
pub(crate) enum Sent {
    One(usize),
    Both,
}

/// The body of `both` returns a multiple of `value`, plus `name`.
pub(crate) const FACTOR: u32 = 10_000;

impl Points {
    /// The points that these changes make, one after another.
    pub(crate) fn of(rt: &impl Abort, alloc: Global, edits: &[Edit]) -> Points {
        let mut rows = opening(rt, alloc);
        let mut points = Points {
            answers: Vec::new(alloc),
            accepted: Vec::new(alloc),
        };
        points.push(rt, &rows);
        for edit in edits {
            let is_accepted = make(rt, &mut rows, *edit);
            points.accepted.push(is_accepted).expect(rt, "memory");
            if is_accepted {
                points.push(rt, &rows);
            }
        }
        points
    }

    fn push(&mut self, rt: &impl Abort, rows: &[Row]) {
        self.answers.push(answers_of(rows)).expect(rt, "memory");
    }

    // The first point from one on at which a class returns the number for a selector.
    fn first(&self, from: usize, class: usize, sel: usize, number: u32) -> Option<usize> {
        for (later, answers) in self.answers.get(from..)?.iter().enumerate() {
            let of_class = answers.numbers.get(class)?;
            if of_class.get(sel) == Some(&Some(number)) {
                return Some(from.saturating_add(later));
            }
        }
        None
    }

    /// The least point, from one on, at which the last lookup of a send can have been made that was
    /// answered so.
    pub(crate) fn last_of(
        &self,
        from: usize,
        class: usize,
        sent: Sent,
        number: u32,
    ) -> Option<usize> {
        match sent {
            Sent::One(sel) => self.first(from, class, sel, number),
            Sent::Both => {
                let value = self.first(from, class, 0, number / FACTOR)?;
                self.first(value, class, 1, number % FACTOR)
            }
        }
    }
}

/// The send of this number.
pub(crate) fn send_of(number: usize) -> (usize, Sent) {
    let class = number % CLASSES.len();
    match (number / CLASSES.len()) % (SELECTORS.len() + 1) {
        2 => (class, Sent::Both),
        sel => (class, Sent::One(sel)),
    }
}
