//! Rows that say what was done, and hold how long it took to a bound.

use crate::total::{Total, Work};
use std::rt::Clock;
use std::{fmt, io};

/// The bound of a figure.
#[derive(Clone, Copy)]
pub enum Bound {
    AtMost(f64),
    AtLeast(f64),
}

impl Bound {
    fn holds(self, figure: f64) -> bool {
        match self {
            Bound::AtMost(most) => figure <= most,
            Bound::AtLeast(least) => figure >= least,
        }
    }

    /// Whether the figure is within the bound, in a word.
    fn verdict(self, figure: f64) -> &'static str {
        if self.holds(figure) { "within" } else { "past" }
    }
}

impl fmt::Display for Bound {
    fn fmt<W: fmt::Write>(&self, f: &mut fmt::Formatter<W>) -> fmt::Result {
        match self {
            Bound::AtMost(most) => write!(f, "at most {most}"),
            Bound::AtLeast(least) => write!(f, "at least {least}"),
        }
    }
}

/// A work that may take at most so many times as long as another, each call for each call.
#[derive(Clone, Copy)]
pub struct Row<'a> {
    pub what: &'a str,
    pub beside: &'a str,
    pub most: f64,
    /// How often both are done if they are timed.
    pub rounds: u64,
}

impl Row<'_> {
    /// Prints how much was done on both sides, and with the times their ratio.
    pub fn print(
        &self,
        rt: &impl Print,
        first: &Total,
        second: &Total,
        timed: bool,
    ) -> io::Result<()> {
        let (what, beside) = (self.what, self.beside);
        let (done, done_beside) = (first.done(), second.done());
        if !timed {
            return println!(rt; "{what}: {done}; {beside}: {done_beside}");
        }
        let (each, each_beside) = (first.each(), second.each());
        let times = first.times(second);
        let bound = Bound::AtMost(self.most);
        let verdict = bound.verdict(times);
        println!(rt;
            "{what}: {each} ns; {beside}: {each_beside} ns: {times:.2} times, {verdict} ({bound})"
        )
    }
}

/// Does both works in turn, each time in the other order, since who comes second finds what it
/// reads in the caches; and prints the row. Without times each is done once.
pub fn compare<A: Work, B: Work>(
    rt: &(impl Clock + Print + AllocGlobal),
    row: &Row<'_>,
    first: &mut A,
    second: &mut B,
    timed: bool,
) -> io::Result<()> {
    let (mut total, mut beside) = (Total::new(), Total::new());
    for round in 0..(if timed { row.rounds } else { 1 }) {
        if round % 2 == 0 {
            total.time(rt, first)?;
            beside.time(rt, second)?;
        } else {
            beside.time(rt, second)?;
            total.time(rt, first)?;
        }
    }
    row.print(rt, &total, &beside, timed)
}

/// Prints how much was done, or if it is timed a figure of it.
pub fn print_figure(
    rt: &impl Print,
    what: &str,
    done: u64,
    (figure, unit): (f64, &str),
    bound: Bound,
    timed: bool,
) -> io::Result<()> {
    if !timed {
        return println!(rt; "{what}: {done}");
    }
    let verdict = bound.verdict(figure);
    println!(rt; "{what}: {figure:.3} {unit}, {verdict} ({bound})")
}
