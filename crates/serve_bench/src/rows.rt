//! The rows: what the clients of a server measured, held to what those of a bare one did.

use crate::keeping::Keeping;
use crate::kind::Kind;
use crate::side::Figures;
use cs_bench::{Bound, print_figure};
use std::alloc::Global;
use std::io;
use std::num::nearest_u64_to_f64;

/// What the slowest client must do at least, in parts of the mean.
const LEAST_OF_MEAN: f64 = 0.333;

/// What part of a whole it is.
fn part(figure: u64, whole: u64) -> f64 {
    nearest_u64_to_f64(figure) / nearest_u64_to_f64(whole.max(1))
}

/// The same in millionths.
fn millionths(figure: u64, whole: u64) -> u64 {
    figure.saturating_mul(1_000_000) / whole.max(1)
}

/// The part that our best round has of the other's best.
fn best(ours: &Figures, other: &Figures) -> f64 {
    let ours = ours.rates.iter().copied().max().unwrap_or(0);
    part(ours, other.rates.iter().copied().max().unwrap_or(0))
}

/// The middle one of the parts that our rounds have of the other's next to them.
fn middle(alloc: Global, ours: &Figures, other: &Figures) -> io::Result<f64> {
    let mut parts = Vec::new(alloc);
    for (rate, beside) in ours.rates.iter().zip(other.rates.iter()) {
        parts.push(millionths(*rate, *beside))?;
    }
    parts.sort_unstable();
    let middle = parts.get(parts.len() / 2).copied().unwrap_or(0);
    Ok(part(middle, 1_000_000))
}

/// Prints what part of a bare server's rate a work has, and how long nearly all of its works take.
pub fn print_beside(
    rt: &(impl Print + AllocGlobal),
    kind: Kind,
    ours: &Figures,
    (keeping, other): (Keeping, &Figures),
) -> io::Result<()> {
    let Some(least) = kind.least(keeping) else {
        return Ok(());
    };
    let (alloc, least) = (rt.alloc(), Bound::AtLeast(least));
    let row = format!(in alloc; "{}, beside {}", kind.name(), keeping.name())?;
    let row = row.as_str();
    let what = format!(in alloc; "{row}: the best rounds")?;
    let figure = (best(ours, other), "of its rate");
    print_figure(rt, what.as_str(), ours.works, figure, least, true)?;
    let what = format!(in alloc; "{row}: the rounds' middle part")?;
    let figure = (middle(alloc, ours, other)?, "of its rate");
    print_figure(rt, what.as_str(), ours.works, figure, least, true)?;
    let what = format!(in alloc; "{row}: 99 of 100 in {} ns", ours.tail)?;
    let figure = (part(ours.tail, other.tail), "times as long");
    let most = Bound::AtMost(kind.most_of_tail());
    print_figure(rt, what.as_str(), ours.works, figure, most, true)
}

/// Prints how much the clients did, or if it is timed how fast, and what part of the mean the
/// slowest did.
pub fn print_alone(
    rt: &(impl Print + AllocGlobal),
    kind: Kind,
    ours: &Figures,
    clients: u32,
    timed: bool,
) -> io::Result<()> {
    let rate = ours.rates.iter().copied().max().unwrap_or(0);
    let name = kind.name();
    if !timed {
        let works = ours.works;
        return println!(rt; "{name}: {works}");
    }
    let what = format!(in rt.alloc(); "{name}: {rate} a second at best; the slowest client")?;
    let fewest = ours.fewest.saturating_mul(u64::from(clients));
    let figure = (part(fewest, ours.works), "of the mean");
    let least = Bound::AtLeast(LEAST_OF_MEAN);
    print_figure(rt, what.as_str(), ours.works, figure, least, true)
}
