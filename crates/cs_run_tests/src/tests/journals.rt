//! The answers of a run, and how many entries its journal has after each.

use super::side::{Side, call_of, run, stat};
use cs_journal::{Entry, PassFault, Receipt};
use cs_run::Answer;
use std::alloc::Global;
use std::mem::size_of;
use std::process::Abort;

/// The answer in one word.
fn word(answer: &Answer) -> &'static str {
    match answer {
        Answer::Attached(_) => "attached",
        Answer::Walked(_) => "walked",
        Answer::Opened { .. } => "opened",
        Answer::Data(_) => "data",
        Answer::Written(_) => "written",
        Answer::Closed => "closed",
        Answer::Removed => "removed",
        Answer::Stat(_) => "stat",
        Answer::Changed => "changed",
        Answer::Denied(rule) => rule.text(),
        Answer::Short => "short",
    }
}

/// Makes a call, and adds it with an arrow, its answer, and the counts then.
fn push_line(rt: &impl Abort, alloc: Global, side: &mut Side, text: &mut String, asked: &str) {
    let call = call_of(rt, alloc, asked);
    let answer = side.step(alloc, call);
    write!(text, "{asked} => {}", word(&answer)).expect(rt, "memory");
    side.push_counts(rt, text);
    text.push_str("\n").expect(rt, "memory")
}

fn push_lines(rt: &impl Abort, alloc: Global, side: &mut Side, text: &mut String, lines: &str) {
    for line in lines.lines() {
        let (asked, _) = line.split_once(" => ").expect(rt, "a value");
        push_line(rt, alloc, side, text, asked);
    }
}

/// Makes calls, and compares after each the answer and the counts of entries, receipts and places
/// for closes.
fn expect(rt: &(impl Abort + AllocGlobal), side: &mut Side, lines: &str) {
    let mut text = String::new(rt.alloc());
    push_lines(rt, rt.alloc(), side, &mut text, lines);
    assert!(rt; text.as_str() == lines, "{text}");
}

/// Makes so many stats, which are granted.
fn expect_stats(rt: &(impl Abort + AllocGlobal), side: &mut Side, count: u32) {
    for _ in 0..count {
        let answer = side.step(rt.alloc(), stat());
        assert!(rt; matches!(answer, Answer::Stat(_)));
    }
}

/// An attach, a walk and an open make three entries and reserve one. 65,531 stats later an open is
/// L1 and a stat is granted; the next stat is L1, the close is answered, and a stat is L1.
#[test]
fn an_open_reserves_the_entry_of_its_close(rt: HostRuntime) {
    let mut side = Side::new(&rt, rt.alloc());
    expect(
        &rt,
        &mut side,
        "\
attach => attached 1 1 0
walk => walked 2 2 0
open 66 => opened 3 3 1
",
    );
    expect_stats(&rt, &mut side, 65_531);
    expect(
        &rt,
        &mut side,
        "\
open 0 => L1 journal full 65534 65534 1
stat => stat 65535 65535 1
stat => L1 journal full 65535 65535 1
close 2 => closed 65536 65536 0
stat => L1 journal full 65536 65536 0
",
    );
}

/// A write, a close of no open, an open, a remove of its fid and a stat of the file that is gone
/// (H2) are an entry each; two opens reserve two, and the remove and the close use them.
#[test]
fn every_call_makes_an_entry(rt: HostRuntime) {
    let mut side = Side::new(&rt, rt.alloc());
    expect(
        &rt,
        &mut side,
        "\
attach => attached 1 1 0
walk => walked 2 2 0
open 66 => opened 3 3 1
write 0 hi => written 4 4 1
close 7 => closed 5 5 1
open 1 => opened 6 6 2
remove 5 => removed 7 7 1
stat => H2 file is gone 8 8 1
close 2 => closed 9 9 0
",
    );
}

/// Makes these calls, a line each.
fn make_calls(rt: &impl Abort, alloc: Global, side: &mut Side, calls: &str) {
    for words in calls.lines() {
        let _answer = side.step(alloc, call_of(rt, alloc, words));
    }
}

/// A run on which these calls were made.
fn after(rt: &(impl Abort + AllocGlobal), calls: &str) -> Side {
    let mut side = Side::new(rt, rt.alloc());
    make_calls(rt, rt.alloc(), &mut side, calls);
    side
}

/// Whether a pass under which the second calls were made fits a run on which the first were.
fn fits(rt: &(impl Abort + AllocGlobal), made: &str, asked: &str) -> bool {
    after(rt, made).fits(&after(rt, asked))
}

const WRITES_HI: &str = "attach\nstat\nwrite 0 hi";

const WRITES_HO: &str = "attach\nstat\nwrite 0 ho";

const WRITES_BEHIND: &str = "attach\nstat\nwrite 1 hi";

const TURNED: &str = "attach\nwrite 0 hi\nstat";

const OPENS: &str = "attach\nstat\nopen 0";

/// A pass fits its run, and another on which the same calls were made, with other bytes written
/// too; none with fewer places for closes, with its last two calls the other way round, or with a
/// write at another offset.
#[test]
fn a_pass_fits_if_its_last_receipt_is_the_last_entry(rt: HostRuntime) {
    assert!(rt; !fits(&rt, WRITES_HI, TURNED));
    assert!(rt; !fits(&rt, OPENS, WRITES_HI));
    assert!(rt; !fits(&rt, WRITES_HI, WRITES_BEHIND));
    assert!(rt; fits(&rt, WRITES_HI, WRITES_HO));
    assert!(rt; fits(&rt, OPENS, OPENS));
}

/// The 65th pass of a run is Room.
#[test]
fn a_run_gives_64_passes(rt: HostRuntime) {
    let mut run = run(&rt, rt.alloc());
    for number in 0..64 {
        let pass = run.new_pass(rt.alloc()).expect(&rt, "a pass");
        assert!(rt; pass.number() == number);
    }
    assert!(rt; run.new_pass(rt.alloc()).err() == Some(PassFault::Room));
    assert!(rt; run.entries() == 0);
}

/// An entry has 32 bytes, and so has a receipt.
#[test]
fn an_entry_and_a_receipt_have_32_bytes(rt: HostRuntime) {
    assert!(rt; size_of::<Entry>() == 32);
    assert!(rt; size_of::<Receipt>() == 32);
}
