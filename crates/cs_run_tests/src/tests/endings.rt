//! An open of the largest file with remove on close, whose removal runs out of memory: the open is
//! released, and the file stays.

use super::answers::push_answer;
use super::asks::call_of;
use super::side::Side;
use cs_fids::Place;
use cs_permit::Call;
use cs_run::Answer;
use cs_test_memory::Hoard;
use std::alloc::Global;
use std::process::Abort;

/// ann makes `/f` as large as a file can be, and opens it to be written, and removed on close.
const BEFORE: &str = "\
wstat 1 length=16777216 => changed
open 1 41 => open 1 of 1: 1.1
";

/// How that open ends: calls, the first of which runs out of memory, and the same if it doesn't.
struct Ending(&'static str, &'static str);

/// A clunk, a hang-up, and a remove.
const ENDINGS: [Ending; 3] = [
    Ending(
        "\
close 1 => short of memory
close 1 => closed
walk 0 f => at 1: 1.1
",
        "\
close 1 => closed
close 1 => closed
walk 0 f => K8 no such name
",
    ),
    Ending(
        "\
close 1 => short of memory
open 1 0 => open 3 of 1: 1.1
stat 1 => f 644 version 1 length 16777216 at 1000 of ann ann by ann
",
        "\
close 1 => closed
open 1 0 => O4 file is gone
stat 1 => H2 file is gone
",
    ),
    Ending(
        "\
remove_open 1 1 => short of memory
close 1 => closed
walk 0 f => at 1: 1.1
",
        "\
remove_open 1 1 => removed
close 1 => closed
walk 0 f => K8 no such name
",
    ),
];

/// ann's call.
fn call(rt: &impl Abort, alloc: Global, line: &str) -> Call<'static> {
    let (words, _) = line.split_once(" => ").expect(rt, "a value");
    call_of(rt, alloc, "ann", words, &Place::start())
}

/// Adds the call of a line with another answer.
fn push_line(rt: &impl Abort, text: &mut String, line: &str, answer: Answer) {
    let (words, _) = line.split_once(" => ").expect(rt, "a value");
    write!(text, "{words} => ").expect(rt, "memory");
    push_answer(rt, text, answer, &mut Place::start());
    text.push_str("\n").expect(rt, "memory")
}

fn push_lines(rt: &impl Abort, alloc: Global, side: &mut Side, text: &mut String, lines: &str) {
    for line in lines.lines() {
        let answer = side.step(alloc, call(rt, alloc, line));
        push_line(rt, text, line, answer);
    }
}

/// A run, and a pass of it that has the file open.
fn begin(rt: &impl Abort, alloc: Global) -> Side {
    let mut side = Side::new(rt, alloc);
    let mut text = String::new(alloc);
    push_lines(rt, alloc, &mut side, &mut text, BEFORE);
    assert!(rt; text.as_str() == BEFORE, "{text}");
    side
}

/// Makes a call with so many bytes of memory left.
fn step_with(
    rt: &impl Abort,
    alloc: Global,
    side: &mut Side,
    call: Call<'_>,
    bytes: usize,
) -> Answer {
    let mut hoard = Hoard::new(alloc).expect(rt, "memory");
    hoard.close(alloc, bytes).expect(rt, "memory");
    let answer = side.step(alloc, call);
    hoard.open(alloc);
    answer
}

/// The calls with their answers, with so many bytes left for the first.
fn answers(rt: &impl Abort, alloc: Global, lines: &str, bytes: usize) -> String {
    let mut side = begin(rt, alloc);
    let mut text = String::new(alloc);
    let (first, rest) = lines.split_once('\n').expect(rt, "a line");
    let ending = call(rt, alloc, first);
    let answer = step_with(rt, alloc, &mut side, ending, bytes);
    push_line(rt, &mut text, first, answer);
    push_lines(rt, alloc, &mut side, &mut text, rest);
    text
}

/// How often the removal runs out of memory, with no byte left and then 256 more each time.
fn refusals(rt: &(impl Abort + AllocGlobal), ending: &Ending) -> usize {
    for count in 0..100usize {
        let text = answers(rt, rt.alloc(), ending.0, count * 256);
        if text.as_str() == ending.1 {
            return count;
        }
        assert!(rt; text.as_str() == ending.0, "{text}");
    }
    assert!(rt; false, "it is always refused");
    0
}

/// After one wstat that makes `/f` 16,777,216 bytes long, ann has it open with 0x41, and the
/// removal by a clunk, a hang-up or a remove runs out of memory: the open is released, and `/f` is
/// there in version 1, until there is memory for the removal.
#[test]
fn refused_removal_of_the_largest_file_leaves_it(rt: HostRuntime) {
    for ending in &ENDINGS {
        assert!(rt; refusals(&rt, ending) > 0);
    }
}
