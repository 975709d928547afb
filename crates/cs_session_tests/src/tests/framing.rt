//! Streams of messages, cut into pieces of any size.

use cs_wire::{FrameFault, Framer};
use std::process::Abort;

/// A client's first messages, from outside: version, attach, walk to `f`, open, read, stat, clunk.
const MESSAGES: [&[u8]; 7] = [
    b"\x13\0\0\0d\xff\xff\0 \0\0\x06\09P2000",
    b"\x19\0\0\0h\x01\0\0\0\0\0\xff\xff\xff\xff\x03\0ann\x03\00/x",
    b"\x14\0\0\0n\x01\0\0\0\0\0\x01\0\0\0\x01\0\x01\0f",
    b"\x0c\0\0\0p\x01\0\x01\0\0\0\0",
    b"\x17\0\0\0t\x01\0\x01\0\0\0\0\0\0\0\0\0\0\0@\0\0\0",
    b"\x0b\0\0\0|\x01\0\x01\0\0\0",
    b"\x0b\0\0\0x\x01\0\x01\0\0\0",
];

/// The same messages, one after the other.
const EXCHANGE: &[u8] =
    b"\x13\0\0\0d\xff\xff\0 \0\0\x06\09P2000\x19\0\0\0h\x01\0\0\0\0\0\xff\xff\xff\xff\x03\0ann\x03\00/x\x14\0\0\0n\x01\0\0\0\0\0\x01\0\0\0\x01\0\x01\0f\x0c\0\0\0p\x01\0\x01\0\0\0\0\x17\0\0\0t\x01\0\x01\0\0\0\0\0\0\0\0\0\0\0@\0\0\0\x0b\0\0\0|\x01\0\x01\0\0\0\x0b\0\0\0x\x01\0\x01\0\0\0";

/// Takes the whole messages, which are those of the exchange from the first that isn't taken yet.
fn take_all(rt: &impl Abort, framer: &mut Framer, taken: &mut usize) {
    for _ in 0..=MESSAGES.len() {
        let Some(message) = framer.next().expect(rt, "memory") else {
            return;
        };
        assert!(rt; message == *MESSAGES.get(*taken).expect(rt, "a value"));
        *taken = taken.wrapping_add(1);
    }
    panic!(rt; "more messages than there are");
}

/// Feeds a piece, and takes what is whole.
fn expect_piece(rt: &impl Abort, framer: &mut Framer, piece: &[u8], taken: &mut usize) {
    framer.feed(piece).expect(rt, "memory");
    take_all(rt, framer, taken);
}

/// Checks that all messages were taken, and no byte is left.
fn expect_end(rt: &impl Abort, framer: &Framer, taken: usize) {
    assert!(rt; taken == MESSAGES.len());
    assert!(rt; framer.end().is_ok());
}

/// The first exchange, fed in pieces of one byte: the same seven messages, and nothing is left.
#[test]
fn pieces_of_one_byte_give_the_same_messages(rt: HostRuntime) {
    assert!(rt; EXCHANGE.len() == 121);
    let mut framer = Framer::new(rt.alloc());
    let mut taken = 0;
    for piece in EXCHANGE.chunks(1) {
        expect_piece(&rt, &mut framer, piece, &mut taken);
    }
    expect_end(&rt, &framer, taken);
}

fn expect_cut(rt: &(impl Abort + AllocGlobal), front: &[u8], back: &[u8]) {
    let mut framer = Framer::new(rt.alloc());
    let mut taken = 0;
    expect_piece(rt, &mut framer, front, &mut taken);
    expect_piece(rt, &mut framer, back, &mut taken);
    expect_end(rt, &framer, taken);
}

/// Cut in two at each place: the same.
#[test]
fn a_stream_cut_in_two_gives_the_same_messages(rt: HostRuntime) {
    for place in 0..=EXCHANGE.len() {
        let (front, back) = EXCHANGE.split_at(place);
        expect_cut(&rt, front, back);
    }
}

/// Checks that this message is the next one.
fn expect_next(rt: &impl Abort, framer: &mut Framer, wanted: &[u8]) {
    let message = framer.next().expect(rt, "no fault");
    assert!(rt; message.expect(rt, "a message") == wanted);
}

/// Checks that no message is next, since bytes are missing.
fn expect_none(rt: &impl Abort, framer: &mut Framer) {
    assert!(rt; framer.next().expect(rt, "no fault").is_none());
}

/// A Tversion and three bytes more: one message, then None; the three stay buffered, and an end
/// there is Cut.
#[test]
fn three_bytes_more_stay_buffered(rt: HostRuntime) {
    let mut framer = Framer::new(rt.alloc());
    framer.feed(MESSAGES[0]).expect(&rt, "memory");
    framer.feed(b"\x19\0\0").expect(&rt, "memory");
    expect_next(&rt, &mut framer, MESSAGES[0]);
    expect_none(&rt, &mut framer);
    let (bytes, place) = framer.buffered();
    assert!(rt; bytes.len() == 22);
    assert!(rt; place == 19);
    assert!(rt; framer.end() == Err(FrameFault::Cut));
}

/// Feeds a size, and a message after it: both times the fault is reported, and nothing is taken.
fn expect_fault(rt: &(impl Abort + AllocGlobal), size: &[u8], fault: FrameFault) {
    let mut framer = Framer::new(rt.alloc());
    framer.feed(size).expect(rt, "memory");
    assert!(rt; framer.next() == Err(fault));
    framer.feed(MESSAGES[0]).expect(rt, "memory");
    assert!(rt; framer.next() == Err(fault));
    assert!(rt; framer.buffered().1 == 0);
}

/// A size of 6 is Undersize and one of 65,537 Oversize, and again after more bytes.
#[test]
fn a_size_that_no_message_has_is_reported_again(rt: HostRuntime) {
    expect_fault(&rt, b"\x06\0\0\0", FrameFault::Undersize);
    expect_fault(&rt, b"\x01\0\x01\0", FrameFault::Oversize);
}

/// A message of 65,536 bytes comes when its last byte does.
#[test]
fn a_message_of_65536_bytes_is_whole(rt: HostRuntime) {
    let bytes = vec![in rt.alloc(); 0; 65_531].expect(&rt, "memory");
    let mut framer = Framer::new(rt.alloc());
    framer.feed(b"\0\0\x01\0").expect(&rt, "memory");
    framer.feed(&bytes).expect(&rt, "memory");
    expect_none(&rt, &mut framer);
    framer.feed(b"x").expect(&rt, "memory");
    let message = framer.next().expect(&rt, "no fault");
    assert!(rt; message.expect(&rt, "it is whole").len() == 65_536);
}

/// What is written into the room is taken; with room nothing moves, without it the place is 0
/// again.
#[test]
fn what_is_written_to_the_room_comes_as_if_it_was_fed(rt: HostRuntime) {
    let mut framer = Framer::new(rt.alloc());
    framer.reserve(64).expect(&rt, "memory");
    let (front, _) = framer.room().split_at_mut(19);
    front.copy_from_slice(MESSAGES[0]);
    framer.advance(19);
    expect_next(&rt, &mut framer, MESSAGES[0]);
    framer.reserve(45).expect(&rt, "memory");
    assert!(rt; framer.buffered().1 == 19);
    framer.reserve(46).expect(&rt, "memory");
    assert!(rt; framer.buffered().1 == 0);
}
