//! Names of files, users and runs, texts and their pieces, and the texts of rules.

use super::printing::prints;
use cs_names::named::{File, Named, Run, User};
use cs_names::{
    Bytes, Name, NameFault, NameOf, Pieces, RuleId, RunName, Text, Texts, UserName, as_text,
    is_text,
};
use std::alloc::{AllocError, Global};
use std::process::Abort;

fn fault_of<K: Named>(alloc: Global, bytes: &[u8]) -> Option<NameFault> {
    NameOf::<K>::read(alloc, bytes).err()
}

/// Whether the name has these bytes, and its copy is equal.
fn has_bytes<K: Named>(name: &NameOf<K>, bytes: &[u8]) -> bool {
    match name.try_clone() {
        Ok(copy) => copy == *name && copy.as_bytes() == bytes,
        Err(_) => false,
    }
}

fn is_kept<K: Named>(alloc: Global, bytes: &[u8]) -> bool {
    match NameOf::<K>::read(alloc, bytes) {
        Ok(name) => has_bytes(&name, bytes),
        Err(_) => false,
    }
}

/// The bytes are kept as a name, or have that fault.
fn assert_name<K: Named>(rt: &(impl Abort + AllocGlobal), bytes: &[u8], fault: Option<NameFault>) {
    assert_eq!(rt; fault_of::<K>(rt.alloc(), bytes), fault);
    assert_eq!(rt; is_kept::<K>(rt.alloc(), bytes), fault.is_none());
}

/// The same of a name of so many letters.
fn assert_letters<K: Named>(
    rt: &(impl Abort + AllocGlobal),
    count: usize,
    fault: Option<NameFault>,
) {
    let letters = vec![in rt.alloc(); b'x'; count].expect(rt, "memory");
    assert_name::<K>(rt, &letters, fault);
}

/// Bytes, and why they are no name, if they are none.
struct Spelled(&'static [u8], Option<NameFault>);

const NAMES: [Spelled; 9] = [
    Spelled(b"a", None),
    Spelled(b"...", None),
    Spelled(b"\xc3\xa9", None),
    Spelled(b"", Some(NameFault::Empty)),
    Spelled(b"\xff", Some(NameFault::NotText)),
    Spelled(b".", Some(NameFault::Forbidden)),
    Spelled(b"..", Some(NameFault::Forbidden)),
    Spelled(b"a/b", Some(NameFault::Forbidden)),
    Spelled(b"a\0", Some(NameFault::Forbidden)),
];

/// Names of 1 and 255 bytes, `...` and `é` are read; an empty one, 256 bytes, a byte that is no
/// UTF-8, `.`, `..`, a slash and a NUL each have their fault.
#[test]
fn reads_names_up_to_their_limit(rt: HostRuntime) {
    for name in &NAMES {
        assert_name::<File>(&rt, name.0, name.1);
    }
    assert_letters::<File>(&rt, 255, None);
    assert_letters::<File>(&rt, 256, Some(NameFault::Long));
}

/// Whether the text becomes a name, or comes back with that fault.
fn is_moved<K: Named>(text: String, wanted: &str, fault: Option<NameFault>) -> bool {
    match NameOf::<K>::from_text(text) {
        Ok(name) => fault.is_none() && name.as_str() == wanted,
        Err((found, given)) => fault == Some(found) && given.as_str() == wanted,
    }
}

fn assert_moved<K: Named>(rt: &(impl Abort + AllocGlobal), text: &str, fault: Option<NameFault>) {
    let given = String::from_str(rt.alloc(), text).expect(rt, "memory");
    assert!(rt; is_moved::<K>(given, text, fault), "{text}");
}

/// A text, and why it is no name, if it is none.
struct Moved(&'static str, Option<NameFault>);

const MOVED: [Moved; 3] = [
    Moved("a-0", None),
    Moved("a/b", Some(NameFault::Forbidden)),
    Moved("", Some(NameFault::Empty)),
];

/// `a-0` becomes a name; `a/b` is Forbidden and the empty text Empty, and each comes back. `a/b`
/// becomes a user name, and `A` no run name.
#[test]
fn moves_a_text_into_a_name_or_gives_it_back(rt: HostRuntime) {
    for moved in &MOVED {
        assert_moved::<File>(&rt, moved.0, moved.1);
    }
    assert_moved::<User>(&rt, "a/b", None);
    assert_moved::<Run>(&rt, "A", Some(NameFault::Forbidden));
}

/// Whether the bytes are a text, which then has exactly them.
fn is_lent(bytes: &[u8]) -> bool {
    match as_text(bytes) {
        Some(text) => is_text(bytes) && text.as_bytes() == bytes,
        None => is_text(bytes),
    }
}

/// The empty text and `é/` are text; one with a NUL and bytes that are no UTF-8 aren't.
#[test]
fn takes_text_without_a_nul(rt: HostRuntime) {
    assert!(rt; is_lent(b""));
    assert!(rt; is_lent(b"\xc3\xa9/"));
    assert!(rt; !is_lent(b"a\0"));
    assert!(rt; !is_lent(b"\xff"));
}

/// Whether the text, and its bytes, are kept as they are, and copies equal them.
fn are_kept(alloc: Global, text: &str) -> Result<bool, AllocError> {
    let kept = Text::copy_of(alloc, text)?;
    let bytes = Bytes::copy_of(alloc, text.as_bytes())?;
    Ok(
        kept.try_clone()? == kept
            && kept.as_str() == text
            && bytes.try_clone()? == bytes
            && bytes.as_slice() == text.as_bytes(),
    )
}

fn two_texts(alloc: Global, first: &str, second: &str) -> Result<Texts, AllocError> {
    let mut texts = Vec::new(alloc);
    texts.push(String::from_str(alloc, first)?)?;
    texts.push(String::from_str(alloc, second)?)?;
    Ok(Texts::new(texts))
}

/// Whether a copy of two texts equals them, and other texts of the same bytes don't.
fn are_copied(alloc: Global) -> Result<bool, AllocError> {
    let texts = two_texts(alloc, "a", "b")?;
    Ok(texts.try_clone(alloc)? == texts && texts != two_texts(alloc, "ab", "")?)
}

/// The empty text and `a`, a NUL, `b/é` are kept as they are, as bytes too, and their copies equal
/// them; `a` isn't `b`, and `a` and `b` aren't `ab` and the empty text.
#[test]
fn copies_equal_what_they_are_made_of(rt: HostRuntime) {
    assert!(rt; are_kept(rt.alloc(), "").expect(&rt, "memory"));
    assert!(rt; are_kept(rt.alloc(), "a\0b/\u{e9}").expect(&rt, "memory"));
    assert!(rt; are_copied(rt.alloc()).expect(&rt, "memory"));
    let text = Text::copy_of(rt.alloc(), "a").expect(&rt, "memory");
    assert!(rt; text != Text::copy_of(rt.alloc(), "b").expect(&rt, "memory"));
}

/// `ann`, the bytes `hello`, and two texts come back as they were put in.
#[test]
fn gives_back_what_was_put_in(rt: HostRuntime) {
    let text = String::from_str(rt.alloc(), "ann").expect(&rt, "memory");
    assert!(rt; Text::new(text).into_string().as_str() == "ann");
    let bytes = Vec::from_slice(rt.alloc(), b"hello").expect(&rt, "memory");
    assert!(rt; Bytes::new(bytes).into_vec().as_slice() == b"hello".as_slice());
    let texts = two_texts(rt.alloc(), "a", "b").expect(&rt, "memory");
    assert!(rt; texts.into_vec().len() == 2);
}

fn assert_before<K: Named>(rt: &(impl Abort + AllocGlobal), first: &[u8], second: &[u8]) {
    let first = NameOf::<K>::read(rt.alloc(), first).expect(rt, "a name");
    let second = NameOf::<K>::read(rt.alloc(), second).expect(rt, "a name");
    assert!(rt; first < second);
}

/// `Z` comes before `a`, and `a` before `ab`.
#[test]
fn orders_names_by_their_bytes(rt: HostRuntime) {
    assert_before::<File>(&rt, b"Z", b"a");
    assert_before::<File>(&rt, b"a", b"ab");
    assert_before::<User>(&rt, b"ann", b"bob");
}

/// Whether the name of a run is printed as it is.
fn is_printed(alloc: Global, text: &str) -> bool {
    match RunName::read(alloc, text.as_bytes()) {
        Ok(name) => prints(alloc, &name, text),
        Err(_) => false,
    }
}

/// A user name has at most 64 bytes and no NUL, but may be `a/b:.`. A run name has at most 32 small
/// letters, digits, `_` and `-`; all else is Forbidden.
#[test]
fn reads_the_names_of_users_and_runs(rt: HostRuntime) {
    assert_name::<User>(&rt, b"a/b:.", None);
    assert_name::<User>(&rt, b"a\0", Some(NameFault::Forbidden));
    assert_letters::<User>(&rt, 64, None);
    assert_letters::<User>(&rt, 65, Some(NameFault::Long));
    assert_name::<Run>(&rt, b"", Some(NameFault::Forbidden));
    assert_name::<Run>(&rt, b"A", Some(NameFault::Forbidden));
    assert_name::<Run>(&rt, b"a b", Some(NameFault::Forbidden));
    assert!(rt; is_printed(rt.alloc(), "a-0_z"));
    assert_letters::<Run>(&rt, 32, None);
    assert_letters::<Run>(&rt, 33, Some(NameFault::Forbidden));
}

/// How many bytes each piece has.
fn lengths(alloc: Global, bytes: &[u8]) -> Result<Vec<usize>, AllocError> {
    Pieces::of(bytes, b':')
        .map(|piece| piece.len())
        .collect(alloc)
}

fn assert_cut(rt: &(impl Abort + AllocGlobal), bytes: &[u8], wanted: &[usize]) {
    let lengths = lengths(rt.alloc(), bytes).expect(rt, "memory");
    assert_eq!(rt; lengths.as_slice(), wanted);
}

/// `:ab::` cut at `:` has four pieces; the empty text has one.
#[test]
fn cuts_a_text_at_each_separator(rt: HostRuntime) {
    assert_cut(&rt, b"", &[0]);
    assert_cut(&rt, b"a", &[1]);
    assert_cut(&rt, b":ab::", &[0, 2, 0, 0]);
}

/// `K7 no search right`, and three more texts of rules; a fault's text.
#[test]
fn gives_each_rule_its_text(rt: HostRuntime) {
    assert_eq!(rt; RuleId::K7.text(), "K7 no search right");
    assert_eq!(rt; RuleId::S1.text(), "S1 no session");
    assert_eq!(rt; RuleId::Q14.text(), "Q14 no right to the group");
    assert!(rt; prints(rt.alloc(), &RuleId::O10, "O10 exclusive file is open"));
    assert!(rt; prints(rt.alloc(), &NameFault::Long, "name too long"));
}
