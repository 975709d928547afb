//! Orders of the paths of traces that move directories.
use super::lines::{HEADER, trace_of};
use cs_apm::tables::Tables;
use cs_micro::break_up;
use cs_paths::{PathOrder, PathOrders};
use std::alloc::Global;
use std::process::Abort;

const DIR_D: &str = r#"{"start":"dir","path":"/d","owner":"ann","group":"staff","mode":"755"}"#;

const DIR_DE: &str = r#"{"start":"dir","path":"/d/e","owner":"ann","group":"staff","mode":"750"}"#;

const FILE_DEX: &str =
    r#"{"start":"file","path":"/d/e/x","owner":"bob","group":"bob","mode":"644","text":"old"}"#;

const FILE_F: &str =
    r#"{"start":"file","path":"/f","owner":"cat","group":"staff","mode":"644","text":"o"}"#;

fn orders_of(rt: &impl Abort, alloc: Global, lines: &[&str]) -> PathOrders {
    let trace = trace_of(rt, alloc, lines);
    let micros = break_up(alloc, &trace).expect(rt, "micro-operations");
    let tables = Tables::of(alloc, &trace, &micros).expect(rt, "memory");
    PathOrders::of(alloc, &trace, &micros, &tables).expect(rt, "memory")
}

/// The order has these places, ids and positions.
fn is_order(order: &PathOrder, places: &[u32], ids: &[u32], positions: &[u32]) -> bool {
    order.places.as_slice() == places
        && order.ids.as_slice() == ids
        && order.positions.as_slice() == positions
}

/// Directory 2 is `/d/e`, then `/a`, then `/d/z`. The entries are `a`, `d` and `f` of the root, `e`
/// and `z` of directory 1, and `x` of directory 2.
#[test]
fn a_directory_moves_up_and_down(rt: HostRuntime) {
    let up = r#"{"op":"rename","from":"/d/e","to":"/a"}"#;
    let down = r#"{"op":"rename","from":"/a","to":"/d/z"}"#;
    let found = orders_of(
        &rt,
        rt.alloc(),
        &[HEADER, DIR_D, DIR_DE, FILE_DEX, FILE_F, up, down],
    );
    assert!(&rt; found.moves.as_slice() == [0, 1].as_slice());
    assert!(&rt; found.orders.len() == 3);
    // /a /d /d/e /d/e/x /d/z /f
    let first = is_order(
        &found.orders[0],
        &[0, 1, 3, 5, 4, 2],
        &[1, 2, 6, 3, 5, 4],
        &[0, 1, 3],
    );
    assert!(&rt; first);
    // /a /a/x /d /d/e /d/z /f
    let second = is_order(
        &found.orders[1],
        &[0, 5, 1, 3, 4, 2],
        &[1, 3, 6, 4, 5, 2],
        &[0, 1, 0],
    );
    assert!(&rt; second);
    // /a /d /d/e /d/z /d/z/x /f
    let third = is_order(
        &found.orders[2],
        &[0, 1, 3, 4, 5, 2],
        &[1, 2, 6, 3, 4, 5],
        &[0, 1, 4],
    );
    assert!(&rt; third);
}

/// Directory 2 is removed from `/d/e`, and directory 3 is made as `/m` and moves there. Then their
/// entries `x` have one path, and are in the order of directories. The entries are `d` and `m` of
/// the root, `e` of directory 1, `x` of directory 2 and `x` of directory 3.
#[test]
fn two_entries_have_one_path(rt: HostRuntime) {
    let unlink = r#"{"op":"unlink","path":"/d/e/x"}"#;
    let rmdir = r#"{"op":"rmdir","path":"/d/e"}"#;
    let mkdir = r#"{"op":"mkdir","path":"/m","owner":"eve","group":"eve","mode":"700"}"#;
    let creat = r#"{"op":"creat","path":"/m/x","owner":"eve","group":"eve","mode":"600"}"#;
    let rename = r#"{"op":"rename","from":"/m","to":"/d/e"}"#;
    let lines = [
        HEADER, DIR_D, DIR_DE, FILE_DEX, unlink, rmdir, mkdir, creat, rename,
    ];
    let found = orders_of(&rt, rt.alloc(), &lines);
    assert!(&rt; found.moves.as_slice() == [4].as_slice());
    assert!(&rt; found.orders.len() == 2);
    // /d /d/e /d/e/x /m /m/x
    let first = is_order(
        &found.orders[0],
        &[0, 2, 3, 1, 4],
        &[1, 4, 2, 3, 5],
        &[0, 0, 2, 1],
    );
    assert!(&rt; first);
    // /d /d/e /d/e/x /d/e/x /m
    let second = is_order(
        &found.orders[1],
        &[0, 2, 3, 4, 1],
        &[1, 5, 2, 3, 4],
        &[0, 0, 2, 2],
    );
    assert!(&rt; second);
}
