//! Calls on the start tree, and what each changes.

use super::calls::{Call, Fields, NONE};
use cs_tree_model::{DMAPPEND, DMDIR};

/// A call at a moment and by a user, and the lines of the files that it changes, by their numbers.
pub struct Step {
    pub now: u32,
    pub user: &'static str,
    pub call: Call,
    pub changed: &'static [&'static str],
}

pub const FILES: [Step; 9] = [
    Step {
        now: 10,
        user: "bob",
        call: Call::Add(1, "g", 0o644),
        changed: &[
            "1 /d 1 ann staff d755 0 10 bob",
            "7 /d/g 0 bob staff -644 10 10 bob 0:",
        ],
    },
    Step {
        now: 11,
        user: "cat",
        call: Call::Add(2, "t", DMDIR | 0o700),
        changed: &[
            "2 /d/s 1 ann ann d700 0 11 cat",
            "8 /d/s/t 0 cat ann d700 11 11 cat",
        ],
    },
    Step {
        now: 12,
        user: "zed",
        call: Call::Add(8, "u", DMAPPEND | 0o600),
        changed: &[
            "8 /d/s/t 1 cat ann d700 11 12 zed",
            "9 /d/s/t/u 0 zed ann a600 12 12 zed 0:",
        ],
    },
    Step {
        now: 13,
        user: "ann",
        call: Call::Remove(7),
        changed: &["1 /d 2 ann staff d755 0 13 ann", "7 gone"],
    },
    Step {
        now: 14,
        user: "bob",
        call: Call::Add(1, "g", 0o600),
        changed: &[
            "1 /d 3 ann staff d755 0 14 bob",
            "10 /d/g 0 bob staff -600 14 14 bob 0:",
        ],
    },
    Step {
        now: 15,
        user: "ann",
        call: Call::Remove(10),
        changed: &["1 /d 4 ann staff d755 0 15 ann", "10 gone"],
    },
    Step {
        now: 16,
        user: "cat",
        call: Call::Add(0, "g", 0o664),
        changed: &[
            "0 / 1 cat staff d775 0 16 cat",
            "11 /g 0 cat staff -664 16 16 cat 0:",
        ],
    },
    Step {
        now: 17,
        user: "zed",
        call: Call::Remove(9),
        changed: &["8 /d/s/t 2 cat ann d700 11 17 zed", "9 gone"],
    },
    Step {
        now: 18,
        user: "bob",
        call: Call::Remove(8),
        changed: &["2 /d/s 2 ann ann d700 0 18 bob", "8 gone"],
    },
];

pub const WRITES: [Step; 6] = [
    Step {
        now: 10,
        user: "bob",
        call: Call::Write(4, 1, b"a"),
        changed: &["4 /f 1 ann staff -664 0 10 bob 5:hallo"],
    },
    Step {
        now: 11,
        user: "ann",
        call: Call::Write(4, 4, b"oween"),
        changed: &["4 /f 2 ann staff -664 0 11 ann 9:halloween"],
    },
    Step {
        now: 12,
        user: "cat",
        call: Call::Write(4, 9, b"!"),
        changed: &["4 /f 3 ann staff -664 0 12 cat 10:halloween!"],
    },
    Step {
        now: 9,
        user: "zed",
        call: Call::Write(5, 3, b"ab"),
        changed: &["5 /n 1 none none -600 0 9 zed 5:...ab"],
    },
    Step {
        now: 13,
        user: "bob",
        call: Call::Write(4, 12, b"x"),
        changed: &["4 /f 4 ann staff -664 0 13 bob 13:halloween!..x"],
    },
    Step {
        now: 14,
        user: "cat",
        call: Call::Write(3, 0, b"z"),
        changed: &["3 /d/s/z 1 ann ann -644 0 14 cat 1:z"],
    },
];

pub const LENGTHS: [Step; 2] = [
    Step {
        now: 10,
        user: "bob",
        call: Call::Change(
            4,
            Fields {
                length: Some(1),
                ..NONE
            },
        ),
        changed: &["4 /f 1 ann staff -664 0 10 bob 1:h"],
    },
    Step {
        now: 11,
        user: "cat",
        call: Call::Change(
            4,
            Fields {
                length: Some(5000),
                ..NONE
            },
        ),
        changed: &["4 /f 2 ann staff -664 0 11 cat 5000:h..............."],
    },
];

/// All fields at once.
const ALL: Fields = Fields {
    name: Some("r"),
    length: Some(3),
    mode: Some(0o644),
    group: Some("staff"),
    mtime: Some(99),
};

pub const FIELDS: [Step; 9] = [
    Step {
        now: 10,
        user: "bob",
        call: Call::Change(
            4,
            Fields {
                mtime: Some(77),
                ..NONE
            },
        ),
        changed: &["4 /f 1 ann staff -664 0 77 ann 5:hello"],
    },
    Step {
        now: 11,
        user: "cat",
        call: Call::Change(
            4,
            Fields {
                length: Some(2),
                mtime: Some(88),
                ..NONE
            },
        ),
        changed: &["4 /f 2 ann staff -664 0 88 cat 2:he"],
    },
    Step {
        now: 12,
        user: "zed",
        call: Call::Change(
            4,
            Fields {
                mode: Some(DMAPPEND | 0o600),
                ..NONE
            },
        ),
        changed: &["4 /f 3 ann staff a600 0 88 cat 2:he"],
    },
    Step {
        now: 13,
        user: "bob",
        call: Call::Change(
            4,
            Fields {
                group: Some("zed"),
                ..NONE
            },
        ),
        changed: &["4 /f 4 ann zed a600 0 88 cat 2:he"],
    },
    Step {
        now: 14,
        user: "bob",
        call: Call::Change(
            4,
            Fields {
                length: Some(2),
                ..NONE
            },
        ),
        changed: &["4 /f 5 ann zed a600 0 14 bob 2:he"],
    },
    Step {
        now: 15,
        user: "ann",
        call: Call::Change(
            4,
            Fields {
                name: Some("q"),
                ..NONE
            },
        ),
        changed: &[
            "0 / 1 cat staff d775 0 15 ann",
            "4 /q 6 ann zed a600 0 14 bob 2:he",
        ],
    },
    Step {
        now: 16,
        user: "zed",
        call: Call::Change(4, ALL),
        changed: &[
            "0 / 2 cat staff d775 0 16 zed",
            "4 /r 7 ann staff -644 0 99 zed 3:he.",
        ],
    },
    Step {
        now: 17,
        user: "cat",
        call: Call::Change(
            1,
            Fields {
                mode: Some(DMDIR | 0o700),
                mtime: Some(5),
                ..NONE
            },
        ),
        changed: &["1 /d 1 ann staff d700 0 5 ann"],
    },
    Step {
        now: 18,
        user: "bob",
        call: Call::Change(
            0,
            Fields {
                group: Some("bob"),
                ..NONE
            },
        ),
        changed: &["0 / 3 cat bob d775 0 16 zed"],
    },
];

pub const RENAMES: [Step; 4] = [
    Step {
        now: 10,
        user: "bob",
        call: Call::Add(1, "g", 0o644),
        changed: &[
            "1 /d 1 ann staff d755 0 10 bob",
            "7 /d/g 0 bob staff -644 10 10 bob 0:",
        ],
    },
    Step {
        now: 11,
        user: "cat",
        call: Call::Change(
            1,
            Fields {
                name: Some("e"),
                ..NONE
            },
        ),
        changed: &[
            "0 / 1 cat staff d775 0 11 cat",
            "1 /e 2 ann staff d755 0 10 bob",
            "2 /e/s 0 ann ann d700 0 0 ann",
            "3 /e/s/z 0 ann ann -644 0 0 ann 0:",
            "7 /e/g 0 bob staff -644 10 10 bob 0:",
        ],
    },
    Step {
        now: 12,
        user: "ann",
        call: Call::Add(0, "d", DMDIR | 0o755),
        changed: &[
            "0 / 2 cat staff d775 0 12 ann",
            "8 /d 0 ann staff d755 12 12 ann",
        ],
    },
    Step {
        now: 13,
        user: "bob",
        call: Call::Change(
            2,
            Fields {
                name: Some("z"),
                ..NONE
            },
        ),
        changed: &[
            "1 /e 3 ann staff d755 0 13 bob",
            "2 /e/z 1 ann ann d700 0 0 ann",
            "3 /e/z/z 0 ann ann -644 0 0 ann 0:",
        ],
    },
];
