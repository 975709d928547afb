//! Messages for people, as one line: the type, the tag, and the fields with their names, in the
//! order of `table`. Each `print_` function prints the fields of one type, or one kind of field.
//! The only error is the writer's.

use crate::message::{Qid, RBody, RMessage, Stat, TBody, TMessage};
use crate::table::{each_reply, each_request};
use std::fmt;

/// The qids of a walk, which `Display` prints in brackets.
#[derive(Clone, Copy)]
struct Qids<'a>(&'a [Qid]);

impl fmt::Display for Qids<'_> {
    /// Prints the qids, separated by commas, in brackets.
    fn fmt<W: fmt::Write>(&self, f: &mut fmt::Formatter<W>) -> fmt::Result {
        write!(f, "[")?;
        for (place, qid) in self.0.iter().enumerate() {
            if place > 0 {
                write!(f, ", ")?;
            }
            write!(f, "{qid}")?;
        }
        write!(f, "]")
    }
}

impl fmt::Display for Qid {
    /// Prints the kind in hexadecimal, the version and the path, in parentheses.
    fn fmt<W: fmt::Write>(&self, f: &mut fmt::Formatter<W>) -> fmt::Result {
        let Qid { kind, vers, path } = *self;
        write!(f, "({kind:02x} {vers} {path})")
    }
}

/// Prints the first fields of a stat: kind, device, qid, and mode in octal.
fn print_file_of_stat<W: fmt::Write>(
    f: &mut fmt::Formatter<W>,
    kind: u16,
    dev: u32,
    qid: Qid,
    mode: u32,
) -> fmt::Result {
    write!(f, "type {kind} dev {dev} qid {qid} mode {mode:o}")
}

/// Prints the next fields of a stat: atime, mtime and length.
fn print_times_of_stat<W: fmt::Write>(
    f: &mut fmt::Formatter<W>,
    atime: u32,
    mtime: u32,
    length: u64,
) -> fmt::Result {
    write!(f, " atime {atime} mtime {mtime} length {length}")
}

/// Prints a field that is a text: its name, and the text in quotation marks, with escapes as `{:?}`
/// writes them.
fn print_text<W: fmt::Write>(f: &mut fmt::Formatter<W>, name: &str, text: &str) -> fmt::Result {
    write!(f, " {name} {text:?}")
}

impl fmt::Display for Stat {
    /// Prints the fields of the stat, each after its name.
    fn fmt<W: fmt::Write>(&self, f: &mut fmt::Formatter<W>) -> fmt::Result {
        print_file_of_stat(f, self.kind, self.dev, self.qid, self.mode)?;
        print_times_of_stat(f, self.atime, self.mtime, self.length)?;
        print_text(f, "name", self.name.as_str())?;
        print_text(f, "uid", self.uid.as_str())?;
        print_text(f, "gid", self.gid.as_str())?;
        print_text(f, "muid", self.muid.as_str())
    }
}

/// Prints the start of each line: the name of the message's type, and the tag.
fn print_title_and_tag<W: fmt::Write>(
    f: &mut fmt::Formatter<W>,
    title: &str,
    tag: u16,
) -> fmt::Result {
    write!(f, "{title} tag {tag}")
}

/// Prints a field that is a number: its name, and the number in decimal.
fn print_number<W: fmt::Write>(f: &mut fmt::Formatter<W>, name: &str, number: u32) -> fmt::Result {
    write!(f, " {name} {number}")
}

/// Prints a field of data: only the number of its bytes, as `count`.
fn print_count<W: fmt::Write>(f: &mut fmt::Formatter<W>, bytes: &[u8]) -> fmt::Result {
    write!(f, " count {}", bytes.len())
}

/// Prints a field that is a qid: its name, and the qid in parentheses.
fn print_qid<W: fmt::Write>(f: &mut fmt::Formatter<W>, name: &str, qid: Qid) -> fmt::Result {
    write!(f, " {name} {qid}")
}

/// Prints the fields of a Tversion or an Rversion: msize and version.
fn print_version<W: fmt::Write>(
    f: &mut fmt::Formatter<W>,
    msize: u32,
    version: &str,
) -> fmt::Result {
    write!(f, " msize {msize} version {version:?}")
}

/// Prints the fields of a Tauth: afid, uname and aname. They are also the last three of a Tattach.
fn print_tauth<W: fmt::Write>(
    f: &mut fmt::Formatter<W>,
    afid: u32,
    uname: &str,
    aname: &str,
) -> fmt::Result {
    write!(f, " afid {afid} uname {uname:?} aname {aname:?}")
}

/// Prints the fields of a Twalk: two fids, and the names in quotation marks and brackets.
fn print_twalk<W: fmt::Write>(
    f: &mut fmt::Formatter<W>,
    fid: u32,
    newfid: u32,
    wname: &[String],
) -> fmt::Result {
    write!(f, " fid {fid} newfid {newfid} wname {wname:?}")
}

/// Prints the fields of a Topen: the fid, and the mode in hexadecimal.
fn print_topen<W: fmt::Write>(f: &mut fmt::Formatter<W>, fid: u32, mode: u8) -> fmt::Result {
    write!(f, " fid {fid} mode {mode:#04x}")
}

/// Prints the fields of a Tcreate: fid, name, permissions in octal, and mode in hexadecimal.
fn print_tcreate<W: fmt::Write>(
    f: &mut fmt::Formatter<W>,
    fid: u32,
    name: &str,
    perm: u32,
    mode: u8,
) -> fmt::Result {
    write!(f, " fid {fid} name {name:?} perm {perm:o} mode {mode:#04x}")
}

/// Prints the first two fields of a Tread or a Twrite: fid and offset.
fn print_fid_and_offset<W: fmt::Write>(
    f: &mut fmt::Formatter<W>,
    fid: u32,
    offset: u64,
) -> fmt::Result {
    write!(f, " fid {fid} offset {offset}")
}

/// Prints the fields of a Tread: fid, offset and count.
fn print_tread<W: fmt::Write>(
    f: &mut fmt::Formatter<W>,
    fid: u32,
    offset: u64,
    count: u32,
) -> fmt::Result {
    print_fid_and_offset(f, fid, offset)?;
    print_number(f, "count", count)
}

/// Prints the fields of a Twrite: fid, offset, and the number of bytes in place of the data.
fn print_twrite<W: fmt::Write>(
    f: &mut fmt::Formatter<W>,
    fid: u32,
    offset: u64,
    data: &[u8],
) -> fmt::Result {
    print_fid_and_offset(f, fid, offset)?;
    print_count(f, data)
}

/// Prints the fields of a Twstat: the fid, and the stat as `Display` prints it.
fn print_twstat<W: fmt::Write>(f: &mut fmt::Formatter<W>, fid: u32, stat: &Stat) -> fmt::Result {
    write!(f, " fid {fid} {stat}")
}

/// Prints the fields of an Ropen or an Rcreate: qid and iounit.
fn print_ropen<W: fmt::Write>(f: &mut fmt::Formatter<W>, qid: Qid, iounit: u32) -> fmt::Result {
    write!(f, " qid {qid} iounit {iounit}")
}

/// Prints the field of an Rwalk: its qids in brackets.
fn print_rwalk<W: fmt::Write>(f: &mut fmt::Formatter<W>, wqid: &[Qid]) -> fmt::Result {
    let wqid = Qids(wqid);
    write!(f, " wqid {wqid}")
}

/// The name of a body's type, from the table.
macro_rules! title_of_body {
    (($body:ident $bodies:ident)
    $($name:ident $title:literal $code:literal { $($field:ident: $holds:ident),* })*) => {
        match $body {
            $($bodies::$name { .. } => $title,)*
        }
    };
}

/// The name of the request's type, such as `Twalk`.
fn request_title(body: &TBody<'_>) -> &'static str {
    each_request!(title_of_body (body TBody))
}

/// The name of the reply's type, such as `Rwalk`.
fn reply_title(body: &RBody) -> &'static str {
    each_reply!(title_of_body (body RBody))
}

impl fmt::Display for TMessage<'_> {
    /// Prints the request as one line, without a newline.
    fn fmt<W: fmt::Write>(&self, f: &mut fmt::Formatter<W>) -> fmt::Result {
        print_title_and_tag(f, request_title(&self.body), self.tag)?;
        match &self.body {
            TBody::Version { msize, version } => print_version(f, *msize, version),
            TBody::Auth { afid, uname, aname } => print_tauth(f, *afid, uname, aname),
            TBody::Attach {
                fid,
                afid,
                uname,
                aname,
            } => {
                print_number(f, "fid", *fid)?;
                print_tauth(f, *afid, uname, aname)
            }
            TBody::Flush { oldtag } => print_number(f, "oldtag", u32::from(*oldtag)),
            TBody::Walk { fid, newfid, wname } => print_twalk(f, *fid, *newfid, wname),
            TBody::Open { fid, mode } => print_topen(f, *fid, *mode),
            TBody::Create {
                fid,
                name,
                perm,
                mode,
            } => print_tcreate(f, *fid, name, *perm, *mode),
            TBody::Read { fid, offset, count } => print_tread(f, *fid, *offset, *count),
            TBody::Write { fid, offset, data } => print_twrite(f, *fid, *offset, data),
            TBody::Clunk { fid } | TBody::Remove { fid } | TBody::Stat { fid } => print_number(
                f, "fid", *fid,
            ),
            TBody::Wstat { fid, stat } => print_twstat(f, *fid, stat),
        }
    }
}

impl fmt::Display for RMessage {
    /// Prints the reply as one line, without a newline.
    fn fmt<W: fmt::Write>(&self, f: &mut fmt::Formatter<W>) -> fmt::Result {
        print_title_and_tag(f, reply_title(&self.body), self.tag)?;
        match &self.body {
            RBody::Version { msize, version } => print_version(f, *msize, version.as_str()),
            RBody::Auth { aqid } => print_qid(f, "aqid", *aqid),
            RBody::Attach { qid } => print_qid(f, "qid", *qid),
            RBody::Error { ename } => print_text(f, "ename", ename.as_str()),
            RBody::Walk { wqid } => print_rwalk(f, wqid),
            RBody::Open { qid, iounit } | RBody::Create { qid, iounit } => print_ropen(
                f, *qid, *iounit,
            ),
            RBody::Read { data } => print_count(f, data),
            RBody::Write { count } => print_number(f, "count", *count),
            RBody::Stat { stat } => write!(f, " {stat}"),
            RBody::Flush | RBody::Clunk | RBody::Remove | RBody::Wstat => Ok(()),
        }
    }
}
