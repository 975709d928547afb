//! Each type of message: its name, its number, and its fields in the manual's order by what they
//! hold. A field of `u8` to `u64` is a number, `names` and `qids` are those of a walk, `data` is
//! bytes after their count, and `text`, `qid` and `stat` are one each. A macro that gets the table
//! writes one match arm for each row.

/// The messages that clients send.
macro_rules! each_request {
    ($rows:ident $args:tt) => {
        $rows! { $args
            Version "Tversion" 100 { msize: u32, version: text }
            Auth "Tauth" 102 { afid: u32, uname: text, aname: text }
            Attach "Tattach" 104 { fid: u32, afid: u32, uname: text, aname: text }
            Flush "Tflush" 108 { oldtag: u16 }
            Walk "Twalk" 110 { fid: u32, newfid: u32, wname: names }
            Open "Topen" 112 { fid: u32, mode: u8 }
            Create "Tcreate" 114 { fid: u32, name: text, perm: u32, mode: u8 }
            Read "Tread" 116 { fid: u32, offset: u64, count: u32 }
            Write "Twrite" 118 { fid: u32, offset: u64, data: data }
            Clunk "Tclunk" 120 { fid: u32 }
            Remove "Tremove" 122 { fid: u32 }
            Stat "Tstat" 124 { fid: u32 }
            Wstat "Twstat" 126 { fid: u32, stat: stat }
        }
    };
}

/// The messages that the server sends.
macro_rules! each_reply {
    ($rows:ident $args:tt) => {
        $rows! { $args
            Version "Rversion" 101 { msize: u32, version: text }
            Auth "Rauth" 103 { aqid: qid }
            Attach "Rattach" 105 { qid: qid }
            Error "Rerror" 107 { ename: text }
            Flush "Rflush" 109 {}
            Walk "Rwalk" 111 { wqid: qids }
            Open "Ropen" 113 { qid: qid, iounit: u32 }
            Create "Rcreate" 115 { qid: qid, iounit: u32 }
            Read "Rread" 117 { data: data }
            Write "Rwrite" 119 { count: u32 }
            Clunk "Rclunk" 121 {}
            Remove "Rremove" 123 {}
            Stat "Rstat" 125 { stat: stat }
            Wstat "Rwstat" 127 {}
        }
    };
}

pub(crate) use each_reply;
pub(crate) use each_request;
