//! The errors of Linux that its client reports to programs, by the rules that the server's refusals
//! name.
ghost use Rattle.std.specs.Prelude.{◌≡◌, ◌≤◌, length};
ghost use Rattle.cs_linux.specs.Errors.{errno_of, text_of};

use cs_names::RuleId;

/// An error that Linux's client knows by a text (error(5)), and gives its program as a number: its
/// name in errno(3) is at each.
#[derive(Clone, Copy, Debug, PartialEq, Eq)]
pub enum Errno {
    /// EPERM.
    NotPermitted,
    /// ENOENT.
    NoEntry,
    /// EIO.
    InputOutput,
    /// ENOMEM.
    NoMemory,
    /// EACCES.
    NoAccess,
    /// EEXIST.
    Exists,
    /// ENOTDIR.
    NotADirectory,
    /// EISDIR.
    IsADirectory,
    /// EINVAL.
    Invalid,
    /// ETXTBSY.
    Busy,
    /// EFBIG.
    TooLarge,
    /// ENOSPC.
    NoSpace,
    /// ENOTEMPTY.
    NotEmpty,
}

impl Errno {
    /// The error that Linux's client gets for the refusal by this rule: the table is in
    /// docs/reference/9p-server.md. For rules of the session and of fids, and for a file that is
    /// gone, it is EIO.
    pub fn of(rule: RuleId) -> Errno
        ensures { result ≡ errno_of rule }
    {
        match rule {
            RuleId::K8 | RuleId::A4 => Errno::NoEntry,
            RuleId::K7
            | RuleId::O6
            | RuleId::O7
            | RuleId::O8
            | RuleId::O9
            | RuleId::C8
            | RuleId::M4
            | RuleId::Q6
            | RuleId::Q9 => Errno::NoAccess,
            RuleId::C9 | RuleId::Q7 => Errno::Exists,
            RuleId::M5 => Errno::NotEmpty,
            RuleId::K6 | RuleId::C7 => Errno::NotADirectory,
            RuleId::O5 => Errno::IsADirectory,
            RuleId::E4 | RuleId::Q10 => Errno::TooLarge,
            RuleId::C10 | RuleId::A5 | RuleId::L1 => Errno::NoSpace,
            RuleId::O10 => Errno::Busy,
            RuleId::A6
            | RuleId::M3
            | RuleId::Q3
            | RuleId::Q4
            | RuleId::Q12
            | RuleId::Q13
            | RuleId::Q14 => Errno::NotPermitted,
            RuleId::A3
            | RuleId::O3
            | RuleId::C3
            | RuleId::C4
            | RuleId::C5
            | RuleId::G4
            | RuleId::G5
            | RuleId::Q5
            | RuleId::Q8
            | RuleId::Q11 => Errno::Invalid,
            // A session or an attach that isn't in order.
            RuleId::S1
            | RuleId::S2
            | RuleId::S3
            | RuleId::S4
            | RuleId::S5
            | RuleId::A1
            | RuleId::A2 => Errno::InputOutput,
            // A fid that isn't there.
            RuleId::K1
            | RuleId::O1
            | RuleId::C1
            | RuleId::G1
            | RuleId::E1
            | RuleId::M1
            | RuleId::N1
            | RuleId::H1
            | RuleId::Q1 => Errno::InputOutput,
            // A fid that is open or isn't, and a new one that isn't free or has no room.
            RuleId::K2
            | RuleId::K3
            | RuleId::K4
            | RuleId::O2
            | RuleId::C2
            | RuleId::G2
            | RuleId::E2 => Errno::InputOutput,
            // A file that is gone.
            RuleId::K5
            | RuleId::O4
            | RuleId::C6
            | RuleId::G3
            | RuleId::E3
            | RuleId::M2
            | RuleId::H2
            | RuleId::Q2 => Errno::InputOutput,
        }
    }

    /// The text by which Linux's client knows the error, that of strerror(3) in English. The
    /// longest has 25 bytes, so it fits every reply.
    pub fn text(self) -> &'static str
        ensures value { result.now ≡ text_of self }
        ensures short { length result.now ≤ 25 }
    {
        match self {
            Errno::NotPermitted => "Operation not permitted",
            Errno::NoEntry => "No such file or directory",
            Errno::InputOutput => "Input/output error",
            Errno::NoMemory => "Cannot allocate memory",
            Errno::NoAccess => "Permission denied",
            Errno::Exists => "File exists",
            Errno::NotADirectory => "Not a directory",
            Errno::IsADirectory => "Is a directory",
            Errno::Invalid => "Invalid argument",
            Errno::Busy => "Text file busy",
            Errno::TooLarge => "File too large",
            Errno::NoSpace => "No space left on device",
            Errno::NotEmpty => "Directory not empty",
        }
    }
}
