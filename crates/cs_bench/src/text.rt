//! The texts of traces.

use std::alloc::{AllocError, Global};

/// The first line: the root directory, which is Ann's.
const HEADER: &str = r#"{"trace":1,"owner":"ann","group":"ann","mode":"755"}"#;

/// What each line that makes a file or directory ends with.
const RIGHTS: &str = r#""owner":"ann","group":"ann","mode":"755"}"#;

/// Sixteen bytes of a file, in hexadecimal.
const SIXTEEN: &str = "61616161616161616161616161616161";

/// A trace that grows line by line. If memory runs out, its last line may be cut off.
#[derive(Drop)]
pub struct Text {
    text: String,
}

/// Bytes of a file, rounded down to sixteens.
fn push_bytes(text: &mut String, bytes: u64) -> Result<(), AllocError> {
    for _ in 0..bytes / 16 {
        text.push_str(SIXTEEN)?;
    }
    Ok(())
}

impl Text {
    /// A trace that has only the header.
    pub fn new(alloc: Global) -> Result<Text, AllocError> {
        let text = String::from_str(alloc, HEADER)?;
        Ok(Text { text })
    }

    pub fn as_str(&self) -> &str {
        self.text.as_str()
    }

    /// A directory that is there at the start.
    pub fn start_dir(&mut self, path: &str) -> Result<(), AllocError> {
        let text = &mut self.text;
        write!(text, "\n{{\"start\":\"dir\",\"path\":\"{path}\",{RIGHTS}")
    }

    /// A file that is there at the start, with as many bytes, rounded down to sixteens.
    pub fn start_file(&mut self, path: &str, bytes: u64) -> Result<(), AllocError> {
        let text = &mut self.text;
        write!(
            text,
            "\n{{\"start\":\"file\",\"path\":\"{path}\",\"bytes\":\""
        )?;
        push_bytes(text, bytes)?;
        text.push_str("\",")?;
        text.push_str(RIGHTS)
    }

    /// An operation that takes only a path, as fsync and unlink.
    pub fn operation(&mut self, op: &str, path: &str) -> Result<(), AllocError> {
        let text = &mut self.text;
        write!(text, "\n{{\"op\":\"{op}\",\"path\":\"{path}\"}}")
    }

    /// An operation that makes a file or directory: creat or mkdir.
    pub fn make(&mut self, op: &str, path: &str) -> Result<(), AllocError> {
        let text = &mut self.text;
        write!(text, "\n{{\"op\":\"{op}\",\"path\":\"{path}\",{RIGHTS}")
    }

    /// A write at the offset, of as many bytes, rounded down to sixteens.
    pub fn write(&mut self, path: &str, offset: u64, bytes: u64) -> Result<(), AllocError> {
        let text = &mut self.text;
        write!(
            text,
            "\n{{\"op\":\"write\",\"path\":\"{path}\",\"offset\":{offset},\"bytes\":\""
        )?;
        push_bytes(text, bytes)?;
        text.push_str("\"}")
    }

    pub fn truncate(&mut self, path: &str, length: u64) -> Result<(), AllocError> {
        let text = &mut self.text;
        write!(
            text,
            "\n{{\"op\":\"truncate\",\"path\":\"{path}\",\"length\":{length}}}"
        )
    }

    pub fn rename(&mut self, from: &str, to: &str) -> Result<(), AllocError> {
        let text = &mut self.text;
        write!(
            text,
            "\n{{\"op\":\"rename\",\"from\":\"{from}\",\"to\":\"{to}\"}}"
        )
    }

    /// Files of the root that are there at the start, each with as many bytes: so many numbers from
    /// the first on.
    pub fn start_files(
        &mut self,
        alloc: Global,
        first: u64,
        count: u64,
        bytes: u64,
    ) -> Result<(), AllocError> {
        for file in first..first.saturating_add(count) {
            self.start_file(format!(in alloc; "/file{file:05}")?.as_str(), bytes)?;
        }
        Ok(())
    }

    /// Files of the root that operations make: so many numbers from the first on.
    pub fn made_files(&mut self, alloc: Global, first: u64, count: u64) -> Result<(), AllocError> {
        for file in first..first.saturating_add(count) {
            self.make("creat", format!(in alloc; "/file{file:05}")?.as_str())?;
        }
        Ok(())
    }
}
