// What the public call answers.
#[derive(Clone, Copy, Debug, PartialEq, Eq)]
pub struct TextWritten {
    // the bytes written
    pub count: u64,
    // the fixed text was written, which stands for a damaged one
    pub damaged: bool,
}
