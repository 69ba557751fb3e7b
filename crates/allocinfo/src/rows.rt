/// What is printed of a tag: its bytes and calls, and where it stands in the sections.
#[derive(Clone, Copy, Debug, PartialEq, Eq)]
pub struct Row {
    pub bytes: u64,
    pub calls: u64,
    pub section: u32,
    pub index: u32,
    pub kept: bool,
}
