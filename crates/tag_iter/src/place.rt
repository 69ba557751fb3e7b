/// Where a tag stands: the id of its module, 0 for the kernel, its section and its index there, and its number among all
/// tags. Kept is whether its module is unloaded and the range is kept.
#[derive(Clone, Copy, Debug, PartialEq, Eq)]
pub struct TagPlace {
    pub module: u32,
    pub section: u32,
    pub index: u32,
    pub number: u32,
    pub kept: bool,
}
