// How much is told of unsafe pairs.

/// What is written of unsafe pairs: whether each of them is, and how many groups are explained.
#[derive(Clone, Copy)]
pub struct Detail {
    pub pairs: bool,
    pub groups: u32,
}
