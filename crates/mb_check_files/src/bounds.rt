/// The block numbers that are open to files and to the free chain: from `low` on, below `high`. On a volume these are
/// `s_isize` and `s_fsize` of the super-block (V7 filsys(5)).
#[derive(Clone, Copy, Debug, PartialEq, Drop)]
pub struct Bounds {
    pub low: u32,
    pub high: u32,
}
