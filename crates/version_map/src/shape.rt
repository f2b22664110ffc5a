/// How many sectors a map has, and how many pages a word can name. The fewer pages, the more numbers.
#[derive(Clone, Copy, Debug, PartialEq, Eq)]
pub struct MapShape {
    pub sectors: u32,
    pub pages: u64,
}
