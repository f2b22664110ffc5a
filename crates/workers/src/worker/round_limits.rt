/// What bounds a round: the workers' lines before the index `end` are played, and a write has at most `patience` tries.
#[derive(Clone, Copy)]
pub struct RoundLimits {
    pub end: usize,
    pub patience: u32,
}
