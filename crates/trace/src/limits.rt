/// The most digits of a number in a trace.
pub const MAX_DIGITS: usize = 7;
