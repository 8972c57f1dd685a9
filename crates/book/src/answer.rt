// What a query answers besides its witness.

// The largest delay in microseconds, the route's length, and under FL and FF the predecessor: the instance of the
// first stage from whose start the delay is counted. The length is that of the witness, which is in the buffer lent.
#[derive(Clone, Copy, Debug, PartialEq, Eq)]
pub struct Answer {
    pub delay: u64,
    pub length: usize,
    pub predecessor: Option<u64>,
}
