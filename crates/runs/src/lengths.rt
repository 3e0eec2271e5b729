// The lengths of what a run is lent: its requests, and the buffers for the replies, the weights, the begins and the recast
// sheet.
#[derive(Clone, Copy)]
pub(crate) struct Lengths {
    pub(crate) requests: usize,
    pub(crate) replies: usize,
    pub(crate) weights: usize,
    pub(crate) begins: usize,
    pub(crate) sheet: usize,
}
