/// How a stream is worked on: in which pieces, by how many workers, and after which gate.
#[derive(Drop)]
pub struct Crew<'s, R, G> {
    /// What starts threads, waits and tells the time.
    pub rt: &'s R,
    /// What each worker passes before and after a job.
    pub gate: &'s G,
    /// How many workers there are, 1 to 64.
    pub workers: u64,
    /// How many bytes a piece has, 1 or more.
    pub piece: usize,
}
