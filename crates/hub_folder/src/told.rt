/// What is printed on standard output, and the status.
#[derive(Drop)]
pub struct Told {
    pub text: Vec<u8>,
    /// 0 or 1.
    pub status: u8,
}
