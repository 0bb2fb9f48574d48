use x12_segs::SegView;

/// The ends of a set (X12.6, transaction set header and trailer), and how many segments it has, both among them.
#[derive(Drop)]
pub struct Ends<'a> {
    pub header: SegView<'a>,
    pub segments: u64,
    pub trailer: Option<SegView<'a>>,
}
