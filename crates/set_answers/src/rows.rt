use set_check::Finding;

/// What is found out about interchanges before they are answered.
#[derive(Drop)]
pub struct FoundRows<'a> {
    /// The sender of each interchange, as its place in the setup, or none if no partner is the sender.
    pub senders: Vec<Option<usize>>,
    /// A row for each place of the interchanges that have none of the faults 1 to 8, in the order of places.
    pub findings: Vec<Finding<'a>>,
}
