/// Whether the sender has guides for a functional group (999 guide, AK905, codes 1 and 2).
#[derive(Clone, Copy, Debug, PartialEq, Eq)]
pub enum GroupSupport {
    /// One of its guides has GS01 and GS08.
    Served,
    /// None of its guides has GS01.
    NotServed,
    /// Some guide has GS01, but none of these has GS08.
    VersionNotServed,
}
