/// The release of the programs, as CHANGELOG names it: what each of them prints for `--version`.
pub const RELEASE: &str = "0.4.0";
