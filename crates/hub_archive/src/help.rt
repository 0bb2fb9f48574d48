/// What the text of `--help` ends with.
pub(crate) const STATUSES: &str =
    "Moves the folders of all nights of HUB but the last N to HUB/archive, where they may
be copied and deleted. What later runs must know of them stays in
HUB/nights/.archived: which sets they delivered, and where each address was left.
A stop loses nothing: the same call goes on.

Status:
  0  the nights are archived, or HUB has no more than N
  2  usage
  4  HUB/nights can't be listed, or a file can't be read
  5  a file can't be written, or a folder can't be moved, standard output
  6  no memory
  75 another run has HUB
  78 nothing was archived, see the line

Example:
  nighthub_day archive hub --keep 30";

/// What is said of arguments that ask for nothing.
pub(crate) const USAGE: &[u8] = b"it takes archive HUB --keep N, with N from 1 to 999999";
