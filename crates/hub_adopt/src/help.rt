/// What the text of `--help` ends with.
pub(crate) const STATUSES: &str =
    "NIGHTS is the folder of the nights that run_night made, the script of releases up to
0.4.0; it is only read. Each night is made again by the files in its from/, and
is kept only if it gives the files of the old out/, byte for byte. A stop loses
nothing: the same call goes on. What the hub's own setup and guides say is for
the nights to come.

Status:
  0  each night of NIGHTS is a night of HUB
  2  usage
  3  a setup or a guide of NIGHTS is refused: nighthub_check says why
  4  NIGHTS or HUB/nights can't be listed, or a file can't be read
  5  a file can't be written, standard output
  6  no memory, or no thread
  75 another run has HUB
  78 NIGHTS or HUB isn't what it must be, see the line; nights before the one
     that is named are nights of HUB

Example:
  nighthub_day init hub
  nighthub_day adopt hub nights";

/// What is said of arguments that ask for nothing.
pub(crate) const USAGE: &[u8] = b"it takes adopt HUB NIGHTS [--workers N]";
