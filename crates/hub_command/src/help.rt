/// What the text of `--help` ends with.
pub(crate) const STATUSES: &str = "Commands:
  init HUB                makes the folder HUB, which has setup.toml and guides/,
                          a hub of no night
  run HUB --at CCYYMMDDHHMM [--name NAME] [--again FILE].. FILE..
                          runs the next night on the files, one after another,
                          and keeps all of it in HUB/nights; where that is done
                          already, says so again. A file that has a set which
                          an older night delivered is set aside; one that
                          --again names goes in, after the others
  archive HUB --keep N    moves all nights of HUB but the last N to HUB/archive;
                          later runs still know what they delivered
  adopt HUB NIGHTS        makes the nights of run_night, the script of earlier
                          releases, nights of HUB: nighthub_day adopt --help
  give-up HUB [--not-sent]
                          removes a night that stopped before it was kept; with
                          --not-sent moves the last night to HUB/given-up

Also check, find, export and page: nighthub_day check --help.

Status:
  0  done; run: the night is kept, and clean
  1  run: the night is kept, see its report.txt; or a file is truncated or
     set aside
  2  usage
  3  the setup or a guide is refused: nighthub_check says why
  4  FILE or a file of HUB can't be read, or the files are too long
  5  a file can't be written, standard output
  6  no memory, or no thread
  75 another run has HUB
  78 nothing was done, see the line

Examples:
  nighthub_day init hub
  nighthub_day run hub --at 202603010200 --name sunday in/*.x12
  nighthub_day run hub --at 202603020200 --again lost.x12 in/*.x12
  nighthub_day check hub/nights";

/// What is said of arguments that ask for nothing.
pub(crate) const USAGE: &[u8] =
    b"it takes init HUB, run HUB --at CCYYMMDDHHMM [--name NAME] [--again FILE].. FILE.., or give-up HUB [--not-sent]";
