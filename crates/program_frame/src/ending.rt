ghost use Rattle.std.specs.Prelude.{◌≡◌, ◌⊎◌, ◌≢◌, ◌++◌, OnOk};
ghost use Rattle.std.specs.Io.KnownBytes.{Appends};
ghost use Rattle.program_frame.specs.Mistake.{memory_line};

use std::io;
use std::io::Write;
use system_io::print_text;

/// That a failure was reported: the status that the program ends with, and whether its lines are printed.
#[derive(Debug, Drop)]
pub struct Reported {
    pub status: u8,
    pub printed: io::Result<()>,
}

/// Prints `rest` after the name `program`.
pub(crate) fn print_named<E: Write>(program: &str, rest: &[u8], err: &mut E) -> io::Result<()>
    ensures { OnOk result (Appends (E.contents err.old) (E.contents err.new) (program.now ++ rest.now)) }
{
    print_text(program.as_bytes(), err)?;
    print_text(rest, err)
}

/// Prints that memory was refused to `program`, and gives 6, the status that it ends with, and whether the line is printed.
pub fn report_memory<E: Write>(program: &str, err: &mut E) -> Reported
    ensures status { result.status ≡ 6 }
    ensures printed { OnOk result.printed (Appends (E.contents err.old) (E.contents err.new) (memory_line program.now)) }
{
    Reported {
        printed: print_named(program, b": memory\n", err),
        status: 6,
    }
}

/// Prints `text` on standard output `out`, and nothing else. Gives `status`; or 5 if `out` failed, as a line on `err` says after the name
/// `program`.
pub fn print_out<O: Write, E: Write>(
    program: &str,
    text: &[u8],
    status: u8,
    out: &mut O,
    err: &mut E,
) -> u8
    requires { status ≢ 5 }
    ensures status { (result ≡ status) ⊎ (result ≡ 5) }
    ensures printed { result ≢ 5 → Appends (O.contents out.old) (O.contents out.new) text.now }
    ensures quiet { result ≢ 5 → err.new ≡ err.old }
{
    if print_text(text, out).is_err() {
        let _ = print_named(program, b": output stdout\n", err);
        return 5;
    }
    status
}
