use std::io;
use std::io::Write;

/// What goes to a terminal.
#[derive(Drop)]
pub struct Terminal<W> {
    pub to: W,
    /// Whether `to` is a terminal: if it isn't, what is written goes nowhere.
    pub is_terminal: bool,
}

impl<W: Write> Write for Terminal<W> {
    fn write(&mut self, buf: &[u8]) -> io::Result<usize> {
        if self.is_terminal {
            self.to.write(buf)
        } else {
            Ok(buf.len())
        }
    }

    fn flush(&mut self) -> io::Result<()> {
        self.to.flush()
    }
}

/// Goes to the begin of the terminal's line, and clears it (ECMA-48, EL).
const CLEARED: &[u8] = b"\r\x1b[K";

/// Clears the line of the terminal. A fault of the terminal changes nothing.
pub(crate) fn clear<P: Write>(shown: &mut P) {
    let _ = shown.write_all(CLEARED);
}

/// Shows `step` in place of what the terminal's line shows. A fault of the terminal changes nothing.
pub(crate) fn show<P: Write>(shown: &mut P, step: &str) {
    clear(shown);
    let _ = shown.write_all(b"nighthub_day: ");
    let _ = shown.write_all(step.as_bytes());
}
