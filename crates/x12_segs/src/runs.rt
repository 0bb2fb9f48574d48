ghost use Rattle.std.specs.Prelude.{◌≤◌, length};
ghost use Rattle.x12_segs.specs.Runs.{RunsStandAlone};

/// A theorem, with nothing to run: where a text has segments one after another, the bytes from the
/// first of them to just after the terminator of the last, read alone, have just these segments (X12.6,
/// segment terminator). So a set can be read again from its span.
pub fn runs_stand_alone(text: &[u8], from: usize, terminator: u8)
    requires { from ≤ length text.now }
    ensures { RunsStandAlone text.now terminator from }
{}
