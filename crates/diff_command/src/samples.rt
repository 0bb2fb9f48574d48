ghost use Rattle.std.specs.Prelude.{◌≡◌, ◌⊎◌, IfErr, IfOk};
ghost use Rattle.diff_report.specs.Compared.{IsCompared};
ghost use Rattle.diff_command.specs.Failure.{CantWrite};

use crate::failure::Failure;
use diff_report::{Report, compared};
use diff_samples::put_samples;
use guide_tree::Guide;
use hub_kinds::NoMemory;
use sample_folder::NotPut;
use std::alloc::Global;
use std::rt::Files;
use system_io::Directory;

/// What is printed of the guides `old` and `new`, after samples of their differences are put into `folder`, if one is given.
pub(crate) fn report_with<R: Files + AllocGlobal>(
    rt: &R,
    old: &Guide,
    new: &Guide,
    folder: Option<&str>,
) -> Result<Report, Failure>
    ensures compared { IfOk result (λ report. IsCompared old.now new.now report.text.items report.status) }
    ensures values { IfOk result (λ report. (report.status ≡ 0) ⊎ (report.status ≡ 1)) }
    ensures before { IfErr result CantWrite }
{
    write_samples(rt, old, new, folder)?;
    Ok(compared(rt.alloc(), old, new)?)
}

/// Makes a folder at a path, if one is given, and puts samples of the differences of two guides there.
fn write_samples<R: Files + AllocGlobal>(
    rt: &R,
    old: &Guide,
    new: &Guide,
    folder: Option<&str>,
) -> Result<(), Failure>
    ensures { IfErr result CantWrite }
{
    let Some(path) = folder else {
        return Ok(());
    };
    if rt.create_dir(path).is_err() {
        return Err(Failure::of_output(rt.alloc(), path.as_bytes())?);
    }
    match put_samples(rt.alloc(), old, new, &mut Directory::at(rt, path)) {
        Ok(()) => Ok(()),
        Err(failure) => Err(not_put(rt.alloc(), &failure)?),
    }
}

fn not_put(alloc: Global, failure: &NotPut) -> Result<Failure, NoMemory>
    ensures { IfOk result CantWrite }
{
    match failure {
        NotPut::File(name) => Failure::of_output(alloc, name.as_slice()),
        NotPut::Memory => Ok(Failure::Memory),
    }
}
