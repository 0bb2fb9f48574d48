//! Setups that are built of files.
use super::examples::{ACME, BOLT, COUNTERS, H850, H856, HUB, ROUTES};
use guide_toml::{GuideFileFault, read_guide};
use guide_tree::Guide;
use partner_setup::{FileFault, Setup, SetupFault, read_counters, read_setup};
use std::alloc::{AllocError, Global};
use std::test::Fail;

/// Why there isn't a setup.
#[derive(Debug, Drop)]
pub enum NoSetup {
    File(FileFault),
    Guide(GuideFileFault),
    Setup(SetupFault),
    NoMemory,
}

impl From<FileFault> for NoSetup {
    fn from(fault: FileFault) -> NoSetup {
        NoSetup::File(fault)
    }
}

impl From<GuideFileFault> for NoSetup {
    fn from(fault: GuideFileFault) -> NoSetup {
        NoSetup::Guide(fault)
    }
}

impl From<SetupFault> for NoSetup {
    fn from(fault: SetupFault) -> NoSetup {
        NoSetup::Setup(fault)
    }
}

impl From<AllocError> for NoSetup {
    fn from(_error: AllocError) -> NoSetup {
        NoSetup::NoMemory
    }
}

fn push_guide(guides: &mut Vec<Guide>, guide: Guide) -> Result<(), AllocError> {
    guides.push(guide)?;
    Ok(())
}

fn add_guide(alloc: Global, guides: &mut Vec<Guide>, file: &str) -> Result<(), NoSetup> {
    let guide = read_guide(alloc, file.as_bytes())?;
    Ok(push_guide(guides, guide)?)
}

/// The guides of orders and of shipments.
fn guides(alloc: Global, files: [&str; 2]) -> Result<Vec<Guide>, NoSetup> {
    let mut guides = Vec::new(alloc);
    add_guide(alloc, &mut guides, files[0])?;
    add_guide(alloc, &mut guides, files[1])?;
    Ok(guides)
}

/// The setup of two files, by the guides of two more.
pub fn built(
    alloc: Global,
    setup: &[u8],
    counters: &[u8],
    files: [&str; 2],
) -> Result<Setup, NoSetup> {
    let counters = read_counters(alloc, counters)?;
    let guides = guides(alloc, files)?;
    let rows = read_setup(alloc, setup)?;
    let setup = Setup::build(alloc, rows, counters, guides)?;
    Ok(setup)
}

/// The setup of the hub and these partners and routes.
pub fn built_of(
    alloc: Global,
    first: &str,
    second: &str,
    routes: &str,
    counters: &str,
) -> Result<Setup, NoSetup> {
    let file = format!(in alloc; "{HUB}{first}{second}{routes}")?;
    built(alloc, file.as_bytes(), counters.as_bytes(), [H850, H856])
}

/// The setup of the two partners.
pub fn example(alloc: Global) -> Result<Setup, NoSetup> {
    built_of(alloc, ACME, BOLT, ROUTES, COUNTERS)
}

fn expect_sizes(setup: &Setup) -> Result<(), Fail> {
    if setup.partners().len() != 2 || setup.routes().len() != 2 || setup.guides().len() != 2 {
        return Err("other rows")?;
    }
    if setup.hub().id.as_slice() != b"HUB".as_slice() {
        return Err("another hub")?;
    }
    Ok(())
}

#[test]
fn two_partners_are_built(rt: HostRuntime) -> Result<(), Fail> {
    expect_sizes(&example(rt.alloc())?)
}
