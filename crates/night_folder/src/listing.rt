ghost use Rattle.std.specs.Prelude.{◌≡◌, IfOk};

use hub_kinds::{Items, NoMemory, Text, Texts, copy_text};
use std::marker::Model;
use std::rt::Files;
use std::{fs, io};

/// A folder that was asked for by its path, and the names in it if it can be listed, in the order of their bytes. Only `list_at` makes one.
#[derive(Drop)]
pub struct Listing {
    path: Text,
    names: Option<Texts>,
}

impl Model for Listing {
    ghost use Rattle.night_folder.specs.Files.{FolderValue};

    ghost Value = { FolderValue };

    ghost view = { λ l. record { path = l.path; names = l.names } };
}

impl Listing {
    ghost use Rattle.std.specs.Prelude.{◌≡◌, option_map};

    /// The path of the folder.
    pub fn path(&self) -> &[u8]
        ensures { result.now ≡ self.now.path }
    {
        self.path.as_slice()
    }

    /// The names in the folder, if it can be listed.
    pub fn names(&self) -> Option<&[Text]>
        ensures { option_map (λ names. names.now) result ≡ self.now.names }
    {
        match &self.names {
            None => None,
            Some(names) => Some(names.as_slice()),
        }
    }
}

/// Lists the folder at `path`. A folder that can't be listed, or has a name that isn't UTF-8, has no names. The only error is out of
/// memory.
pub fn list_at<R: Files + AllocGlobal + Clone + Drop>(
    rt: &R,
    path: &str,
) -> Result<Listing, NoMemory>
    ensures { IfOk result (λ listing. listing.path ≡ path.now) }
{
    let names = match names_in(rt, path) {
        Ok(names) => Some(Items::from_vec(names)),
        Err(error) if error.kind() == io::ErrorKind::OutOfMemory => return Err(NoMemory),
        Err(_) => None,
    };
    Ok(Listing {
        path: copy_text(rt.alloc(), path.as_bytes())?,
        names,
    })
}

fn names_in<R: Files + AllocGlobal + Clone + Drop>(rt: &R, path: &str) -> io::Result<Vec<Text>> {
    let mut names = Vec::new(rt.alloc());
    for entry in fs::read_dir(rt, path)? {
        let entry = entry?;
        let name = Vec::from_slice(rt.alloc(), entry.file_name().as_bytes())?;
        names.push(Text::from_vec(name))?;
    }
    names.sort_unstable_by(|a, b| a.as_slice().cmp(b.as_slice()));
    Ok(names)
}
