//! Files in memory.
ghost use Rattle.std.specs.Prelude.{◌≡◌, ◌↔◌, [], Ok, Err, string_bytes, OnOk, OnErr, IsErrOf};
ghost use Rattle.std.specs.FinMap.{get};
ghost use Rattle.std.specs.List.{find};
ghost use Rattle.std.specs.Option.{option_copied, option_map};
ghost use Rattle.std.specs.Str.{bytes_eq};
ghost use Rattle.io_face.specs.NamedFile.{by_name};
ghost use Rattle.io_face.specs.Shelf.{fetched};

use crate::shelf::{FILE_LIMIT, FetchFault};

/// A file in memory.
#[derive(Debug, Drop)]
pub struct NamedFile {
    pub name: String,
    pub bytes: Vec<u8>,
}

fn first_named<'a>(files: &'a [NamedFile], name: &str) -> Option<&'a NamedFile>
    ensures { option_copied result
        ≡ find (λ file. bytes_eq name.now (string_bytes file.name)) files.now }
{
    files.iter().find(|file| name == file.name.as_str())
}

// The file with this name, the first where several have it.
fn file_named<'a>(files: &'a [NamedFile], name: &str) -> Option<&'a NamedFile>
    ensures { option_map (λ file. file.bytes.items) (option_copied result)
        ≡ get (by_name files.now) name.now }
{
    first_named(files, name)
}

// Puts the whole file with this name into `into`, which is empty, or nothing.
pub(crate) fn copy_file(
    files: &[NamedFile],
    name: &str,
    into: &mut Vec<u8>,
) -> Result<(), FetchFault>
    requires empty { into.old.items ≡ [] }
    ensures ok { OnOk result (fetched (by_name files.now) name.now ≡ Ok into.new.items) }
    ensures failed { IsErrOf result FetchFault.Failed
        ↔ (fetched (by_name files.now) name.now ≡ Err FetchFault.Failed) }
    ensures too_long { IsErrOf result FetchFault.TooLong
        ↔ (fetched (by_name files.now) name.now ≡ Err FetchFault.TooLong) }
    ensures err { OnErr result (into.new.items ≡ []) }
{
    let Some(file) = file_named(files, name) else {
        return Err(FetchFault::Failed);
    };
    if file.bytes.len() > FILE_LIMIT {
        return Err(FetchFault::TooLong);
    }
    into.extend_from_slice(&file.bytes)?;
    Ok(())
}
