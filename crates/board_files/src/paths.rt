// What a file is called that a text names.

ghost use Rattle.std.specs.Prelude.{◌≡◌, IfOk};
ghost use Rattle.board_files.specs.Lists.{folder_of, is_absolute, path_from};

use std::alloc::{AllocError, Global};

/// A path up to its last `/`: the folder of its file, from which that names others.
#[tactic(auto, using(crate::proofs::PathLemmas::stroke_last, crate::proofs::PathLemmas::other_last))]
pub fn folder_of(path: &[u8]) -> &[u8]
    ensures { result.now ≡ folder_of path.now }
{
    match path.split_last() {
        Some((b'/', _)) | None => path,
        Some((_, front)) => folder_of(front),
    }
}

/// The path of a file, by its name in a text which names files from this folder.
pub(crate) fn path_from(alloc: Global, folder: &[u8], name: &[u8]) -> Result<Vec<u8>, AllocError>
    ensures { IfOk result (λ path. path.items ≡ path_from folder.now name.now) }
{
    if is_absolute(name) {
        return name.to_vec(alloc);
    }
    let mut path = folder.to_vec(alloc)?;
    path.extend_from_slice(name)?;
    Ok(path)
}

fn is_absolute(name: &[u8]) -> bool
    ensures { result ≡ is_absolute name.now }
{
    matches!(name, [b'/', ..])
}
