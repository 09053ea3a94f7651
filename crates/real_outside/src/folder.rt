//! The folder in which spill files are made.

ghost use Rattle.std.specs.Prelude.{◌≡◌, ◌↔◌, None, IfOk, IfErr, IsErr};
ghost use Rattle.std.specs.IoError.{error_kind};

use med_prelude::Text;
use std::alloc::{AllocError, Global};
use std::io::ErrorKind;
use std::path::PathBuf;
use std::rt::Env;
use std::{env, io};

/// The folder of the system for temporary files, which the variable `TMPDIR` names. Where it can't be
/// named, as where its name isn't UTF-8, there is none, and no other folder is taken; want of memory is passed on.
pub fn spill_folder<R: Env + AllocGlobal>(rt: &R) -> Result<Option<Text>, AllocError> {
    named_folder(rt.alloc(), env::temp_dir(rt))
}

/// The folder that was found, or none. Want of memory is passed on.
fn named_folder(alloc: Global, found: io::Result<PathBuf>) -> Result<Option<Text>, AllocError>
    ensures memory { IfErr found (λ error. IsErr result ↔ (error_kind error ≡ ErrorKind.OutOfMemory)) }
    ensures none { IfErr found (λ _. IfOk result (λ folder. folder ≡ None)) }
{
    match found {
        Ok(path) => Ok(Some(Text::from_str(alloc, path.as_path().as_str())?)),
        Err(error) if error.kind() == ErrorKind::OutOfMemory => Err(AllocError),
        Err(_) => Ok(None),
    }
}
