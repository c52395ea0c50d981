// The words that the system gives.
ghost use Rattle.std.specs.Prelude.{◌≡◌, ◌⊎◌, Ok, IfOk, IfErr, Err, IsNone, drop, map, option_map, string_bytes};
ghost use Rattle.mdb_tool.specs.Folder.{folder_of};
ghost use Rattle.std.specs.IoError.{error_kind};
ghost use Rattle.std.specs.Vec.Iter.{into_iter_items};

use crate::status::Status;
use mdb_base::NoMemory;
use std::alloc::Global;
use std::env::Args;
use std::io;
use std::io::ErrorKind;

/// The words behind the program's name, of the arguments that the system gave. Where one of them is not
/// UTF-8 the system gives none, so the first word is told.
pub(crate) fn read_command_line(
    alloc: Global,
    args: io::Result<Args>,
) -> Result<Vec<String>, Status>
    ensures words { IfOk args (λ args. IfOk result (λ words. words.items ≡ drop 1 (into_iter_items args))) }
    ensures full { IfOk args (λ _. IfErr result (λ status. status ≡ Status.NoMemory)) }
    ensures memory { IfErr args (λ error. error_kind error ≡ ErrorKind.OutOfMemory → result ≡ Err Status.NoMemory) }
    ensures text { IfErr args (λ error. (error_kind error ≡ ErrorKind.OutOfMemory → ⊥) → result ≡ Err (Status.BadWords 1)) }
{
    match args {
        Ok(args) => match words_of(alloc, args) {
            Ok(words) => Ok(words),
            Err(NoMemory) => Err(Status::NoMemory),
        },
        Err(error) => Err(status_of_error(&error)),
    }
}

// The status where the system gives no words: memory ran out, or one of them is not UTF-8.
fn status_of_error(error: &io::Error) -> Status
    ensures memory { error_kind error.now ≡ ErrorKind.OutOfMemory → result ≡ Status.NoMemory }
    ensures text { (error_kind error.now ≡ ErrorKind.OutOfMemory → ⊥) → result ≡ Status.BadWords 1 }
{
    match error.kind() {
        ErrorKind::OutOfMemory => Status::NoMemory,
        _ => Status::BadWords(1),
    }
}

// The words of the arguments: all but the program's name.
fn words_of(alloc: Global, args: Args) -> Result<Vec<String>, NoMemory>
    ensures { IfOk result (λ words. words.items ≡ drop 1 (into_iter_items args)) }
{
    Ok(args.skip(1).collect(alloc)?)
}

/// The folder that the words name, word 1, beside the words. There is none where word 1 is `-`, where there
/// is no word, and where the words have a status in their place.
pub(crate) fn with_folder(
    alloc: Global,
    words: Result<Vec<String>, Status>,
) -> (Option<String>, Result<Vec<String>, Status>)
    ensures words { IfOk result.1 (λ given. words ≡ Ok given) }
    ensures folder { IfOk result.1 (λ given. option_map string_bytes result.0 ≡ folder_of (map string_bytes given.items)) }
    ensures refused { IfErr result.1 (λ status. (words ≡ Err status) ⊎ (status ≡ Status.NoMemory)) }
    ensures no_folder { IfErr result.1 (λ _. IsNone result.0) }
{
    let given = match words {
        Ok(given) => given,
        Err(status) => return (None, Err(status)),
    };
    let word = match given.first() {
        Some(word) if word.as_str() != "-" => word,
        _ => return (None, Ok(given)),
    };
    match String::from_str(alloc, word.as_str()) {
        Ok(folder) => (Some(folder), Ok(given)),
        Err(_) => (None, Err(Status::NoMemory)),
    }
}

#[cfg(test)]
mod tests;
