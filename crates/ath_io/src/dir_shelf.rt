// Files as a shelf.
ghost use Rattle.std.specs.Prelude.{◌≡◌, ◌≤◌, None, IfOk, IfSome, IsErrOf, vec_len, take, option_map};
ghost use Rattle.ath_io.specs.declared.shelf.FetchError.TheVariants.{Failed};
ghost use Rattle.ath_io.specs.DirShelf.{no_failures, failures_after};
ghost use Rattle.ath_io.specs.Faults.{Rose};
ghost use Rattle.ath_io.specs.Shelf.{after_fetch, IsFetched};

use crate::shelf::{FetchError, Shelf};
use std::alloc::Global;
use std::io::{ErrorKind, Read};
use std::marker::Model;
use std::rt::Files;
use std::{fs, io};

/// The files by their paths. It tells nothing of what they hold, and contracts see the number of
/// its faults and the name of the last file that couldn't be read alone.
#[derive(Drop)]
pub struct DirShelf<'a, R: Files> {
    files: &'a R,
    failed: Option<String>,
    faults: u64,
}

impl<'a, R: Files> Model for DirShelf<'a, R> {
    ghost use Rattle.std.specs.Prelude.{option_map, string_bytes};
    ghost use Rattle.ath_io.specs.DirShelf.{Failures};

    ghost Value = { Failures };

    ghost view = { λ s. record { failed = option_map string_bytes s.failed; count = s.faults } };
}

impl<'a, R: Files> DirShelf<'a, R> {
    /// A shelf of the files that this runtime reaches, with no fault so far.
    pub fn new(rt: &'a R) -> Self
        ensures { result ≡ no_failures }
    {
        DirShelf {
            files: rt,
            failed: None,
            faults: 0,
        }
    }

    /// The name of the last file that couldn't be read.
    pub fn failed(&self) -> Option<&str>
        ensures { option_map (λ name. name.now) result ≡ self.now.failed }
    {
        self.failed.as_deref()
    }
}

// What the system's refusal means to a caller.
fn cause(error: &io::Error) -> FetchError {
    match error.kind() {
        ErrorKind::OutOfMemory => FetchError::Memory,
        _ => FetchError::Failed,
    }
}

// At most `most` bytes of what is left, from its beginning.
fn read_front<F: Read>(file: &mut F, alloc: Global, most: usize) -> Result<Vec<u8>, FetchError>
    ensures bound { IfOk result (λ bytes. vec_len bytes ≤ most) }
    ensures content { IfOk result (λ bytes.
        IfSome (F.remaining file.old) (λ left. bytes.items ≡ take most left)) }
{
    let mut text = Vec::new(alloc);
    let mut chunk = [0u8; 4096];
    for _ in 0..u64::MAX {
        let wanted = (most - text.len()).min(chunk.len());
        if wanted == 0 {
            return Ok(text);
        }
        match file.read(&mut chunk[..wanted]) {
            Ok(count) => {
                if count == 0 {
                    return Ok(text);
                }
                text.extend_from_slice(&chunk[..count])
                    .map_err(|_| FetchError::Memory)?;
            }
            Err(error) => {
                if error.kind() != ErrorKind::Interrupted {
                    return Err(cause(&error));
                }
            }
        }
    }
    Err(FetchError::Failed)
}

impl<'a, R: Files> Shelf for DirShelf<'a, R> {
    ghost told = { λ _. None };

    ghost faults = { λ s. s.count };

    fn fetch(&mut self, alloc: Global, name: &str, most: usize) -> Result<Vec<u8>, FetchError>
        ensures bound { IfOk result (λ bytes. vec_len bytes ≤ most) }
        ensures asked { None ≡ after_fetch None name.now result }
        ensures content { IfOk result (λ bytes. IsFetched None name.now most bytes.items) }
        ensures later { self.old.count ≤ self.new.count }
        ensures cause { IsErrOf result Failed → Rose self.old.count self.new.count }
        ensures after { self.new ≡ failures_after self.old name.now result }
    {
        let fetched = match fs::open(self.files, name) {
            Ok(mut file) => read_front(&mut file, alloc, most),
            Err(error) => Err(cause(&error)),
        };
        match fetched {
            Ok(text) => Ok(text),
            Err(FetchError::Memory) => Err(FetchError::Memory),
            Err(FetchError::Failed) => {
                let name = String::from_str(alloc, name).map_err(|_| FetchError::Memory)?;
                self.failed = Some(name);
                self.faults = self.faults.saturating_add(1);
                Err(FetchError::Failed)
            }
        }
    }
}
