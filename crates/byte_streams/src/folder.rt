//! What whole files are fetched from.
ghost use Rattle.std.specs.Prelude.{◌≡◌, ℕ, ◌≤◌, List, Option, Some, vec_len, IfSome, IfOk, MatchResult};
ghost use Rattle.byte_streams.specs.Folders.{StoredFile, file_named, ExplainsFetch, CountsFetch};

use crate::faults::FetchFault;
use std::alloc::Global;

/// A place with files, which may fail.
///
/// `files` tells its files, or nothing. `faults` is its count of faults, which never falls.
pub trait Folder {
    ghost files: { Self → Option (List StoredFile) };

    ghost faults: { Self → ℕ };

    /// The bytes of the file of this name, if there are at most `limit`.
    ///
    /// A folder that does not tell its files answers `Failed` for a name that is not there.
    fn fetch(&mut self, alloc: Global, name: &str, limit: usize) -> Result<Vec<u8>, FetchFault>
        ensures found { IfOk result (λ bytes. IfSome (files self.old) (λ told. file_named told name.now ≡ Some bytes.items)) }
        ensures within { IfOk result (λ bytes. vec_len bytes ≤ limit) }
        ensures cause { MatchResult result (λ _. Unit {0}) (λ fault. ExplainsFetch fault limit name.now (files self.old)) }

        // The folder goes on telling what it told, whatever it answers.
        ensures same_files { files self.new ≡ files self.old }

        ensures counted { MatchResult result (λ _. faults self.new ≡ faults self.old)
            (λ fault. CountsFetch fault (faults self.old) (faults self.new)) }
        ensures never_falls { faults self.old ≤ faults self.new };
}
