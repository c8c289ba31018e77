//! What a folder's store needs of the system.
ghost use Rattle.std.specs.Prelude.{◌≡◌, ℕ, ◌<◌, List, map, IfOk, IfErr, OnErr};
ghost use Rattle.std.specs.List.Sorted.{IsPermutation};
ghost use Rattle.std.specs.String.{string_bytes};
ghost use Rattle.w16_store.specs.Files.{HasBytes};
ghost use Rattle.w16_store.specs.Folder.{content_of, IsHonestRead};
ghost use Rattle.w16_store.specs.Later.{IsLater};

use crate::folder::DirFault;
use std::alloc::Global;
use thiserror::Error;

/// The system failed, or a file isn't there any more.
#[derive(Debug, Clone, Copy, PartialEq, Eq, Drop, Error)]
#[error("the system failed")]
pub struct DiskFailure;

/// One folder of a disk. Names are exact here.
pub trait Disk {
    ghost use Rattle.w16_store.specs.declared.folder.DirFault.{DirFault};

    /// The folder's regular files, each a name and its bytes. No call changes them.
    ghost files: { Self → List (List ℕ × List ℕ) };

    /// How often the system has failed: each failed read raises it.
    ghost failures: { Self → ℕ };

    /// Each answer is what the files say, or a failure.
    ghost is_honest: { Type 0 };

    /// For which faults the folder may not be listed.
    ghost refuses: { Self → DirFault → Type 0 };

    /// The names of all regular files whose name is UTF-8, in any order.
    fn names(&self, alloc: Global) -> Result<Vec<String>, DirFault>
        ensures err { IfErr result (refuses self.now) }
        ensures honest { is_honest → IfOk result (λ names. IsPermutation (map (λ f. f.0) (files self.now)) (map string_bytes names.items)) };

    /// The whole length of a file, in bytes; and where the file has bytes for all of the buffer from an offset on, the buffer is filled with them.
    fn read(&mut self, name: &str, at: u64, buf: &mut [u8]) -> Result<u64, DiskFailure>
        ensures stays { IsLater (files self.old) (failures self.old) (files self.new) (failures self.new) }
        ensures fails { OnErr result (failures self.old < failures self.new) }
        ensures honest { is_honest → IsHonestRead (failures self.old) (failures self.new) result
            (content_of (files self.old) name.now) at buf.old buf.new }
        ensures bytes { is_honest → IfOk result (λ _. HasBytes (content_of (files self.old) name.now)) };

    /// From now on a file that was read before is looked at anew.
    fn refresh(&mut self)
        ensures files { files self.new ≡ files self.old }
        ensures failures { failures self.new ≡ failures self.old };
}
