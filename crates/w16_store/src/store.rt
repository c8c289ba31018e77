//! What a store is.
ghost use Rattle.std.specs.Prelude.{◌≡◌, ℕ, List, length, IfOk, IfErr};
ghost use Rattle.w16_store.specs.Files.{file_of, bytes_of, length_of, IsHonestAnswer, IsMissing, HasBytes};
ghost use Rattle.w16_store.specs.Later.{IsLater, RoseIf, is_device};

use thiserror::Error;

/// Why a store doesn't give what it was asked for.
#[derive(Debug, Clone, Copy, PartialEq, Eq, Drop, Error)]
pub enum StoreFault {
    /// No file has that name.
    #[error("no such file")]
    Missing = 1,
    /// The file ends before the bytes do.
    #[error("the file is too short")]
    Short = 2,
    /// The device failed.
    #[error("the device failed")]
    Device = 3,
}

/// Files by name. Names are equal where they are so after ASCII upper-casing; of files with equal names the first counts.
pub trait Store {
    /// The files, each a name and its bytes. No call changes them.
    ghost files: { Self → List (List ℕ × List ℕ) };

    /// How often the device has failed. A call that tells of a failure raised it, whatever the store.
    ghost failures: { Self → ℕ };

    /// Each answer is what the files say, or a failure of the device.
    ghost is_honest: { Type 0 };

    /// Fills the buffer with the bytes of a file from an offset on. After a fault the buffer's bytes are any.
    fn read_at(&mut self, name: &[u8], at: u64, buf: &mut [u8]) -> Result<(), StoreFault>
        ensures stays { IsLater (files self.old) (failures self.old) (files self.new) (failures self.new) }
        ensures device { IfErr result (RoseIf is_device (failures self.old) (failures self.new)) }
        ensures honest { is_honest → IsHonestAnswer (λ _. buf.new) (failures self.old) (failures self.new) result
            (bytes_of (file_of (files self.old) name.now) at (length buf.old)) };

    /// The length of a file in bytes. Whatever the store, `Missing` says that no file has the name.
    fn len_of(&mut self, name: &[u8]) -> Result<u64, StoreFault>
        ensures stays { IsLater (files self.old) (failures self.old) (files self.new) (failures self.new) }
        ensures device { IfErr result (RoseIf is_device (failures self.old) (failures self.new)) }
        ensures honest { is_honest → IsHonestAnswer (λ n. n) (failures self.old) (failures self.new) result
            (length_of (file_of (files self.old) name.now)) }
        ensures missing { IfErr result (IsMissing (file_of (files self.old) name.now)) }
        ensures bytes { is_honest → IfOk result (λ _. HasBytes (file_of (files self.old) name.now)) };

    /// Tells the store that a call begins: a file that may have changed since the one before is looked at anew.
    fn refresh(&mut self)
        ensures files { files self.new ≡ files self.old }
        ensures failures { failures self.new ≡ failures self.old };
}
