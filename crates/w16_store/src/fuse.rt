//! A store that fails once.
ghost use Rattle.std.specs.Prelude.{◌≡◌, ℕ, ◌+◌, ◌≢◌, length, min, IfOk, IfErr};
ghost use Rattle.w16_store.specs.Files.{file_of, bytes_of, length_of, IsHonestAnswer, IsMissing, HasBytes};
ghost use Rattle.w16_store.specs.Fuse.{blown};
ghost use Rattle.w16_store.specs.Later.{IsLater, RoseIf, is_device};
ghost use Rattle.w16_store.specs.declared.store.StoreFault.TheVariants.{Device};

use crate::store::{Store, StoreFault};

/// Another store, of which one call of `read_at` fails.
#[derive(Drop)]
pub struct FuseStore<S: Store + Drop> {
    inner: S,
    fuse: u32,
    reads: u64,
}

impl<S: Store + Drop> FuseStore<S> {
    /// The `fuse`-th call of `read_at` fails, from 1; none does where it is 0.
    pub fn new(inner: S, fuse: u32) -> Self
        ensures { result ≡ record { inner = inner; fuse = fuse; reads = 0 } }
    {
        FuseStore {
            inner,
            fuse,
            reads: 0,
        }
    }

    /// How often `read_at` was called, up to `u64::MAX`.
    pub fn reads(&self) -> u64
        ensures { result ≡ self.now.reads }
    {
        self.reads
    }
}

impl<S: Store + Drop> Store for FuseStore<S> {
    ghost files = { λ s. S.files s.inner };

    ghost failures = { λ s. S.failures s.inner + blown s.fuse s.reads };

    ghost is_honest = { S.is_honest };

    fn read_at(&mut self, name: &[u8], at: u64, buf: &mut [u8]) -> Result<(), StoreFault>
        ensures stays { IsLater (S.files self.old.inner) (S.failures self.old.inner + blown self.old.fuse self.old.reads)
            (S.files self.new.inner) (S.failures self.new.inner + blown self.new.fuse self.new.reads) }
        ensures device { IfErr result (RoseIf is_device (S.failures self.old.inner + blown self.old.fuse self.old.reads)
            (S.failures self.new.inner + blown self.new.fuse self.new.reads)) }
        ensures honest { S.is_honest → IsHonestAnswer (λ _. buf.new) (S.failures self.old.inner + blown self.old.fuse self.old.reads)
            (S.failures self.new.inner + blown self.new.fuse self.new.reads) result
            (bytes_of (file_of (S.files self.old.inner) name.now) at (length buf.old)) }
        ensures fuse { self.new.fuse ≡ self.old.fuse }
        ensures reads { self.new.reads ≡ min (self.old.reads + 1) u64.MAX }
        ensures fails { self.old.reads + 1 ≡ self.old.fuse → result ≡ Err Device }
        ensures unasked { self.old.reads + 1 ≡ self.old.fuse → self.new.inner ≡ self.old.inner }
        ensures fails_once { self.old.reads + 1 ≢ self.old.fuse → S.is_honest → IsHonestAnswer (λ _. buf.new) (S.failures self.old.inner)
            (S.failures self.new.inner) result (bytes_of (file_of (S.files self.old.inner) name.now) at (length buf.old)) }
    {
        self.reads = self.reads.saturating_add(1);
        if self.fuse != 0 && self.reads == u64::from(self.fuse) {
            return Err(StoreFault::Device);
        }
        self.inner.read_at(name, at, buf)
    }

    fn len_of(&mut self, name: &[u8]) -> Result<u64, StoreFault>
        ensures stays { IsLater (S.files self.old.inner) (S.failures self.old.inner + blown self.old.fuse self.old.reads)
            (S.files self.new.inner) (S.failures self.new.inner + blown self.new.fuse self.new.reads) }
        ensures device { IfErr result (RoseIf is_device (S.failures self.old.inner + blown self.old.fuse self.old.reads)
            (S.failures self.new.inner + blown self.new.fuse self.new.reads)) }
        ensures honest { S.is_honest → IsHonestAnswer (λ n. n) (S.failures self.old.inner + blown self.old.fuse self.old.reads)
            (S.failures self.new.inner + blown self.new.fuse self.new.reads) result (length_of (file_of (S.files self.old.inner) name.now)) }
        ensures missing { IfErr result (IsMissing (file_of (S.files self.old.inner) name.now)) }
        ensures bytes { S.is_honest → IfOk result (λ _. HasBytes (file_of (S.files self.old.inner) name.now)) }
        ensures fuse { self.new.fuse ≡ self.old.fuse }
        ensures reads { self.new.reads ≡ self.old.reads }
    {
        self.inner.len_of(name)
    }

    fn refresh(&mut self) {
        self.inner.refresh();
    }
}
