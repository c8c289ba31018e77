//! Questions on the global heap. Each is the call of its name by [`Kernel::call`], and quicker.
ghost use Rattle.w16_model.specs.Commands.Command.{GlobalSize, GlobalFlags, GlobalHandle, GetSelectorBase, GetSelectorLimit, Moved};
ghost use Rattle.w16_loading.specs.Replies.Reply.{Word, Dword};
ghost use Rattle.w16_kernel.specs.Questions.{IsAnswered};

use crate::kernel::Kernel;
use std::alloc::Allocator;
use w16_store::Store;

impl<S: Store + Drop, A: Allocator + Copy> Kernel<S, A> {
    /// `GlobalSize`: an object's size in bytes; 0 of a bad handle.
    pub fn global_size(&self, handle: u16) -> u32
        ensures { IsAnswered S.is_honest self.now (GlobalSize handle) (Dword result) }
    {
        self.parts.loading.global.global_size(handle)
    }

    /// `GlobalFlags`: an object's flags, and its lock count in the low byte; 0 of a bad handle.
    pub fn global_flags(&self, handle: u16) -> u16
        ensures { IsAnswered S.is_honest self.now (GlobalFlags handle) (Word result) }
    {
        self.parts.loading.global.global_flags(handle)
    }

    /// `GlobalHandle`: a selector, and in the low word its object's handle; 0 of a bad selector.
    pub fn global_handle(&self, selector: u16) -> u32
        ensures { IsAnswered S.is_honest self.now (GlobalHandle selector) (Dword result) }
    {
        self.parts.loading.global.global_handle(selector)
    }

    /// `GetSelectorBase`: the address of the first byte that a selector reaches; 0 where it reaches none.
    pub fn selector_base(&self, selector: u16) -> u32
        ensures { IsAnswered S.is_honest self.now (GetSelectorBase selector) (Dword result) }
    {
        self.parts.loading.global.get_selector_base(selector)
    }

    /// `GetSelectorLimit`: the offset of the last byte that a selector reaches; 0 where it reaches none.
    pub fn selector_limit(&self, selector: u16) -> u32
        ensures { IsAnswered S.is_honest self.now (GetSelectorLimit selector) (Dword result) }
    {
        self.parts.loading.global.get_selector_limit(selector)
    }

    /// How many bytes the last request of the global heap moved.
    pub fn moved(&self) -> u32
        ensures { IsAnswered S.is_honest self.now Moved (Dword result) }
    {
        self.parts.loading.global.moved() as u32
    }
}
