//! The machine for C: a holder that C keeps, and a function for each call on what it holds.
#![tactic(auto)]

mod asked;
mod descriptors;
mod far;
mod files;
mod global;
mod held;
pub mod laws;
mod lent;
mod life;
mod listing;
mod local;
mod modules;
mod part;
mod parts;
mod resources;
mod status;

pub use descriptors::{Descriptor, w16_get_descriptor, w16_next_changed, w16_peek};
pub use far::{w16_fill, w16_read, w16_write};
pub use files::{w16_add_file, w16_missing_file, w16_remove_file};
pub use global::{
    w16_get_selector_base, w16_get_selector_limit, w16_global_alloc, w16_global_compact,
    w16_global_discard, w16_global_flags, w16_global_free, w16_global_handle, w16_global_lock,
    w16_global_lru_newest, w16_global_lru_oldest, w16_global_realloc, w16_global_size,
    w16_global_unlock, w16_moved,
};
pub use held::Held;
pub use lent::{Lent, w16_find, w16_memory};
pub use life::{w16_free, w16_new, w16_version};
pub use listing::{
    w16_export_from, w16_module_file, w16_module_from, w16_module_import, w16_module_name,
    w16_module_segment, w16_module_start, w16_next_loaded, w16_would_free,
};
pub use local::{
    w16_ds, w16_local_alloc, w16_local_compact, w16_local_discard, w16_local_flags, w16_local_free,
    w16_local_handle, w16_local_init, w16_local_lock, w16_local_realloc, w16_local_size,
    w16_local_unlock,
};
pub use modules::{
    w16_builtin, w16_free_library, w16_free_module, w16_get_module_handle, w16_get_module_usage,
    w16_get_proc_address, w16_load_library, w16_load_module,
};
pub use part::{Part, w16_walk_from};
pub use resources::{
    w16_find_resource, w16_free_resource, w16_load_resource, w16_lock_resource, w16_sizeof_resource,
};
pub use status::{
    BAD_SIZE, DONE, END, EXISTS, FAULT_DAMAGED, FAULT_LIMIT, FAULT_NOT_PRESENT, FAULT_READ_ONLY,
    FAULT_ROOM, FAULT_SELECTOR, FAULT_STORE, IN_USE, NO_FILE, NO_MACHINE, NO_MEMORY, NO_MODULE,
    NONE_MISSING,
};

#[cfg(test)]
mod tests;
