//! Where packets walk, and how far.
use fields::Hook;
use std::alloc::Global;

// At which hook packets walk, and with how many steps.
#[derive(Clone, Copy)]
pub(crate) struct Course {
    pub alloc: Global,
    pub hook: Hook,
    pub budget: usize,
}
