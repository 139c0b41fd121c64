//! A packet that comes to a rule, sought by walks of single packets.
pub(crate) mod before;
pub(crate) mod calls;
pub(crate) mod less;
pub(crate) mod parting;
pub(crate) mod seek;
pub(crate) mod seen;
pub(crate) mod steering;
pub(crate) mod straying;
pub(crate) mod surely;
pub(crate) mod walked;
pub(crate) mod way;
