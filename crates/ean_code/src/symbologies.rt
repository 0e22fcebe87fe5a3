//! The symbologies whose symbols show a GTIN, a module each.
pub(crate) mod ean13;
pub(crate) mod ean8;
pub(crate) mod itf14;
pub(crate) mod upce;
