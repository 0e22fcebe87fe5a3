//! Check digits and GTINs, and the readers and writers that all layers above share.
#![tactic(auto)]

mod buffer;
mod fault;
mod gtin;
mod laws;
mod no_memory;
mod payload;
mod refusal;
mod sink;
mod source;
mod tracked;
mod upce;

pub use buffer::put_at;
pub use fault::DigitFault;
pub use gtin::Gtin;
pub use laws::{gtins_are_checked, one_first_spelling};
pub use no_memory::NoMemory;
pub use payload::{check_digit, not_digits, payload_digit};
pub use refusal::{Refusal, RefusalKind};
pub use sink::{Sink, write_all};
pub use source::{Failed, InputFault, Source, read_all};
pub use tracked::{FromReader, ToWriter, Tracked};
pub use upce::{upce_expand, upce_suppress};
