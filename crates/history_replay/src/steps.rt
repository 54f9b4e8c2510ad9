//! The steps that a drive takes too: what a command block asks for, what a command begins with, and which commands are in, which
//! mode values hold and which attentions wait after an entry. Each call has the definition itself as its contract. A drive takes
//! these and what is known (`Known`) from this crate, and nothing of what judges whole histories; nothing here stands on that.
pub(crate) mod answer;
pub(crate) mod request;
mod set;
mod settings;
mod start;
mod told;
mod warning;

pub use answer::settings_made;
pub use request::read;
pub use set::settle_set;
pub use settings::settings_after;
pub use start::first_plan;
pub use told::settle_attentions;
pub use warning::{warn_of_clear, warn_of_mode_change, warn_of_reset};
