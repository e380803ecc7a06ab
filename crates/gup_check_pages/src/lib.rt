//! Which pages an operation may pass without an event: those that were unnamed at some moment since its actor's last event or answer, which
//! is known from when each page was mapped last.
#![tactic(auto)]

mod law;
mod mapped;
mod numbers;
mod passing;

pub use law::pages_are_timed;
pub use mapped::Mapped;
pub use passing::{first_page, next_page, passes_right};
