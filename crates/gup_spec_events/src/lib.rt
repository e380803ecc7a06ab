//! The core machine of page pinning as definitions: its state, its events, and what each changes.
#![tactic(auto)]
