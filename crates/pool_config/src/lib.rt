//! Configurations of a pool from text, and the slots of their machines with the ads that they tell
//! of themselves.
//!
//! The settings of a pool: what can be set, the values it takes, and the configuration that comes
//! of them.
#![tactic(auto)]

mod config;
mod error;
mod file;
mod key;
pub mod laws;
mod line;
mod machine;
mod name;
mod setting_word;
mod settings;
mod slots;
mod users;
mod value;
mod word;

pub use config::{Config, MAX_MACHINE_ATTRIBUTES, MAX_MACHINES, MAX_SLOTS, Machine, MachineList};
pub use error::ConfigError;
pub use file::read;
pub use key::Key;
pub use setting_word::{Interval, PoolWord, SlotWord};
pub use settings::Settings;
pub use slots::{ConfiguredSlot, ConfiguredSlotList, configured_slot, configured_slots};
pub use value::is_word_byte;
