//! Configurations: which options are on.

ghost use Rattle.std.specs.Prelude.{◌≡◌, Bool, List, IfOk, slice_get};
ghost use Rattle.vx_space.specs.Config.{value_of};

use std::alloc::{AllocError, Global};
use std::marker::Model;

/// One truth value per option. Contracts see the list of them.
#[derive(Drop)]
pub struct Config {
    values: Vec<bool>,
}

impl Model for Config {
    ghost Value = { List Bool };

    ghost view = { λ c. c.values.items };
}

impl Config {
    /// The configuration with these values.
    pub fn new(alloc: Global, values: &[bool]) -> Result<Config, AllocError>
        ensures { IfOk result (λ c. c ≡ values.now) }
    {
        Ok(Config {
            values: Vec::from_slice(alloc, values)?,
        })
    }

    /// The value of an option, or `None` past the length.
    pub fn get(&self, option: u32) -> Option<bool>
        ensures { result ≡ slice_get self.now option }
    {
        self.values.get(option as usize).copied()
    }

    /// Whether an option is on. One past the length is off.
    pub fn is_on(&self, option: u32) -> bool
        ensures { result ≡ value_of self.now option }
    {
        self.get(option).unwrap_or(false)
    }
}
