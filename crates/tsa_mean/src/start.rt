//! How threads begin.
use std::marker::Model;
use tsa_base::Value;

/// With which function a thread begins, by its number, and with which arguments.
#[derive(Drop)]
pub struct ThreadStart {
    pub function: u32,
    pub args: Vec<Value>,
}

impl Model for ThreadStart {
    ghost use Rattle.tsa_mean.specs.Starts.{Begin};

    ghost Value = { Begin };

    ghost view = { λ start. record { function = start.function; args = start.args.items } };
}
