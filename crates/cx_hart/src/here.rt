//! What a turn of the hart stands in.

use cx_csr::State;
use cx_ram::Ram;
use std::marker::Model;

/// Whether misaligned loads and stores are carried out, the value of the outside that is due, the RAM and the state.
#[derive(Drop)]
pub(crate) struct Here<'a> {
    pub split: bool,
    pub given: Option<u32>,
    pub ram: &'a Ram,
    pub state: &'a State,
}

impl<'a> Model for Here<'a> {
    ghost use Rattle.cx_hart.specs.Surroundings.{Surroundings};

    ghost Value = { Surroundings };

    ghost view = { λ h. record { split = h.split; given = h.given; memory = h.ram.now.memory; state = h.state.now } };
}
