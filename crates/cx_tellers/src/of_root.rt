//! What the steps of a recording show of one program.

use crate::observing::ObservationTeller;
use cx_codec::OutFault;
use cx_hart::{Machine, StepRec};
use cx_io::Sink;
use cx_log::Header;
use cx_observe::observe;
use cx_replay::DueRecords;
use cx_telling::Teller;
use std::alloc::Global;

/// Tells what the steps show of the program that runs over a root, by what tells observations.
#[derive(Drop)]
pub struct OfRoot<L: ObservationTeller> {
    root: u32,
    teller: L,
}

impl<L: ObservationTeller> Teller for OfRoot<L> {
    ghost use Rattle.std.specs.Prelude.{nat_lt, true};
    ghost use Rattle.cx_commands.specs.Observed.{observations_in, observed_by, occurs_in};
    ghost use Rattle.cx_tellers.specs.Showing.{HasToldOf, nothing_shown, shown_grows};

    type Asked = u32;

    ghost text = { λ root o whole given. L.text (observations_in root given) };

    ghost full = { λ root o whole. L.full (observed_by root o whole) };

    ghost seeks = { true };

    ghost there = { occurs_in };

    ghost waiting = { λ p. L.waiting p.teller };

    ghost keeps = { λ p root o whole given. HasToldOf (L.keeps p.teller) p.root root given };

    ghost ready = { λ p. L.ready p.teller };

    ghost found = { λ p. nat_lt 0 (L.count p.teller) };

    ghost grows = { λ root o whole xs ys ordered. shown_grows L.text L.grows root xs ys };

    ghost unwritten = { λ root o whole given none. nothing_shown L.text L.unwritten root given none };

    fn start<T: Sink>(
        alloc: Global,
        asked: u32,
        _header: &Header,
        _machine: &Machine,
        sink: &mut T,
    ) -> Result<OfRoot<L>, OutFault> {
        let teller = L::start(alloc, sink)?;
        Ok(OfRoot {
            root: asked,
            teller,
        })
    }

    fn tell<T: Sink>(
        &mut self,
        _step: u64,
        rec: &StepRec,
        _due: &DueRecords,
        sink: &mut T,
    ) -> Result<(), OutFault> {
        match observe(rec, self.root) {
            Some(obs) => self.teller.tell(&obs, sink),
            None => Ok(()),
        }
    }

    fn is_there(&self) -> bool {
        self.teller.told() > 0
    }

    fn finish<T: Sink>(self, _end: u64, sink: &mut T) -> Result<(), OutFault> {
        self.teller.finish(sink)
    }
}
