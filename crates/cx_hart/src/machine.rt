//! The machine: a hart and its RAM, which take steps in place.

ghost use Rattle.std.specs.Prelude.{◌≡◌, ℕ, ◌+◌, ◌*◌, ◌/◌, ◌<◌, ◌≤◌, [], ◌∷◌, replicate, length, IfErr, IfOk};
ghost use Rattle.std.specs.Prelude.{IfSome, Some, false, refl};
ghost use Rattle.cx_csr.specs.Keeps.{Keeps};
ghost use Rattle.cx_machine.specs.Due.{AreLines, with_lines};
ghost use Rattle.cx_machine.specs.Machine.{pages_of};
ghost use Rattle.cx_machine.specs.Transfers.{after_transfers, overlaps, reservation_left};
ghost use Rattle.cx_map.specs.Map.{IsInRam, IsPageCount, size_of_pages};
ghost use Rattle.cx_ram.specs.LittleEndian.{written};
ghost use Rattle.cx_pages.specs.Memories.{SameOthers};
ghost use Rattle.cx_ram.specs.PhysicalMemory.{IsPage, page_of};
ghost use Rattle.cx_hart.specs.Outcomes.{Goes, went_of};
ghost use Rattle.cx_hart.specs.Step.{answer_with, machine_after, step, step_answer, ticks_of, without_transfers};
ghost use Rattle.cx_hart.specs.Whole.{IsLive, machine_at, machine_of};

use crate::answer::{Due, StepAnswer, Went};
use crate::carry::{is_word, turn};
use crate::moment::Moment;
use crate::record::StepRec;
use crate::steps::Steps;
use crate::tells::{Nobody, Tells};
use cx_csr::{Lines, State};
use cx_decode::Decoder;
use cx_map::PAGE_SIZE;
use cx_ram::{NoMemory, Ram};
use std::alloc::Global;
use std::marker::Model;
use std::sync::ledger::Ledger;

/// A hart with its RAM. Its state keeps the rules for the pages of its RAM.
#[derive(Drop)]
pub struct Machine {
    state: State,
    ram: Ram,
    decoder: Decoder,
    split: bool,
}

impl Model for Machine {
    ghost use Rattle.cx_csr.specs.Keeps.{Keeps};
    ghost use Rattle.cx_machine.specs.Machine.{pages_of};
    ghost use Rattle.cx_hart.specs.Whole.{Whole};

    ghost Value = { Whole };

    ghost view = { λ m. record {
      state = m.state;
      memory = m.ram.memory;
      split = m.split;
      saved = m.ram.saved;
      spare = m.ram.spare;
    } };

    ghost invariant = { λ m. Keeps (pages_of m.ram.memory) m.state };
}

/// Sets the lines where others are due.
#[inline]
fn set_lines(state: &mut State, lines: Option<Lines>)
    ensures { state.new ≡ with_lines lines state.old }
{
    if let Some(lines) = lines {
        state.lines = lines;
    }
}

impl Machine {
    /// A machine with `pages` pages of RAM, all zero, and a hart in this state, which traps at misaligned accesses.
    pub fn new(alloc: Global, pages: u32, state: State) -> Result<Machine, NoMemory>
        requires pages { IsPageCount pages }
        requires keeps { Keeps pages state }
        ensures state { IfOk result (λ m. m.state ≡ state) }
        ensures memory { IfOk result (λ m. m.memory ≡ replicate (size_of_pages pages) 0) }
        ensures saved { IfOk result (λ m. m.saved ≡ []) }
        ensures whole { IfOk result (λ m. m.split ≡ false) }
    {
        Machine::with_split(alloc, pages, state, false)
    }

    /// The same of a hart that carries out misaligned loads and stores where `split` is set, by parts that end with
    /// the page.
    pub fn with_split(
        alloc: Global,
        pages: u32,
        state: State,
        split: bool,
    ) -> Result<Machine, NoMemory>
        requires pages { IsPageCount pages }
        requires keeps { Keeps pages state }
        ensures state { IfOk result (λ m. m.state ≡ state) }
        ensures memory { IfOk result (λ m. m.memory ≡ replicate (size_of_pages pages) 0) }
        ensures saved { IfOk result (λ m. m.saved ≡ []) }
        ensures split { IfOk result (λ m. m.split ≡ split) }
    {
        let ram = Ram::new(alloc, pages)?;
        match Decoder::new(alloc) {
            Ok(decoder) => Ok(Machine {
                state,
                ram,
                decoder,
                split,
            }),
            Err(_) => Err(NoMemory),
        }
    }

    /// The state of the hart.
    pub fn state(&self) -> &State
        ensures state { result.now ≡ self.now.state }
        ensures keeps { Keeps (pages_of self.now.memory) self.now.state }
    {
        &self.state
    }

    /// The RAM.
    pub fn ram(&self) -> &Ram
        ensures memory { result.now.memory ≡ self.now.memory }
        ensures saved { result.now.saved ≡ self.now.saved }
        ensures spare { result.now.spare ≡ self.now.spare }
    {
        &self.ram
    }

    /// Makes sure that `n` pages can get a frame of their own without taking memory.
    pub fn reserve(&mut self, n: u32) -> Result<(), NoMemory>
        ensures room { IfOk result (λ done. n ≤ self.new.spare) }
        ensures same { self.new ≡ record self.old { spare = self.new.spare } }
        ensures refused { IfErr result (λ refused. self.new ≡ self.old) }
    {
        self.ram.reserve(n)
    }

    /// Writes the bytes of a device to RAM from a place on, and drops a reservation that they overlap.
    #[tactic(auto, using(crate::proofs::Transfers::transfer_keeps))]
    pub fn dma(&mut self, pa: u32, bytes: &[u8])
        requires ram { IsInRam (length self.old.memory) pa (length bytes.now) }
        requires some { 1 ≤ length bytes.now }
        requires most { length bytes.now ≤ PAGE_SIZE }
        requires room { 2 ≤ self.old.spare }
        ensures machine { machine_of self.new
            ≡ after_transfers (record { place = pa; bytes = bytes.now } ∷ []) (machine_of self.old) }
        ensures size { length self.new.memory ≡ length self.old.memory }
        ensures split { self.new.split ≡ self.old.split }
        ensures saved { self.new.saved ≡ self.old.saved }
        ensures spare { self.old.spare ≤ self.new.spare + 2 }
    {
        self.ram.dma(pa, bytes);
        self.state.reservation = reservation_left(pa, bytes.len() as u32, self.state.reservation);
    }

    /// Writes a whole page.
    pub fn fill(&mut self, page: u32, bytes: &[u8; PAGE_SIZE])
        requires page { IsPage self.old.memory page }
        requires room { 2 ≤ self.old.spare }
        ensures memory { self.new.memory ≡ written self.old.memory (page * PAGE_SIZE) bytes.now }
        ensures size { length self.new.memory ≡ length self.old.memory }
        ensures state { self.new.state ≡ self.old.state }
        ensures split { self.new.split ≡ self.old.split }
        ensures saved { self.new.saved ≡ self.old.saved }
        ensures spare { self.old.spare ≤ self.new.spare + 2 }
    {
        self.ram.set_page(page, bytes);
    }

    /// Keeps the state and the memory as they are. `NoMemory` is free, and nothing is kept then.
    pub fn save(&mut self) -> Result<Moment, NoMemory>
        ensures moment { IfOk result (λ moment. machine_at self.new.saved moment ≡ Some (machine_of self.old)) }
        ensures number { IfOk result (λ moment. ¬ IsLive self.old.saved moment) }
        ensures others { IfOk result (λ moment. SameOthers moment.snap self.old.saved self.new.saved) }
        ensures keeps { IfOk result (λ moment. Keeps (pages_of self.new.memory) moment.state) }
        ensures same { self.new ≡ record self.old { saved = self.new.saved } }
        ensures refused { IfErr result (λ refused. self.new ≡ self.old) }
    {
        let snap = self.ram.save()?;
        Ok(Moment {
            state: self.state,
            snap,
        })
    }

    /// Makes the machine what it was at a moment, which stays saved. It takes no memory.
    pub fn restore(&mut self, moment: &Moment)
        requires live { IsLive self.old.saved moment.now }
        requires keeps { Keeps (pages_of self.old.memory) moment.now.state }
        ensures machine { machine_at self.old.saved moment.now ≡ Some (machine_of self.new) }
        ensures saved { self.new.saved ≡ self.old.saved }
        ensures size { length self.new.memory ≡ length self.old.memory }
        ensures split { self.new.split ≡ self.old.split }
        ensures spare { self.old.spare ≤ self.new.spare }
    {
        self.ram.restore(&moment.snap);
        self.state = moment.state;
    }

    /// Ends a moment. It takes no memory, and the machine stays as it is.
    pub fn forget(&mut self, moment: Moment)
        requires { IsLive self.old.saved moment }
        ensures machine { machine_of self.new ≡ machine_of self.old }
        ensures gone { ¬ IsLive self.new.saved moment }
        ensures others { SameOthers moment.snap self.old.saved self.new.saved }
        ensures split { self.new.split ≡ self.old.split }
        ensures spare { self.old.spare ≤ self.new.spare }
    {
        self.ram.forget(moment.snap);
    }

    /// The bytes of a page as it was at a moment, where they stand.
    pub fn moment_page(&self, moment: &Moment, page: u32) -> &[u8; PAGE_SIZE]
        requires live { IsLive self.now.saved moment.now }
        requires page { IsPage self.now.memory page }
        ensures { IfSome (machine_at self.now.saved moment.now) (λ m. result.now ≡ page_of m.memory page) }
    {
        self.ram.saved_page_bytes(&moment.snap, page)
    }

    /// Takes a step, to which these lines and this value are due; the bytes of devices come before it, by `dma`. Where
    /// the step asks for a value and none is due, or leaves one that is, it isn't carried out and nothing changes. It
    /// takes no memory, and counts where it is carried out.
    pub fn step<L: Ledger>(&mut self, due: Due, steps: &mut Steps<L>) -> StepAnswer
        requires lines { IfSome due.lines AreLines }
        requires room { 2 ≤ self.old.spare }
        ensures answer { result ≡ step_answer (step self.old.split (without_transfers due) (machine_of self.old)) }
        ensures machine { machine_of self.new
            ≡ machine_after (machine_of self.old) (step self.old.split (without_transfers due) (machine_of self.old)) }
        ensures size { length self.new.memory ≡ length self.old.memory }
        ensures split { self.new.split ≡ self.old.split }
        ensures saved { self.new.saved ≡ self.old.saved }
        ensures spare { self.old.spare ≤ self.new.spare + 2 }
        ensures unchanged { steps.new ≡ steps.old → self.new ≡ self.old }
        ensures ticks { steps.new
            ≡ steps.old + ticks_of (step self.old.split (without_transfers due) (machine_of self.old)) }
    {
        let mut rec = StepRec::BLANK;
        match self.step_into(due, steps, &mut rec) {
            Went::Stepped => StepAnswer::Stepped(rec),
            Went::NeedsValue(what) => StepAnswer::NeedsValue(what),
            Went::ValueLeft => StepAnswer::ValueLeft,
        }
    }

    /// The same step, told in the record of a caller that takes many. The record tells the step where it was carried
    /// out, and nothing otherwise.
    #[inline(never)]
    #[tactic(auto, using(crate::proofs::Goings::told_answer, crate::proofs::Goings::machine_behind))]
    pub fn step_into<L: Ledger>(
        &mut self,
        due: Due,
        steps: &mut Steps<L>,
        rec: &mut StepRec,
    ) -> Went
        requires lines { IfSome due.lines AreLines }
        requires room { 2 ≤ self.old.spare }
        ensures answer { answer_with result rec.new
            ≡ step_answer (step self.old.split (without_transfers due) (machine_of self.old)) }
        ensures machine { machine_of self.new
            ≡ machine_after (machine_of self.old) (step self.old.split (without_transfers due) (machine_of self.old)) }
        ensures size { length self.new.memory ≡ length self.old.memory }
        ensures split { self.new.split ≡ self.old.split }
        ensures saved { self.new.saved ≡ self.old.saved }
        ensures spare { self.old.spare ≤ self.new.spare + 2 }
        ensures unchanged { steps.new ≡ steps.old → self.new ≡ self.old }
        ensures ticks { steps.new
            ≡ steps.old + ticks_of (step self.old.split (without_transfers due) (machine_of self.old)) }
    {
        self.take(due, steps, rec)
    }

    /// The same step, of which no record is made.
    #[inline(never)]
    #[tactic(auto, using(crate::proofs::Goings::untold_answer, crate::proofs::Goings::machine_behind))]
    pub fn step_untold<L: Ledger>(&mut self, due: Due, steps: &mut Steps<L>) -> Went
        requires lines { IfSome due.lines AreLines }
        requires room { 2 ≤ self.old.spare }
        ensures answer { result ≡ went_of (step self.old.split (without_transfers due) (machine_of self.old)) }
        ensures machine { machine_of self.new
            ≡ machine_after (machine_of self.old) (step self.old.split (without_transfers due) (machine_of self.old)) }
        ensures size { length self.new.memory ≡ length self.old.memory }
        ensures split { self.new.split ≡ self.old.split }
        ensures saved { self.new.saved ≡ self.old.saved }
        ensures spare { self.old.spare ≤ self.new.spare + 2 }
        ensures unchanged { steps.new ≡ steps.old → self.new ≡ self.old }
        ensures ticks { steps.new
            ≡ steps.old + ticks_of (step self.old.split (without_transfers due) (machine_of self.old)) }
    {
        self.take(due, steps, &mut Nobody)
    }

    /// Takes a step, told to a record or to nobody.
    #[inline(always)]
    fn take<L: Ledger, R: Tells>(&mut self, due: Due, steps: &mut Steps<L>, rec: &mut R) -> Went
        requires lines { IfSome due.lines AreLines }
        requires room { 2 ≤ self.old.spare }
        ensures outcome { Goes (R.knows rec.new) result (machine_of self.old) (machine_of self.new)
            (step self.old.split (without_transfers due) (machine_of self.old)) }
        ensures size { length self.new.memory ≡ length self.old.memory }
        ensures split { self.new.split ≡ self.old.split }
        ensures saved { self.new.saved ≡ self.old.saved }
        ensures spare { self.old.spare ≤ self.new.spare + 2 }
        ensures unchanged { steps.new ≡ steps.old → self.new ≡ self.old }
        ensures ticks { steps.new
            ≡ steps.old + ticks_of (step self.old.split (without_transfers due) (machine_of self.old)) }
    {
        is_word(due.value);
        let _ = self.ram.pages();
        let lines = self.state.lines;
        set_lines(&mut self.state, due.lines);
        rec.begin(&self.state);
        let went = turn(
            self.split,
            due.value,
            &mut self.ram,
            &mut self.state,
            &mut self.decoder,
            rec,
        );
        match went {
            Went::Stepped => {
                steps.tick();
                Went::Stepped
            }
            Went::NeedsValue(what) => {
                self.state.lines = lines;
                Went::NeedsValue(what)
            }
            Went::ValueLeft => {
                self.state.lines = lines;
                Went::ValueLeft
            }
        }
    }
}

/// The reservation once bytes from a place on were written by a device.
#[inline]
fn reservation_left(pa: u32, len: u32, reservation: Option<u32>) -> Option<u32>
    ensures { result ≡ reservation_left pa len reservation }
{
    match reservation {
        Some(word) if overlaps(pa, len, word) => None,
        _ => reservation,
    }
}

/// Whether bytes from a place on and those of a word have one in common.
fn overlaps(pa: u32, len: u32, word: u32) -> bool
    ensures { result ≡ overlaps pa len word }
{
    let (pa, len, word) = (u64::from(pa), u64::from(len), u64::from(word));
    pa < word + 4 && word < pa + len
}
