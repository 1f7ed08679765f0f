//! What holds of every step.

ghost use Rattle.std.specs.Prelude.{◌≡◌, ◌≢◌, ℕ, Bool, List, [], ◌∷◌, None, Some, IfSome};
ghost use Rattle.cx_machine.specs.Due.{Due, behind_transfers};
ghost use Rattle.cx_machine.specs.Machine.{MachineState};
ghost use Rattle.cx_machine.specs.Step.{IsFramed, KeepsMachine, SetsLines, Stepped};
ghost use Rattle.cx_machine.specs.Transfers.{Transfer, after_transfers};
ghost use Rattle.cx_hart.specs.HartStep.{hart_step};
ghost use Rattle.cx_hart.specs.Reads.{read_indices};
ghost use Rattle.cx_hart.specs.Step.{NeedsValue, ValueLeft, step};
ghost use Rattle.cx_hart.specs.Taking.{Took};
ghost use Rattle.cx_hart.specs.WellFormed.{IsWellFormed};
ghost use Rattle.cx_hart.specs.declared.answer.Asked.{Asked};
ghost use Rattle.cx_hart.specs.declared.record.StepRec.{StepRec};
ghost use Rattle.cx_map.specs.Bytes.{AreBytes};

/// A step is the same as that without transfers on the machine behind them, and they go to the machine one by one.
pub fn transfers_come_first()
    ensures first { (split : Bool) (due : Due) (m : MachineState)
        → step split due m ≡ step split (behind_transfers due) (after_transfers due.transfers m) }
    ensures each { (t : Transfer) (transfers : List Transfer) (m : MachineState)
        → after_transfers (t ∷ transfers) m ≡ after_transfers transfers (after_transfers (t ∷ []) m) }
{}

/// A step reads no byte of RAM but those that its record names: the word of the instruction, what the instruction
/// read, and the entries of page tables. On another memory of the same length that has these bytes it gives the same
/// record and the same next state, and each byte of memory is written alike in both, or in neither. It keeps the
/// length of memory.
pub fn a_step_is_framed()
    ensures { (split : Bool) → IsFramed (hart_step split) read_indices }
{}

/// A step that is carried out keeps the rules of the state, the length of memory and the range of its bytes.
pub fn a_step_keeps_the_machine()
    ensures { (split : Bool) → KeepsMachine (hart_step split) }
{}

/// Whatever the state, a step that is carried out leaves the lines that are due, or those that stood.
pub fn a_step_sets_the_lines()
    ensures { (split : Bool) → SetsLines (hart_step split) }
{}

/// Whatever the state, the memory and what is due, the record of a step is well formed: zeros stand behind what it
/// tells, its parts fit one access, and its end goes with them.
pub fn a_record_is_well_formed()
    ensures { (split : Bool) (m : MachineState) (due : Due) (then : Stepped StepRec)
        → hart_step split m due ≡ Some then → IsWellFormed then.rec }
{}

/// A step that asks for a value is carried out with any, and its record has that. One to which no value is due leaves
/// none. The record of a step has the value that was due, if one was, and what it wrote are bytes.
pub fn a_step_takes_its_value()
    ensures takes { (split : Bool) (due : Due) (m : MachineState) (what : Asked) (v : ℕ)
        → step split (record due { value = None }) m ≡ NeedsValue what
        → Took v (step split (record due { value = Some v }) m) }
    ensures leaves { (split : Bool) (due : Due) (m : MachineState)
        → step split (record due { value = None }) m ≢ ValueLeft }
    ensures value { (split : Bool) (m : MachineState) (due : Due) (then : Stepped StepRec)
        → hart_step split m due ≡ Some then → then.rec.value ≡ due.value }
    ensures bytes { (split : Bool) (m : MachineState) (due : Due) (then : Stepped StepRec)
        → hart_step split m due ≡ Some then → IfSome then.rec.write (λ t. AreBytes t.bytes) }
{}
