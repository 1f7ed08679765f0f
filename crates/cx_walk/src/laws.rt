//! What holds of every walk.

ghost use Rattle.std.specs.Prelude.{◌≡◌, ℕ, ◌%◌, ◌<◌, ◌≤◌, ◌⊎◌, Option, Some, IsSome, IfOk, IfErr, slice_index};
ghost use Rattle.cx_csr.specs.declared.state.State.{State};
ghost use Rattle.cx_walk.specs.declared.kind.Kind.{Kind};
ghost use Rattle.cx_walk.specs.declared.device.DeviceWord.{DeviceWord};
ghost use Rattle.cx_walk.specs.Agreement.{AgreesOn};
ghost use Rattle.cx_walk.specs.Bytes.{word_in};
ghost use Rattle.cx_walk.specs.Devices.{device_at, device_place};
ghost use Rattle.cx_walk.specs.Kinds.{IsFault};
ghost use Rattle.cx_walk.specs.Walks.{IsFound, address_of, walk_of};

use cx_map::{PAGE_SIZE, RAM_START};

/// A walk depends on no word of memory but those at its places: two views that agree there give the same walk, where
/// the second has no byte that the first lacks.
pub fn a_walk_reads_only_its_places()
    ensures { (first second : ℕ → Option ℕ) (pages : ℕ) (s : State) (kind : Kind) (va len : ℕ)
        → AgreesOn first second (walk_of (word_in first) pages s kind va len)
        → walk_of (word_in second) pages s kind va len ≡ walk_of (word_in first) pages s kind va len }
{}

/// The places of a walk are those of words of memory: a word outside it is never among them. They are aligned, and at
/// most two.
pub fn places_are_in_memory()
    ensures inside { (word : ℕ → Option ℕ) (pages : ℕ) (s : State) (kind : Kind) (va len i : ℕ)
        → i < (walk_of word pages s kind va len).count
        → IsSome (word (slice_index (walk_of word pages s kind va len).places i)) }
    ensures aligned { (word : ℕ → Option ℕ) (pages : ℕ) (s : State) (kind : Kind) (va len i : ℕ)
        → slice_index (walk_of word pages s kind va len).places i % 4 ≡ 0 }
    ensures unused { (word : ℕ → Option ℕ) (pages : ℕ) (s : State) (kind : Kind) (va len i : ℕ)
        → (walk_of word pages s kind va len).count ≤ i
        → slice_index (walk_of word pages s kind va len).places i ≡ 0 }
    ensures most { (word : ℕ → Option ℕ) (pages : ℕ) (s : State) (kind : Kind) (va len : ℕ)
        → (walk_of word pages s kind va len).count ≤ 2 }
{}

/// A place that a walk answers stands at the walk's address. Where it is in RAM, all bytes of the access are, and it is
/// aligned to them.
pub fn an_answer_stands_at_the_address()
    ensures address { (word : ℕ → Option ℕ) (pages : ℕ) (s : State) (kind : Kind) (va len : ℕ)
        → IfOk (walk_of word pages s kind va len).answer (λ place.
        (walk_of word pages s kind va len).address ≡ Some (address_of place)) }
    ensures found { (word : ℕ → Option ℕ) (pages : ℕ) (s : State) (kind : Kind) (va len : ℕ)
        → (len ≡ 1) ⊎ (len ≡ 2) ⊎ (len ≡ 4) → va % len ≡ 0
        → IfOk (walk_of word pages s kind va len).answer (IsFound pages kind len) }
{}

/// The address of an answer has the virtual address's offset in its page, and a fault is the access fault or the page
/// fault of the kind of access.
pub fn an_outcome_is_of_its_access()
    ensures offset { (word : ℕ → Option ℕ) (pages : ℕ) (s : State) (kind : Kind) (va len : ℕ)
        → IfOk (walk_of word pages s kind va len).answer (λ place. address_of place % PAGE_SIZE ≡ va % PAGE_SIZE) }
    ensures fault { (word : ℕ → Option ℕ) (pages : ℕ) (s : State) (kind : Kind) (va len : ℕ)
        → IfErr (walk_of word pages s kind va len).answer (IsFault kind) }
{}

/// Each word of the devices is found at its place, which is aligned and below RAM.
pub fn device_words_are_apart()
    ensures found { (word : DeviceWord) → device_at (device_place word) ≡ Some word }
    ensures aligned { (word : DeviceWord) → device_place word % 4 ≡ 0 }
    ensures below { (word : DeviceWord) → device_place word < RAM_START }
{}
