//! The machine between two steps, what is due to a step, and what is asked of a step: definitions alone, no code.
//!
//! Recordings, their runs and the hart speak of the same machine. A machine is a state of the hart and the bytes of
//! RAM. To a step are due transfers of devices, lines and a value of the outside. A step function takes both, and gives
//! the machine behind the step with a record of it. Windows ask of a step that it reads nothing but what its record
//! names.
#![tactic(auto)]
