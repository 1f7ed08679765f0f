//! Tests of the crates below the hart: outside vectors, printed text, examples of the standard, and that calls succeed
//! with memory at hand. Each file has the name of the crate whose public calls it makes. They stand in a crate of their
//! own, since a crate with tests is proved once more with them.
#![tactic(auto)]

#[cfg(test)]
mod codec;
#[cfg(test)]
mod csr;
#[cfg(test)]
mod decode;
#[cfg(test)]
mod exec;
#[cfg(test)]
mod io;
#[cfg(test)]
mod pages;
#[cfg(test)]
mod print;
#[cfg(test)]
mod ram;
#[cfg(test)]
mod results;
#[cfg(test)]
mod slow;
#[cfg(test)]
mod trap;
#[cfg(test)]
mod walk;
