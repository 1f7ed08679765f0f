//! Texts, by examples.

mod ins;
mod lines;
mod text;
