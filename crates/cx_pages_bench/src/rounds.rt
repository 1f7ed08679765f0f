//! What is done in a round.

ghost use Rattle.cx_map.specs.Map.{IsPageCount};

use cx_pages::{NoMemory, Pool};
use std::alloc::Global;

/// What is done in a round.
#[derive(Clone, Copy, Debug, PartialEq, Eq)]
pub enum Rounds {
    /// The memory is saved, restored and forgotten.
    Saves,
    /// It is saved, the first page is written to and what was saved is forgotten.
    Writes,
}

impl Rounds {
    /// The rounds of this name.
    pub fn named(name: &str) -> Option<Rounds> {
        match name {
            "saves" => Some(Rounds::Saves),
            "writes" => Some(Rounds::Writes),
            _ => None,
        }
    }
}

/// Writes to a page, where there is one of this number.
fn touch(pool: &mut Pool, page: u32) -> Result<(), NoMemory> {
    if page < pool.pages() {
        pool.reserve(1)?;
        pool.set(page, 0, 1);
    }
    Ok(())
}

/// Takes a round.
fn take_round(pool: &mut Pool, rounds: Rounds) -> Result<(), NoMemory> {
    let snap = pool.save()?;
    match rounds {
        Rounds::Saves => pool.restore(&snap),
        Rounds::Writes => {
            pool.reserve(1)?;
            pool.pages();
            pool.set(0, 0, 1);
        }
    }
    pool.forget(snap);
    Ok(())
}

/// Takes so many rounds on a memory of so many pages, of which each sixteenth was written to. It tells how many frames
/// are used then.
pub fn take_rounds(alloc: Global, rounds: Rounds, pages: u32, count: u32) -> Result<u32, NoMemory>
    requires { IsPageCount pages }
{
    let mut pool = Pool::new(alloc, pages)?;
    for page in 0..pages {
        if page % 16 == 0 {
            touch(&mut pool, page)?;
        }
    }
    for _ in 0..count {
        take_round(&mut pool, rounds)?;
    }
    Ok(pool.used())
}
