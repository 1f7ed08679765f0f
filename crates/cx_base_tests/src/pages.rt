//! A row that was worked out by hand, and a long play against plain copies of whole memories.

ghost use Rattle.std.specs.Prelude.{◌≡◌, ◌<◌, ◌≤◌, length};
ghost use Rattle.cx_pages.specs.Memories.{page_count};

use cx_pages::{NoMemory, Pool, Snap};
use std::alloc::Global;
use std::process::Abort;

/// A pool of so many pages, of which `spare` can be written to.
fn pool(rt: &impl Abort, alloc: Global, pages: u32, spare: u32) -> Pool
    requires some { 1 ≤ pages }
    requires few { pages ≤ 4 }
    ensures pages { page_count result.current ≡ pages }
    ensures spare { spare ≤ result.spare }
{
    match Pool::new(alloc, pages) {
        Ok(mut pool) => match pool.reserve(spare) {
            Ok(()) => pool,
            Err(NoMemory) => panic!(rt; "no memory"),
        },
        Err(NoMemory) => panic!(rt; "no memory"),
    }
}

#[test]
fn a_page_is_copied_at_its_first_write(rt: HostRuntime) {
    let mut pool = pool(&rt, rt.alloc(), 2, 2);
    assert_eq!(rt; pool.used(), 0);
    pool.set(0, 0, 7);
    assert_eq!(rt; pool.used(), 1);
    let Ok(snap) = pool.save() else {
        panic!(rt; "no memory");
    };
    assert_eq!(rt; pool.used(), 1);
    assert!(rt; pool.shared(0));
    pool.set(0, 0, 9);
    assert_eq!(rt; pool.used(), 2);
    assert_eq!(rt; pool.get(0, 0), 9);
    assert_eq!(rt; pool.saved_get(&snap, 0, 0), 7);
    pool.set(0, 1, 8);
    assert_eq!(rt; pool.used(), 2);
    pool.restore(&snap);
    assert_eq!(rt; pool.get(0, 0), 7);
    assert_eq!(rt; pool.get(0, 1), 0);
    assert_eq!(rt; pool.used(), 1);
    pool.forget(snap);
    assert_eq!(rt; pool.used(), 1);
    assert!(rt; !pool.shared(0));
}

/// Where each page is looked at.
const PLACES: [u32; 3] = [0, 1, 4095];

/// A memory as it has to be: the bytes of three pages at the three places, and a stamp for each page.
#[derive(Clone, Copy)]
struct Plain {
    bytes: [[u8; 3]; 3],
    stamps: [u32; 3],
}

/// A pool, the memory that it has to have, those that are saved, and the source of chances.
#[derive(Drop)]
struct Play {
    pool: Pool,
    plain: Plain,
    saved: Vec<(Snap, Plain)>,
    last_stamp: u32,
    chance: u32,
}

impl Play {
    /// A number below `limit`.
    fn draw(&mut self, limit: u32) -> usize
        requires { 0 < limit }
        ensures { result < limit }
    {
        self.chance = self
            .chance
            .wrapping_mul(1_664_525)
            .wrapping_add(1_013_904_223);
        (self.chance / 65_536 % limit) as usize
    }

    /// Whether a page has to be shared.
    fn is_shared(&self, page: usize) -> bool
        requires { page < 3 }
    {
        let stamp = self.plain.stamps[page];
        stamp == 0
            || self
                .saved
                .iter()
                .any(|(_, plain)| plain.stamps[page] == stamp)
    }

    /// Writes two bytes, or one at a page's end.
    fn write(&mut self, rt: &impl Abort) {
        let page = self.draw(3);
        let place = self.draw(3);
        let byte = self.draw(256) as u8;
        if self.is_shared(page) {
            self.last_stamp = self.last_stamp.wrapping_add(1);
            self.plain.stamps[page] = self.last_stamp;
        }
        if self.pool.reserve(1).is_err() || self.pool.pages() != 3 {
            panic!(rt; "no memory");
        }
        if place == 0 {
            self.pool.write(page as u32, 0, &[byte, byte / 2]);
            self.plain.bytes[page][1] = byte / 2;
        } else {
            self.pool.set(page as u32, PLACES[place], byte);
        }
        self.plain.bytes[page][place] = byte;
    }

    /// Saves the memory where fewer than four are.
    fn save(&mut self, rt: &impl Abort) {
        if self.saved.len() < 4 {
            match self.pool.save() {
                Ok(snap) => {
                    if self.saved.push((snap, self.plain)).is_err() {
                        panic!(rt; "no memory");
                    }
                }
                Err(NoMemory) => panic!(rt; "no memory"),
            }
        }
    }

    /// Goes back to a saved memory, or ends it.
    fn go_back(&mut self, rt: &impl Abort, ends: bool) {
        let which = self.draw(4);
        if self.saved.len() <= which {
            return;
        }
        let (snap, plain) = self.saved.swap_remove(which);
        if !self.pool.is_live(&snap) {
            panic!(rt; "a memory is gone");
        }
        if ends {
            self.pool.forget(snap);
            return;
        }
        self.pool.restore(&snap);
        self.plain = plain;
        if self.saved.push((snap, plain)).is_err() {
            panic!(rt; "no memory");
        }
    }

    /// Compares what the pool says with what it has to say.
    fn compare(&self, rt: &impl Abort) {
        if self.pool.pages() != 3 {
            panic!(rt; "a page is gone");
        }
        for page in 0..3 {
            assert_eq!(rt; self.pool.shared(page as u32), self.is_shared(page));
            for place in 0..3 {
                assert_eq!(rt;
                    self.pool.get(page as u32, PLACES[place]),
                    self.plain.bytes[page][place]
                );
            }
        }
        for (snap, plain) in &self.saved {
            if !self.pool.is_live(snap) {
                panic!(rt; "a memory is gone");
            }
            for page in 0..3 {
                for place in 0..3 {
                    let byte = self.pool.saved_get(snap, page as u32, PLACES[place]);
                    assert_eq!(rt; byte, plain.bytes[page][place]);
                }
            }
        }
    }

    /// How many frames have to be used: one for each page and each stamp that it has in some memory.
    fn frames(&self) -> u32 {
        let mut frames = 0u32;
        for page in 0..3 {
            let mut seen = [0u32; 5];
            let mut stamps = [0u32; 5];
            stamps[4] = self.plain.stamps[page];
            for (to, (_, plain)) in stamps.iter_mut().zip(&self.saved) {
                *to = plain.stamps[page];
            }
            for i in 0..5 {
                if stamps[i] != 0 && !seen.contains(&stamps[i]) {
                    seen[i] = stamps[i];
                    frames = frames.wrapping_add(1);
                }
            }
        }
        frames
    }
}

#[test]
fn a_long_play_agrees_with_whole_copies(rt: HostRuntime) {
    let plain = Plain {
        bytes: [[0; 3]; 3],
        stamps: [0; 3],
    };
    let mut play = Play {
        pool: pool(&rt, rt.alloc(), 3, 0),
        plain,
        saved: Vec::new(rt.alloc()),
        last_stamp: 0,
        chance: 1,
    };
    for _ in 0..20_000 {
        match play.draw(8) {
            0..=3 => play.write(&rt),
            4..=5 => play.save(&rt),
            6 => play.go_back(&rt, false),
            _ => play.go_back(&rt, true),
        }
        play.compare(&rt);
        assert_eq!(rt; play.pool.used(), play.frames());
    }
}
