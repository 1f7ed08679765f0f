use cx_csr::modes::{MACHINE, SUPERVISOR, USER};
use cx_csr::numbers::*;
use cx_csr::status::TVM;
use cx_csr::*;
use cx_map::RAM_START;
use std::test::Fail;

/// A state of zeros in this mode.
fn blank(mode: u8) -> State {
    let csr = CsrFile {
        mstatus: 0,
        medeleg: 0,
        mideleg: 0,
        mie: 0,
        mip: 0,
        mtvec: 0,
        mcounteren: 0,
        mscratch: 0,
        mepc: 0,
        mcause: 0,
        mtval: 0,
        stvec: 0,
        scounteren: 0,
        sscratch: 0,
        sepc: 0,
        scause: 0,
        stval: 0,
        satp: 0,
        mcycle: 0,
        minstret: 0,
    };
    State {
        pc: RAM_START,
        x: [0; 32],
        mode,
        csr,
        reservation: None,
        lines: Lines(0),
    }
}

/// The legal numbers by ranges, spelled out as the standard has them: first and last, the least mode that reads, and
/// whether it may write too.
const LEGAL: [(u16, u16, u8, bool); 23] = [
    (0x100, 0x100, 1, true),
    (0x104, 0x106, 1, true),
    (0x10a, 0x10a, 1, true),
    (0x140, 0x144, 1, true),
    (0x180, 0x180, 1, true),
    (0x300, 0x306, 3, true),
    (0x30a, 0x30a, 3, true),
    (0x310, 0x310, 3, true),
    (0x31a, 0x31a, 3, true),
    (0x320, 0x320, 3, true),
    (0x323, 0x33f, 3, true),
    (0x340, 0x344, 3, true),
    (0x3a0, 0x3a3, 3, true),
    (0x3b0, 0x3bf, 3, true),
    (0xb00, 0xb00, 3, true),
    (0xb02, 0xb1f, 3, true),
    (0xb80, 0xb80, 3, true),
    (0xb82, 0xb9f, 3, true),
    (0xc00, 0xc02, 0, false),
    (0xc03, 0xc1f, 3, false),
    (0xc80, 0xc82, 0, false),
    (0xc83, 0xc9f, 3, false),
    (0xf11, 0xf15, 3, false),
];

/// Whether the list has the number as one that this mode reads, and writes.
fn expected(number: u16, mode: u8) -> (bool, bool) {
    let mut found = (false, false);
    for (first, last, least, writable) in &LEGAL {
        if *first <= number && number <= *last && mode >= *least {
            found = (true, *writable);
        }
    }
    found
}

/// With the counters open.
#[test]
fn each_number_is_legal_in_the_modes_that_the_standard_gives_it(rt: HostRuntime) {
    for mode in [USER, SUPERVISOR, MACHINE] {
        let mut state = blank(mode);
        state.csr.mcounteren = 7;
        state.csr.scounteren = 7;
        for number in 0..4096u16 {
            let mut written = state;
            let readable = read(&state, number) != Csr::Illegal;
            let writable = write(&mut written, number, 0).is_ok();
            assert!(rt;
                (readable, writable) == expected(number, mode),
                "{number} in mode {mode}"
            );
        }
    }
}

/// What each register reads after a write of ones, and after one of zeros behind it.
const WRITTEN: [(u16, u32); 35] = [
    (CSR_MSTATUS, 0x007e_19aa),
    (CSR_MISA, 0x4014_1101),
    (CSR_MEDELEG, 0x0000_b3ff),
    (CSR_MIDELEG, 0x0000_0222),
    (CSR_MIE, 0x0000_0aaa),
    (CSR_MTVEC, 0xffff_fffd),
    (CSR_MCOUNTEREN, 0x0000_0007),
    (CSR_MSCRATCH, 0xffff_ffff),
    (CSR_MEPC, 0xffff_fffc),
    (CSR_MCAUSE, 0xffff_ffff),
    (CSR_MTVAL, 0xffff_ffff),
    (CSR_MIP, 0x0000_0222),
    (CSR_SSTATUS, 0x000c_0122),
    (CSR_SIE, 0x0000_0222),
    (CSR_STVEC, 0xffff_fffd),
    (CSR_SCOUNTEREN, 0x0000_0007),
    (CSR_SSCRATCH, 0xffff_ffff),
    (CSR_SEPC, 0xffff_fffc),
    (CSR_SCAUSE, 0xffff_ffff),
    (CSR_STVAL, 0xffff_ffff),
    (CSR_SATP, 0xffff_ffff),
    (CSR_MCYCLE, 0xffff_ffff),
    (CSR_MCYCLEH, 0xffff_ffff),
    (CSR_MINSTRET, 0xffff_ffff),
    (CSR_MINSTRETH, 0xffff_ffff),
    (CSR_SENVCFG, 0),
    (CSR_MENVCFG, 0),
    (CSR_MENVCFGH, 0),
    (CSR_MSTATUSH, 0),
    (CSR_MCOUNTINHIBIT, 0),
    (CSR_MHPMEVENT31, 0),
    (CSR_PMPCFG0, 0),
    (CSR_PMPADDR15, 0),
    (CSR_MHPMCOUNTER31, 0),
    (CSR_MHPMCOUNTER31H, 0),
];

#[test]
fn ones_written_are_read_back_where_the_register_has_bits(rt: HostRuntime) -> Result<(), Fail> {
    let mut state = blank(MACHINE);
    write(&mut state, CSR_MIDELEG, 0x222)?;
    for (number, ones) in &WRITTEN {
        let old = read(&state, *number);
        write(&mut state, *number, 0xffff_ffff)?;
        assert_eq!(rt;
            read(&state, *number),
            Csr::Value(*ones),
            "ones to {number}"
        );
        if *number != CSR_MIDELEG {
            write(&mut state, *number, 0)?;
            assert_eq!(rt; read(&state, *number), old, "zeros to {number}");
        }
    }
    Ok(())
}

#[test]
fn bits_of_one_register_show_in_another_or_guard_it(rt: HostRuntime) -> Result<(), Fail> {
    let mut state = blank(MACHINE);
    // A written MPP of 2 keeps the old one, here 1.
    write(&mut state, CSR_MSTATUS, 0x0800)?;
    write(&mut state, CSR_MSTATUS, 0x1008)?;
    assert_eq!(rt; state.csr.mstatus, 0x0808);
    // A line is seen in mip, and in sip where it is delegated; software's bit 9 alone is what CSRRS computes on.
    state.lines = Lines(0xa00);
    write(&mut state, CSR_MIP, 0x2)?;
    write(&mut state, CSR_MIDELEG, 0x200)?;
    assert_eq!(rt; read(&state, CSR_MIP), Csr::Value(0xa02));
    assert_eq!(rt; read(&state, CSR_SIP), Csr::Value(0x200));
    assert_eq!(rt; base_to_modify(&state, CSR_MIP, 0xa02), 0x802);
    assert_eq!(rt; base_to_modify(&state, CSR_MIE, 0xa02), 0xa02);
    // sip keeps bit 1 only where it is delegated.
    write(&mut state, CSR_SIP, 0)?;
    assert_eq!(rt; state.csr.mip, 2);
    write(&mut state, CSR_MIDELEG, 0x2)?;
    write(&mut state, CSR_SIP, 0)?;
    assert_eq!(rt; state.csr.mip, 0);
    // The halves of a counter, and of the time.
    write(&mut state, CSR_MCYCLEH, 5)?;
    write(&mut state, CSR_MCYCLE, 7)?;
    assert_eq!(rt; state.csr.mcycle, 0x5_0000_0007);
    assert_eq!(rt; read(&state, CSR_CYCLEH), Csr::Value(5));
    assert_eq!(rt; read(&state, CSR_TIME), Csr::Time { high: false });
    assert_eq!(rt; read(&state, CSR_TIMEH), Csr::Time { high: true });
    // The counters' enables, and TVM.
    state.mode = USER;
    state.csr.mcounteren = 7;
    state.csr.scounteren = 5;
    assert_eq!(rt; read(&state, CSR_TIME), Csr::Illegal);
    assert_eq!(rt; read(&state, CSR_INSTRET), Csr::Value(0));
    state.mode = SUPERVISOR;
    assert_eq!(rt; read(&state, CSR_TIME), Csr::Time { high: false });
    state.csr.mstatus = 1 << TVM;
    assert_eq!(rt; read(&state, CSR_SATP), Csr::Illegal);
    assert_eq!(rt; write(&mut state, CSR_SATP, 1), Err(Illegal));
    Ok(())
}

fn with_word(words: [u32; 58], index: u8, word: u32) -> [u32; 58] {
    let mut changed = words;
    if let Some(place) = changed.get_mut(index as usize) {
        *place = word;
    }
    changed
}

// The words of a state by their indices.
const PC: u8 = 0;

const MODE: u8 = 32;

const MSTATUS: u8 = 33;

const MEDELEG: u8 = 34;

const MIDELEG: u8 = 35;

const MIE: u8 = 36;

const MIP: u8 = 37;

const MTVEC: u8 = 38;

const MCOUNTEREN: u8 = 39;

const MEPC: u8 = 41;

const STVEC: u8 = 44;

const SCOUNTEREN: u8 = 45;

const SEPC: u8 = 47;

const RESERVED: u8 = 55;

const PLACE: u8 = 56;

const LINES: u8 = 57;

/// Words with one that breaks its rule, by index and value.
const BAD: [(u8, u32); 24] = [
    (PC, 2),
    (MODE, 2),
    (MODE, 4),
    (MSTATUS, 1),
    (MSTATUS, 0x1000),
    (MEDELEG, 0x400),
    (MIDELEG, 1),
    (MIE, 1),
    (MIP, 8),
    (MTVEC, 2),
    (MCOUNTEREN, 8),
    (MEPC, 1),
    (STVEC, 2),
    (SCOUNTEREN, 8),
    (SEPC, 2),
    (RESERVED, 2),
    (PLACE, RAM_START),
    (LINES, 1),
    (MSTATUS, 0x0080_0000),
    (MEDELEG, 0x1_0000),
    (MEPC, 2),
    (SEPC, 1),
    (PLACE, 1),
    (LINES, 0x1000),
];

#[test]
fn words_read_back_and_the_first_bad_one_is_told(rt: HostRuntime) -> Result<(), Fail> {
    let mut state = blank(SUPERVISOR);
    for i in 1..32usize {
        state.x[i] = 0x100 + i as u32;
    }
    state.csr.satp = 0x8008_0000;
    state.csr.mcycle = 0x1_0000_0002;
    state.csr.minstret = 0x3_0000_0004;
    state.reservation = Some(RAM_START + 0xffc);
    state.lines = Lines::MTIP;
    let words = state.to_words();
    assert_eq!(rt; &words[..4], [RAM_START, 0x101, 0x102, 0x103].as_slice());
    assert_eq!(rt; &words[31..33], [0x11f, 1].as_slice());
    assert_eq!(rt;
        &words[50..],
        [0x8008_0000, 2, 1, 4, 3, 1, RAM_START + 0xffc, 0x80].as_slice()
    );
    assert_eq!(rt; State::from_words(&words, 1), Ok(state));
    let plain = blank(MACHINE).to_words();
    for (index, word) in &BAD {
        let bad = with_word(plain, *index, *word);
        assert_eq!(rt;
            State::from_words(&bad, 1).err(),
            Some(*index),
            "word {index}"
        );
    }
    // The place of the reservation is judged against the pages.
    for (place, good) in [
        (RAM_START + 0xffc, true),
        (RAM_START + 0x1000, false),
        (RAM_START - 4, false),
        (RAM_START + 2, false),
    ] {
        let reserved = with_word(with_word(plain, RESERVED, 1), PLACE, place);
        assert_eq!(rt;
            State::from_words(&reserved, 1).is_ok(),
            good,
            "place {place}"
        );
    }
    Ok(())
}
