//! What registers have.

use w16_kernel::Reply;
use w16_loading::FetchFault;
use w16_model::FarFault;
use w16_play::readings::filled;
use w16_script::Registers;

/// The same registers after replies to some of them, of which words and double words alone are stored.
fn stored() -> Registers {
    let mut registers = filled();
    registers.store(Some(7), &Reply::Word(0xfedc));
    registers.store(Some(98), &Reply::Dword(0xfedc_ba98));
    registers.store(Some(1), &Reply::Bytes(&[]));
    registers.store(Some(1), &Reply::Done);
    registers.store(Some(1), &Reply::Fault(FarFault::Limit));
    registers.store(Some(1), &Reply::Failed(FetchFault::Store));
    registers.store(None, &Reply::Word(5));
    registers
}

/// Whether a register has a number.
fn has(registers: &Registers, register: u8, number: u32) -> bool {
    register < 100 && registers.get(register) == number
}

#[test]
fn registers_begin_as_zeros(rt: HostRuntime) {
    let registers = filled();
    for register in 6..42 {
        assert!(rt; has(&registers, register, 0), "at {register}");
    }
}

/// Registers after the replies, and what they have.
static STORED: &[(u8, u32)] = &[
    (0, 0x0107_0003),
    (1, 262),
    (7, 0xfedc),
    (98, 0xfedc_ba98),
    (99, 65_535),
];

#[test]
fn stores_words_and_double_words(rt: HostRuntime) {
    let registers = stored();
    for (register, number) in STORED {
        assert!(rt; has(&registers, *register, *number), "at {register}");
    }
}
