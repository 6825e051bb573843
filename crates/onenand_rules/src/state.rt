// What the chip holds beside its array.
use crate::plans::Running;
use flash::{MAX_BLOCKS, PAGE_WORDS};
use onenand_protection::Lock;
use onenand_registers::registers::Registers;

// Words of DataRAM: four sectors of 256 main and 8 spare words.
pub const DATA_WORDS: usize = 1056;

// All that the chip holds: identity words, registers, RAMs, block states, and what runs.
#[derive(Drop)]
pub struct Core {
    pub device: u16,
    pub version: u16,
    pub registers: Registers,
    // 512 main words, then 16 spare words: both sectors of a page.
    pub bootram: [u16; PAGE_WORDS],
    // 1,024 main words, then 32 spare words: the sectors D0_0, D0_1, D1_0 and D1_1.
    pub dataram: [u16; DATA_WORDS],
    pub locks: [Lock; MAX_BLOCKS],
    pub running: Running,
}
