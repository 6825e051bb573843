// The chip's registers: what a write keeps, and what they start from.
ghost use Rattle.std.specs.Prelude.{◌≡◌};
ghost use Rattle.onenand_registers.specs.Bits.{is_set};
ghost use Rattle.onenand_registers.specs.Registers.{operand_at, mask_of, operand_put, operand_written, config_written, interrupt_written, command_begun, command_ended, started, powered, reset as after_reset};

// F221h at power-up, the bits that it keeps of a written word, and those that a hot or warm reset sets and keeps.
const START_CONFIG: u16 = 0x40C0;

const CONFIG_MASK: u16 = 0xFFE0;

const RESET_CONFIG: u16 = 0x4000;

const KEPT_CONFIG: u16 = 0x00E0;

// F241h after a boot load, and after a hot or warm reset.
const BOOT_INTERRUPT: u16 = 0x8080;

const RESET_INTERRUPT: u16 = 0x8010;

// The registers that commands take their operands from.
#[derive(Clone, Copy, PartialEq, Eq, Debug)]
pub enum Operand {
    Block,
    CopyBlock,
    CopyPage,
    Page,
    Buffer,
    First,
    Last,
}

impl Operand {
    // The bits that are kept of a written word.
    fn mask(self) -> u16
        ensures { result ≡ mask_of self }
    {
        match self {
            Operand::Block | Operand::CopyBlock | Operand::First | Operand::Last => 0x00FF,
            Operand::CopyPage | Operand::Page => 0x00FD,
            Operand::Buffer => 0x0D01,
        }
    }
}

// What those registers hold.
#[derive(Clone, Copy, Default, PartialEq, Eq, Debug)]
pub struct Operands {
    // F100h: the block.
    pub block: u16,
    // F102h: the block that copy-back programs.
    pub copy_block: u16,
    // F103h: its page (bits 7 to 2) and sector (bit 0).
    pub copy_page: u16,
    // F107h: the page (bits 7 to 2) and sector (bit 0).
    pub page: u16,
    // F200h: the choice of buffer sectors.
    pub buffer: u16,
    // F24Ch and F24Dh: the first and the last block of a range.
    pub first: u16,
    pub last: u16,
}

impl Operands {
    // The word that one of them holds.
    pub fn get(&self, o: Operand) -> u16
        ensures { result ≡ operand_at self.now o }
    {
        match o {
            Operand::Block => self.block,
            Operand::CopyBlock => self.copy_block,
            Operand::CopyPage => self.copy_page,
            Operand::Page => self.page,
            Operand::Buffer => self.buffer,
            Operand::First => self.first,
            Operand::Last => self.last,
        }
    }

    // Stays: `get` reads operands that are only shared, so a function that lends the register for writing cannot serve both.
    fn put(&mut self, o: Operand, w: u16)
        ensures { self.new ≡ operand_put self.old o w }
    {
        match o {
            Operand::Block => self.block = w,
            Operand::CopyBlock => self.copy_block = w,
            Operand::CopyPage => self.copy_page = w,
            Operand::Page => self.page = w,
            Operand::Buffer => self.buffer = w,
            Operand::First => self.first = w,
            Operand::Last => self.last = w,
        }
    }

    // Keeps of a written word what its mask leaves.
    pub fn write(&mut self, o: Operand, w: u16)
        ensures { self.new ≡ operand_written self.old o w }
    {
        self.put(o, w & o.mask());
    }
}

// All registers but the read-only identity words.
#[derive(Clone, Copy, PartialEq, Eq, Debug)]
pub struct Registers {
    pub operands: Operands,
    // F220h: the last command that was accepted.
    pub command: u16,
    // F221h: the configuration.
    pub config: u16,
    // F240h: the status.
    pub status: u16,
    // F241h: the interrupt word.
    pub interrupt: u16,
    // F24Eh: the protection status.
    pub protection: u16,
}

impl Registers {
    fn start(config: u16, interrupt: u16, protection: u16) -> Registers
        ensures { result ≡ started config interrupt protection }
    {
        Registers {
            operands: Operands::default(),
            command: 0,
            config,
            status: 0,
            interrupt,
            protection,
        }
    }

    // As power comes on.
    pub fn power_up(protection: u16) -> Registers
        ensures { result ≡ powered protection }
    {
        Registers::start(START_CONFIG, BOOT_INTERRUPT, protection)
    }

    // As a hot or warm reset leaves them.
    pub fn reset(&mut self, protection: u16)
        ensures { self.new ≡ after_reset self.old protection }
    {
        let config = RESET_CONFIG + (self.config & KEPT_CONFIG);
        *self = Registers::start(config, RESET_INTERRUPT, protection);
    }

    // A write to F221h.
    pub fn write_config(&mut self, w: u16)
        ensures { self.new ≡ config_written self.old w }
    {
        self.config = w & CONFIG_MASK;
    }

    // A write to F241h, which can only clear bits.
    pub fn write_interrupt(&mut self, w: u16)
        ensures { self.new ≡ interrupt_written self.old w }
    {
        self.interrupt &= w;
    }

    // Whether INT, bit 15 of F241h, is 1.
    pub fn int(&self) -> bool
        ensures { result ≡ is_set 15 self.now.interrupt }
    {
        self.interrupt >> 15 == 1
    }

    // A command begins.
    pub fn begin(&mut self, command: u16, status: u16)
        ensures { self.new ≡ command_begun self.old command status }
    {
        self.command = command;
        self.status = status;
    }

    // A command ends, and F241h gains bits.
    pub fn end(&mut self, status: u16, raised: u16)
        ensures { self.new ≡ command_ended self.old status raised }
    {
        self.status = status;
        self.interrupt |= raised;
    }
}
