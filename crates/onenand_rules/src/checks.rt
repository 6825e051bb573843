// The four checks of an accepted command, and the plan that comes of them.
ghost use Rattle.std.specs.Prelude.{◌≡◌};
ghost use Rattle.onenand_protection.specs.Protection.{lock_at};
ghost use Rattle.onenand_rules.specs.Checks.{is_known, blocks_there, buffer_fit, target_open, checked, transfer_of, copy_target, protection_of, intended, planned};

use crate::commands::{Command, Fault, Kind};
use crate::plans::Plan;
use onenand_protection::{Lock, Protection, lock_at};
use onenand_registers::registers::Operands;
use onenand_transfer::{Part, Transfer};

// A command, with the operands that the registers hold.
#[derive(Clone, Copy, PartialEq, Eq, Debug)]
pub struct Request {
    pub command: Command,
    pub operands: Operands,
}

impl Request {
    // First check: the command is one of the table.
    fn is_known(self) -> bool
        ensures { result ≡ is_known self.command }
    {
        self.command != Command::Unknown
    }

    // Second check: the blocks that it names are among n.
    fn are_blocks_there(self, n: usize) -> bool
        ensures { result ≡ blocks_there self.operands n self.command }
    {
        let o = self.operands;
        match self.command {
            Command::Load(_) | Command::Program(_) | Command::Erase | Command::Verify =>
                (o.block as usize) < n,
            Command::CopyBack => (o.block as usize) < n && (o.copy_block as usize) < n,
            Command::Protect(_) | Command::Reset(_) | Command::Unknown => true,
        }
    }

    // Third check: a transfer does not choose BootRAM.
    fn is_buffer_fit(self) -> bool
        ensures { result ≡ buffer_fit self.operands self.command }
    {
        let buffer = self.operands.buffer;
        match self.command {
            Command::Load(_) | Command::Program(_) | Command::CopyBack => buffer / 2048 % 2 == 1,
            _ => true,
        }
    }

    // Fourth check: the block that is written to is unlocked.
    fn is_target_open(self, locks: &[Lock]) -> bool
        ensures { result ≡ target_open (lock_at locks.now) self.operands self.command }
    {
        let o = self.operands;
        match self.command {
            Command::Program(_) | Command::Erase => lock_at(locks, o.block as usize).is_unlocked(),
            Command::CopyBack => lock_at(locks, o.copy_block as usize).is_unlocked(),
            _ => true,
        }
    }

    // All four, in this order.
    fn check(self, locks: &[Lock], n: usize) -> Result<(), Fault>
        ensures { result ≡ checked (lock_at locks.now) self.operands n self.command }
    {
        if !self.is_known() || !self.are_blocks_there(n) {
            Err(Fault::Plain)
        } else if !self.is_buffer_fit() || !self.is_target_open(locks) {
            Err(Fault::Barred)
        } else {
            Ok(())
        }
    }

    // A transfer with F100h and F107h.
    fn transfer(self, part: Part) -> Transfer
        ensures { result ≡ transfer_of self.operands part }
    {
        Transfer {
            block: self.operands.block,
            page: self.operands.page,
            buffer: self.operands.buffer,
            part,
        }
    }

    // The one that copy-back programs, with F102h and F103h.
    fn copy_target(self) -> Transfer
        ensures { result ≡ copy_target self.operands }
    {
        Transfer {
            block: self.operands.copy_block,
            page: self.operands.copy_page,
            ..self.transfer(Part::Whole)
        }
    }

    // A protection command with F24Ch and F24Dh.
    fn protection(self, lock: Lock) -> Protection
        ensures { result ≡ protection_of self.operands lock }
    {
        Protection {
            lock,
            first: self.operands.first,
            last: self.operands.last,
        }
    }

    // What a command that passes its checks is going to do.
    fn intend(self) -> Plan
        ensures { result ≡ intended self.operands self.command }
    {
        match self.command {
            Command::Load(part) => Plan::Loads(self.transfer(part)),
            Command::Program(part) => Plan::Programs(self.transfer(part)),
            Command::CopyBack => Plan::Copies(self.transfer(Part::Whole), self.copy_target()),
            Command::Erase => Plan::Erases(self.operands.block),
            Command::Verify => Plan::Verifies(self.operands.block),
            Command::Protect(lock) => Plan::Protects(self.protection(lock)),
            Command::Reset(kind) => Plan::Resets(kind),
            Command::Unknown => Plan::Fails(Fault::Plain, Kind::Other),
        }
    }

    // What the command is going to do, by its checks, with these block states and n blocks.
    pub fn plan(self, locks: &[Lock], n: usize) -> Plan
        ensures { result ≡ planned (lock_at locks.now) self.operands n self.command }
    {
        match self.check(locks, n) {
            Ok(()) => self.intend(),
            Err(fault) => Plan::Fails(fault, self.command.kind()),
        }
    }
}
